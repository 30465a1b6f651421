//! Groups, and what stands in them.

ghost use Rattle.std.specs.Prelude.{◌≡◌, [], None, nat_lt, length, drop, MatchOption};
ghost use Rattle.std.specs.Iterator.{YieldsFirst, item_count};
ghost use Rattle.std.specs.List.{find, position};
ghost use Rattle.std.specs.Str.{bytes_eq};
ghost use Rattle.lib_text.specs.Groups.{attribute, complex_attribute, group_of, groups_from, groups_in, inside, is_form, is_in, first_statement, library_in, list_of, names_of, value_in, value_of, word_at};
ghost use Rattle.lib_text.specs.GroupSteps.{IsFirstGroup};

use crate::arguments::{Arguments, trim, unquote};
use crate::lexer::word_end;
use crate::statement::{Form, Statement};
use std::marker::Model;
use vg_scan::{Span, text_at};

/// A group of a text, with the statements inside it.
///
/// It is read where it stands: look-ups walk over its statements and take no memory.
#[derive(Debug, Drop)]
pub struct Group<'a> {
    text: &'a [u8],
    head: Statement,
    body: &'a [Statement],
}

impl<'a> Model for Group<'a> {
    ghost use Rattle.lib_text.specs.Groups.{Group};

    ghost Value = { Group };

    ghost view = { λ group. record { text = group.text.now; head = group.head; body = group.body.now } };
}

/// The text from a place on, as far as it reaches.
fn rest_of(text: &[u8], at: usize) -> &[u8]
    ensures { result.now ≡ drop at text.now }
{
    &text[at.min(text.len())..]
}

/// The identifier that begins at a place.
fn word_at(text: &[u8], at: usize) -> &[u8]
    ensures { result.now ≡ word_at text.now at }
{
    let rest = rest_of(text, at);
    &rest[..word_end(rest, 0)]
}

fn is_named(text: &[u8], at: usize, name: &[u8]) -> bool
    ensures { result ≡ bytes_eq (word_at text.now at) name.now }
{
    word_at(text, at) == name
}

fn is_form(a: Form, b: Form) -> bool
    ensures { result ≡ is_form a b }
{
    a == b
}

/// Where the first of these statements stands that is not inside the group of a statement before them.
fn outside_at(head: Statement, after: &[Statement]) -> Option<usize>
    ensures { result ≡ position (λ s. nat_lt s.group head.name) after.now }
{
    after
        .iter()
        .position(|statement| statement.group < head.name)
}

/// The statements inside the group of a statement before them.
fn inside(head: Statement, after: &[Statement]) -> &[Statement]
    ensures { result.now ≡ inside head after.now }
{
    match outside_at(head, after) {
        None => after,
        Some(end) => &after[..end],
    }
}

/// The first statement, or an empty one where there is none.
fn first_statement(statements: &[Statement]) -> Statement
    ensures { result ≡ first_statement statements.now }
{
    match statements.first() {
        Some(statement) => *statement,
        None => Statement {
            group: 0,
            form: Form::Group,
            name: 0,
            from: 0,
            to: 0,
        },
    }
}

impl<'a> Group<'a> {
    /// The group that a library is: the first of the text's statements, with all that follow. Where there is none, a
    /// group without arguments and statements.
    pub fn library(text: &'a [u8], statements: &'a [Statement]) -> Group<'a>
        ensures { result ≡ library_in text.now statements.now }
    {
        Group {
            text,
            head: first_statement(statements),
            body: &statements[1.min(statements.len())..],
        }
    }

    /// The statement of the group itself.
    pub fn head(&self) -> Statement
        ensures { result ≡ self.now.head }
    {
        self.head
    }

    /// Whether a statement stands in the group and in none within it, and has this form and this name.
    fn has(&self, form: Form, name: &[u8], statement: Statement) -> bool
        ensures { result ≡ is_in self.now form name.now statement }
    {
        statement.group == self.head.name
            && is_form(form, statement.form)
            && is_named(self.text, statement.name as usize, name)
    }

    /// The first statement of the group with this form and this name.
    fn first(&self, form: Form, name: &[u8]) -> Option<Statement>
        ensures { result ≡ find (is_in self.now form name.now) self.now.body }
    {
        self.body
            .iter()
            .copied()
            .find(|statement| self.has(form, name, *statement))
    }

    /// The first simple attribute of the group with this name: of one that is given twice the first counts.
    pub fn attribute(&self, name: &[u8]) -> Option<Statement>
        ensures { result ≡ attribute self.now name.now }
    {
        self.first(Form::Simple, name)
    }

    /// The first complex attribute of the group with this name.
    pub fn complex_attribute(&self, name: &[u8]) -> Option<Statement>
        ensures { result ≡ complex_attribute self.now name.now }
    {
        self.first(Form::Complex, name)
    }

    /// The text between the brackets of a complex attribute or of a group.
    pub fn list(&self, statement: Statement) -> &'a [u8]
        ensures { result.now ≡ list_of self.now.text statement }
    {
        text_at(
            self.text,
            Span {
                from: statement.from as usize,
                to: statement.to as usize,
            },
        )
    }

    /// The value of a simple attribute, without blanks at its ends and without one pair of quotes.
    pub fn value(&self, statement: Statement) -> &'a [u8]
        ensures { result.now ≡ value_of self.now.text statement }
    {
        unquote(trim(self.list(statement)))
    }

    /// The value of the first simple attribute with this name.
    pub fn value_in(&self, name: &[u8]) -> Option<&'a [u8]>
        ensures { MatchOption result (value_in self.now name.now ≡ None) (λ value.
            value_in self.now name.now ≡ Some value.now) }
    {
        let statement = self.attribute(name)?;
        Some(self.value(statement))
    }

    /// The arguments of the group.
    pub fn names(&self) -> Arguments<'a>
        ensures { result ≡ names_of self.now }
    {
        Arguments::new(self.list(self.head))
    }

    fn same(&self) -> Group<'a>
        ensures { result ≡ self.now }
    {
        Group {
            text: self.text,
            head: self.head,
            body: self.body,
        }
    }

    /// The group of a statement of the text, before these.
    fn part(&self, head: Statement, after: &'a [Statement]) -> Group<'a>
        ensures { result ≡ group_of self.now.text head after.now }
    {
        Group {
            text: self.text,
            head,
            body: inside(head, after),
        }
    }

    /// The groups with this name that stand in the group and in none within it, in order.
    pub fn groups(&self, name: &'a [u8]) -> Groups<'a>
        ensures { result ≡ groups_in self.now name.now }
    {
        Groups {
            owner: self.same(),
            name,
            rest: self.body,
        }
    }
}

/// The groups of one name in a group, one after another. Contracts see the list of those that are left.
#[derive(Debug, Drop)]
pub struct Groups<'a> {
    owner: Group<'a>,
    name: &'a [u8],
    rest: &'a [Statement],
}

impl<'a> Model for Groups<'a> {
    ghost use Rattle.lib_text.specs.Groups.{Group as GroupSpec, groups_from};
    ghost use Rattle.std.specs.Prelude.{List};

    ghost Value = { List GroupSpec };

    ghost view = { λ left. groups_from left.owner left.name.now left.rest.now };
}

/// The first group with a name in another one, among these statements, and the statements after its own.
#[tactic(auto, using(crate::proofs::GroupLemmas::groups_nil, crate::proofs::GroupLemmas::groups_yes, crate::proofs::GroupLemmas::groups_no))]
fn first_group<'a>(
    owner: &Group<'a>,
    name: &[u8],
    rest: &'a [Statement],
) -> Option<(Group<'a>, &'a [Statement])>
    ensures { MatchOption result (groups_from owner.now name.now rest.now ≡ []) (λ found.
        IsFirstGroup owner.now name.now rest.now (found.0, found.1.now)) }
{
    let mut left = rest;
    'statement: while let Some((statement, after)) = left.split_first() {
        if owner.has(Form::Group, name, *statement) {
            return Some((owner.part(*statement, after), after));
        }
        left = after;
    }
    None
}

impl<'a> Iterator for Groups<'a> {
    type Item = Group<'a>;

    ghost next_gives = { YieldsFirst (λ left. left) };

    ghost remaining = { item_count (λ left. left) };

    fn next(&mut self) -> Option<Group<'a>> {
        let (group, rest) = first_group(&self.owner, self.name, self.rest)?;
        self.rest = rest;
        Some(group)
    }
}
