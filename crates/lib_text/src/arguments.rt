//! The arguments of a complex attribute or of a group.

ghost use Rattle.std.specs.Prelude.{◌≡◌, ◌==◌, ◌+◌, ◌≤◌, false, length, drop, MatchOption, [], ◌∷◌};
ghost use Rattle.std.specs.Iterator.{YieldsFirstRef, item_count};
ghost use Rattle.std.specs.List.{list_all, position, position_or_len};
ghost use Rattle.vg_scan.specs.Lines.{is_ink};
ghost use Rattle.lib_text.specs.declared.quoting.Quoting.TheVariants.{Outside};
ghost use Rattle.lib_text.specs.Arguments.{is_comma, without_end, trimmed, unquoted, is_in_quotes, arguments_of, is_name_byte, is_name, are_names, EndsName};
ghost use Rattle.lib_text.specs.Strings.{until};
ghost use Rattle.lib_text.specs.Kinds.{list_kind};

use crate::kind::Kind;
use crate::quoting::Quoting;
use std::marker::Model;
use vg_scan::text_from;

fn first_ink(text: &[u8]) -> Option<usize>
    ensures { result ≡ position is_ink text.now }
{
    text.iter()
        .position(|byte| !(*byte == b' ' || *byte == b'\t'))
}

fn ink_at(text: &[u8]) -> usize
    ensures place { result ≡ position_or_len is_ink text.now }
    ensures within { result ≤ length text.now }
{
    match first_ink(text) {
        None => text.len(),
        Some(at) => at,
    }
}

/// The text without the blanks at its end.
fn without_end(text: &[u8]) -> &[u8]
    ensures { result.now ≡ without_end text.now }
{
    let mut end = text.len();
    'back: while end > 0 && (text[end - 1] == b' ' || text[end - 1] == b'\t') {
        end -= 1;
    }
    &text[..end]
}

/// The text without the blanks at its ends.
#[tactic(auto, unfolding(crate::specs::Arguments::trimmed))]
pub(crate) fn trim(text: &[u8]) -> &[u8]
    ensures { result.now ≡ trimmed text.now }
{
    without_end(text_from(text, ink_at(text)))
}

fn is_in_quotes(text: &[u8]) -> bool
    ensures { result ≡ is_in_quotes text.now }
{
    1 < text.len() && text[0] == b'"' && text[text.len() - 1] == b'"'
}

/// The text without one pair of quotes around it.
#[tactic(auto, unfolding(crate::specs::Arguments::unquoted))]
pub(crate) fn unquote(text: &[u8]) -> &[u8]
    ensures { result.now ≡ unquoted text.now }
{
    if is_in_quotes(text) {
        &text[1..text.len() - 1]
    } else {
        text
    }
}

fn all_name_bytes(text: &[u8]) -> bool
    ensures { result ≡ list_all is_name_byte text.now }
{
    text.iter().all(|byte| 33 <= *byte && *byte <= 126)
}

/// Whether a text may be the name of a cell or of a pin: one byte or more from 33 to 126.
#[tactic(auto, unfolding(crate::specs::Arguments::is_name))]
pub(crate) fn is_name(text: &[u8]) -> bool
    ensures { result ≡ is_name text.now }
{
    !text.is_empty() && all_name_bytes(text)
}

/// Where the argument ends that begins at a place: at a comma outside strings, or at the list's end.
fn argument_end(list: &[u8], at: usize) -> usize
    requires { at ≤ length list.now }
    ensures place { result ≡ at + until is_comma Outside (drop at list.now) }
    ensures within { result ≤ length list.now }
{
    let mut end = at;
    let mut quoting = Quoting::Outside;
    'argument: while end < list.len() && !is_comma(quoting, list[end]) {
        quoting = quoting.after(list[end]);
        end += 1;
    }
    end
}

fn is_comma(quoting: Quoting, byte: u8) -> bool
    ensures { result ≡ is_comma quoting byte }
{
    !quoting.is_quoted() && byte == b','
}

/// Where the argument ends that begins at a place, if it is a name.
fn name_end(list: &[u8], at: usize) -> Option<usize>
    requires { at ≤ length list.now }
    ensures { MatchOption result (are_names (drop at list.now) ≡ false) (EndsName list.now at) }
{
    let end = argument_end(list, at);
    if is_name(unquote(trim(&list[at..end]))) {
        Some(end)
    } else {
        None
    }
}

fn are_names(list: &[u8]) -> bool
    ensures { result ≡ are_names list.now }
{
    let mut at = 0;
    'argument: while let Some(end) = name_end(list, at) {
        if end == list.len() {
            return true;
        }
        at = end + 1;
    }
    false
}

fn is_one(list: &[u8]) -> bool
    ensures { result ≡ (length (arguments_of list.now) == 1) }
{
    argument_end(list, 0) == list.len()
}

/// What a list of arguments is to the grammar.
#[tactic(auto, unfolding(crate::specs::Kinds::list_kind))]
pub(crate) fn list_kind(list: &[u8]) -> Kind
    ensures { result ≡ list_kind list.now }
{
    if !are_names(list) {
        return Kind::Other;
    }
    if is_one(list) {
        Kind::Single
    } else {
        Kind::Several
    }
}

/// The first argument of a list, and those after it.
fn first_argument(list: &[u8]) -> (&[u8], Arguments<'_>)
    ensures { arguments_of list.now ≡ result.0.now ∷ result.1 }
{
    let end = argument_end(list, 0);
    let argument = unquote(trim(&list[..end]));
    if end == list.len() {
        return (
            argument,
            Arguments {
                list,
                is_over: true,
            },
        );
    }
    (argument, Arguments::new(text_from(list, end + 1)))
}

/// The arguments of a list, one after another. Contracts see the list of those that are left.
#[derive(Debug, Drop)]
pub struct Arguments<'a> {
    list: &'a [u8],
    is_over: bool,
}

impl<'a> Model for Arguments<'a> {
    ghost use Rattle.std.specs.Prelude.{List, ℕ, [], if◌then◌else◌};
    ghost use Rattle.lib_text.specs.Arguments.{arguments_of};

    ghost Value = { List (List ℕ) };

    ghost view = { λ left. if left.is_over then [] else arguments_of left.list.now };
}

impl<'a> Arguments<'a> {
    /// All arguments of a list.
    pub fn new(list: &'a [u8]) -> Arguments<'a>
        ensures { result ≡ arguments_of list.now }
    {
        Arguments {
            list,
            is_over: false,
        }
    }
}

impl<'a> Iterator for Arguments<'a> {
    type Item = &'a [u8];

    ghost next_gives = { YieldsFirstRef (λ left. left) };

    ghost remaining = { item_count (λ left. left) };

    fn next(&mut self) -> Option<&'a [u8]> {
        if self.is_over {
            return None;
        }
        let (argument, rest) = first_argument(self.list);
        *self = rest;
        Some(argument)
    }
}

/// The arguments of a list that has two.
pub fn two_arguments(list: &[u8]) -> Option<(&[u8], &[u8])>
    ensures { MatchOption result ((length (arguments_of list.now) == 2) ≡ false) (λ two.
        arguments_of list.now ≡ two.0.now ∷ two.1.now ∷ []) }
{
    let end = argument_end(list, 0);
    if end == list.len() {
        return None;
    }
    let last = argument_end(list, end + 1);
    if last < list.len() {
        return None;
    }
    Some((
        unquote(trim(&list[..end])),
        unquote(trim(text_from(list, end + 1))),
    ))
}
