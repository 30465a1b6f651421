//! Sections of tokens, one after another.

ghost use Rattle.std.specs.Prelude.{◌≡◌, ◌∷◌, [], length, ◌<◌, MatchOption};
ghost use Rattle.ver_items.specs.Begins.{begins};
ghost use Rattle.ver_items.specs.Sections.{section_before, sections};
ghost use Rattle.ver_items.specs.SectionSteps.{section_in};

use crate::begin::Begin;
use crate::stretch::Stretch;
use std::marker::Model;
use ver_syntax::Row;

/// A token that begins something, with the tokens after it up to the next that does.
#[derive(Drop)]
pub struct Section<T: Stretch> {
    pub head: Row,
    pub body: T,
}

impl<T: Stretch> Model for Section<T> {
    ghost use Rattle.ver_items.specs.Sections.{Section as SectionSpec};

    ghost Value = { SectionSpec };

    ghost view = { λ section. record { head = section.head; body = T.tokens section.body } };
}

impl<T: Stretch> Section<T> {
    /// The section that some tokens are, the first of which begins it.
    pub fn of(rows: &T) -> Section<T>
        requires { 0 < length (T.tokens rows.now) }
        ensures { section_in (T.tokens rows.now) ≡ result ∷ [] }
    {
        let mut body = rows.again();
        match body.next() {
            Some(head) => Section { head, body },
            None => unreachable!(),
        }
    }

    /// The section that a token begins before others.
    #[inline(always)]
    pub fn before(begin: Begin, head: Row, after: &T) -> Section<T>
        ensures { result ≡ section_before (begins begin) head (T.tokens after.now) }
    {
        let (body, _) = after.split(begin);
        Section { head, body }
    }
}

/// The sections of some tokens, one after another. Contracts see the list of those that are left.
#[derive(Drop)]
pub struct Sections<T: Stretch> {
    begin: Begin,
    rest: T,
}

impl<T: Stretch> Model for Sections<T> {
    ghost use Rattle.std.specs.Prelude.{List};
    ghost use Rattle.ver_items.specs.Begins.{begins};
    ghost use Rattle.ver_items.specs.Sections.{Section as SectionSpec, sections};

    ghost Value = { List SectionSpec };

    ghost view = { λ left. sections (begins left.begin) (T.tokens left.rest) };
}

impl<T: Stretch> Sections<T> {
    /// The sections of some tokens that begin so.
    #[inline(always)]
    pub fn new(begin: Begin, rows: &T) -> Sections<T>
        ensures { result ≡ sections (begins begin) (T.tokens rows.now) }
    {
        Sections {
            begin,
            rest: rows.again(),
        }
    }
}

/// The first section of some tokens, which are those from the next one on after it.
#[tactic(auto, using(crate::proofs::SectionLemmas::sections_nil, crate::proofs::SectionLemmas::sections_yes, crate::proofs::SectionLemmas::sections_no))]
#[inline(always)]
fn first_section<T: Stretch>(begin: Begin, rows: &mut T) -> Option<Section<T>>
    ensures { MatchOption result
        ((sections (begins begin) (T.tokens rows.old) ≡ []) × (sections (begins begin) (T.tokens rows.new) ≡ []))
        (λ first. sections (begins begin) (T.tokens rows.old)
        ≡ first ∷ sections (begins begin) (T.tokens rows.new)) }
{
    'row: while let Some(head) = rows.next() {
        if begin.begins(head) {
            let (body, rest) = rows.split(begin);
            *rows = rest;
            return Some(Section { head, body });
        }
    }
    None
}

impl<T: Stretch> Iterator for Sections<T> {
    ghost use Rattle.std.specs.Iterator.{YieldsFirst, item_count};

    type Item = Section<T>;

    ghost next_gives = { YieldsFirst (λ left. left) };

    ghost remaining = { item_count (λ left. left) };

    #[inline(always)]
    fn next(&mut self) -> Option<Section<T>> {
        first_section(self.begin, &mut self.rest)
    }
}
