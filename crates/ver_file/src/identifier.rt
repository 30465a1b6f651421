//! The identifiers of nets, and what is declared of them.

ghost use Rattle.std.specs.Prelude.{[], ◌≡◌, ℕ, List, ◌∷◌, ◌++◌, ◌<◌, length, max, min, ◌/◌, ◌^◌, slice_get, slice_index_or, IfNone, IfOk, IfSome, IsTrue, OnOk, Some, true, ◌↔◌};
ghost use Rattle.name_tables.specs.Distinct.{number_in, number_of};
ghost use Rattle.ver_syntax.specs.declared.row.Row.{Row as RowSpec};
ghost use Rattle.ver_syntax.specs.Rows.{rows_of};
ghost use Rattle.ver_syntax.specs.Syntax.{HasTokens, IsModule};
ghost use Rattle.ver_items.specs.Sections.{Section as SectionSpec, is_net_name, items, name_at};
ghost use Rattle.ver_items.specs.SectionSteps.{section_in};
ghost use Rattle.ver_items.specs.Stretches.{tokens_in};
ghost use Rattle.ver_file.specs.Firsts.{declared_among, declared_under};
ghost use Rattle.ver_file.specs.Said.{with_heading};
ghost use Rattle.ver_file.specs.Tables.{AreCounted, AreIdentifiers, AreRead, Reads, ReadsOne, identifier_at};

use crate::uses::{Use, keep_use, room_for_uses};
use name_tables::Names;
use std::alloc::Global;
use ver_items::{
    Begin, Found, Heading, Item, Items, KeptItems, Section, Stretch, Tokens, begins_declaration,
    bytes_at, is_net_name, name_at,
};
use ver_module::{Identifier, name_number};
use ver_syntax::{Machine, Row};
use ver_text::is_escaped;
use vg_num::Memory;

/// How many bytes a text has for each of its nets and for each of its instances, about, where its names are long.
const BYTES_A_NAME: usize = 128;

/// The same where its names are short.
const BYTES_A_SHORT_NAME: usize = 32;

/// The most names for which room is made as if names were short.
const MOST_SHORT: usize = 1 << 16;

/// For how many names room is made, where a text has this length. A table that grows chains all its names again; one
/// that is too large takes memory for nothing, which counts where texts are long.
pub(crate) fn room_for_names(text_len: usize) -> usize
    ensures { result ≡ max (text_len / 128) (min (text_len / 32) (2 ^ 16)) }
{
    let few = (text_len / BYTES_A_SHORT_NAME).min(MOST_SHORT);
    (text_len / BYTES_A_NAME).max(few)
}

/// How many bytes a text has for each of its identifiers of nets, or more, but where names are very short. Room for so
/// many is taken at first, since a list that grows stands in memory twice; where there are fewer, it is not touched.
const BYTES_AN_IDENTIFIER: usize = 8;

/// The most bytes of a text whose items are kept, so that its tokens are cut once. A kept token takes 12 bytes, and is
/// some three bytes of a text.
const MOST_KEPT: usize = 1 << 21;

/// How many bytes a text has for each of its tokens, or more, where its items are kept.
const BYTES_A_TOKEN: usize = 2;

/// What holds of an identifier of which nothing is declared yet, by its first token.
fn undeclared(text: &[u8], token: Row) -> Identifier
    ensures { result ≡ identifier_at text.now [] token }
{
    Identifier {
        range: None,
        escaped: is_escaped(bytes_at(text, token)),
        port: None,
        supply: false,
    }
}

/// What holds of an identifier, declared so far or not, where one declaration more says this. The first one gives its
/// range.
fn with_heading(identifier: Identifier, declared: bool, heading: Heading) -> Identifier
    ensures { result ≡ with_heading identifier declared heading }
{
    Identifier {
        range: if declared {
            identifier.range
        } else {
            heading.range
        },
        escaped: identifier.escaped,
        port: identifier.port.or(heading.direction),
        supply: identifier.supply || heading.supply,
    }
}

/// No items, where those of a text of this length are kept.
fn room_for_items(alloc: Global, text_len: usize) -> Result<Option<KeptItems>, Memory>
    ensures { IfOk result (λ room. IfSome room (λ kept. kept ≡ [])) }
{
    if text_len > MOST_KEPT {
        return Ok(None);
    }
    let kept = KeptItems::with_room(alloc, text_len / BYTES_A_TOKEN)?;
    Ok(Some(kept))
}

/// With an item last, where items are kept, it is held and there is room.
fn with_item(kept: Option<KeptItems>, item: &Tokens<'_>) -> Result<Option<KeptItems>, Memory>
    requires { 0 < length (tokens_in item.now) }
    ensures { (all left : List SectionSpec) → IfSome kept (λ k. all ≡ k ++ (section_in (tokens_in item.now) ++ left))
        → IfOk result (λ new. IfSome new (λ k. all ≡ k ++ left)) }
{
    let (Some(mut kept), Tokens::Held(rows)) = (kept, item) else {
        return Ok(None);
    };
    if kept.push(rows)? {
        Ok(Some(kept))
    } else {
        Ok(None)
    }
}

/// The identifiers of nets in the order in which they come first, with what is declared of each so far; and where they
/// stand, in the order of the text, as far as that is kept. A text may have a new one in every few bytes, so of each
/// only what is needed is kept.
#[derive(Drop)]
pub(crate) struct Identifiers {
    pub names: Names,
    /// What holds of all nets of each, as far as it is read.
    pub all: Vec<Identifier>,
    /// Whether each is declared so far. Its range is then known: that of its first declaration.
    pub declared: Vec<bool>,
    /// Where the first token of each begins.
    pub froms: Vec<u32>,
    pub uses: Vec<Use>,
}

impl Identifiers {
    /// No identifiers, with room for about as many names as a text of this length has. Answers `Memory` where there is
    /// none.
    fn new(alloc: Global, text_len: usize) -> Result<Identifiers, Memory>
        ensures count { IfOk result AreCounted }
        ensures read { (text : List ℕ) → IfOk result (AreRead text (rows_of text) []) }
    {
        let names = Names::with_room(alloc, room_for_names(text_len))?;
        let room = text_len / BYTES_AN_IDENTIFIER;
        Ok(Identifiers {
            names,
            all: Vec::with_capacity(alloc, room)?,
            declared: Vec::with_capacity(alloc, room)?,
            froms: Vec::with_capacity(alloc, room)?,
            uses: room_for_uses(alloc, text_len)?,
        })
    }

    /// The number of the identifier of nets that a token is, which is put last where it is new.
    fn intern(&mut self, text: &[u8], row: Row) -> Result<usize, Memory>
        requires name { is_net_name row ≡ true }
        requires count { AreCounted self.old }
        ensures number { IfOk result (λ at. at ≡ number_in self.new.names (name_at text.now row)) }
        ensures within { IfOk result (λ at. at < length self.new.names) }
        ensures is { IfOk result (λ at. slice_index_or self.new.names at [] ≡ name_at text.now row) }
        ensures count { OnOk result (AreCounted self.new) }
        ensures read { OnOk result (ReadsOne text.now row self.old self.new) }
    {
        let count = self.names.len();
        let id = name_number(&mut self.names, name_at(text, row))?;
        let place = Use {
            from: row.from,
            to: row.to,
            id,
        };
        keep_use(text.len(), place, &mut self.uses)?;
        let at = id as usize;
        if at == count {
            self.all.push(undeclared(text, row))?;
            self.declared.push(false)?;
            self.froms.push(row.from)?;
        }
        Ok(at)
    }

    /// Reads a token, which stands in a declaration that says this of its identifiers, or in none.
    #[inline(always)]
    fn read(&mut self, text: &[u8], row: Row, heading: Option<Heading>) -> Result<(), Memory>
        requires { AreCounted self.old }
        ensures count { OnOk result (AreCounted self.new) }
        ensures read { OnOk result
            (Reads text.now (row ∷ []) (declared_under text.now heading (row ∷ [])) self.old self.new) }
    {
        if !is_net_name(row) {
            return Ok(());
        }
        let at = self.intern(text, row)?;
        if let Some(heading) = heading {
            self.all[at] = with_heading(self.all[at], self.declared[at], heading);
            self.declared[at] = true;
        }
        Ok(())
    }

    /// Reads some tokens of the text, the first of which begins an item.
    fn read_tokens<T: Stretch>(&mut self, text: &[u8], rows: &T) -> Result<(), Memory>
        requires { AreCounted self.old }
        ensures count { OnOk result (AreCounted self.new) }
        ensures read { OnOk result
            (Reads text.now (T.tokens rows.now) (declared_among text.now (T.tokens rows.now)) self.old self.new) }
    {
        let mut heading = None;
        let mut left = rows.again();
        'row: while let Some(row) = left.next() {
            if begins_declaration(row) {
                let declaration = Section::before(Begin::Declaration, row, &left);
                heading = Some(Heading::of(text, &declaration));
            }
            self.read(text, row, heading)?;
        }
        Ok(())
    }

    /// Reads the tokens of an item.
    fn read_item(&mut self, text: &[u8], item: &Tokens<'_>) -> Result<(), Memory>
        requires { AreCounted self.old }
        ensures count { OnOk result (AreCounted self.new) }
        ensures read { OnOk result
            (Reads text.now (tokens_in item.now) (declared_among text.now (tokens_in item.now)) self.old self.new) }
    {
        match item {
            Tokens::Held(rows) => self.read_tokens(text, rows),
            Tokens::Cut(rows) => self.read_tokens(text, rows),
        }
    }

    /// Those of a text that is a module, and its items, if they are kept. `None`: it is none. Answers `Memory` where
    /// there is no room.
    pub fn of(
        alloc: Global,
        text: &[u8],
    ) -> Result<Option<(Identifiers, Option<KeptItems>)>, Memory>
        requires few { length text.now < 2 ^ 32 }
        ensures module { IfOk result (λ found.
            IfSome found (λ all. HasTokens text.now × IsModule text.now × AreIdentifiers text.now all.0)) }
        ensures kept { IfOk result (λ found. IfSome found (λ all. IfSome all.1 (λ kept. kept ≡ items text.now))) }
        ensures none { IfOk result (λ found. IfNone found (IsModule text.now → ⊥)) }
    {
        let mut found = Identifiers::new(alloc, text.len())?;
        let mut kept = room_for_items(alloc, text.len())?;
        let mut machine = Machine::new(alloc);
        let mut items = Items::new(text);
        let mut item = Item::new(alloc, text.len());
        'item: loop {
            match items.read_by(&mut machine, &mut item)? {
                Found::Item => {
                    let rows = item.tokens();
                    found.read_item(text, &rows)?;
                    kept = with_item(kept, &rows)?;
                }
                Found::End if machine.is_module() => return Ok(Some((found, kept))),
                Found::End | Found::Refused => return Ok(None),
            }
        }
    }
}
