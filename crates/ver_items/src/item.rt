//! The tokens of an item.

ghost use Rattle.std.specs.Prelude.{◌≡◌, ◌==◌, ◌≤◌, [], length, take, unwrap_or};
ghost use Rattle.ver_items.specs.Stretches.{or_held, tokens_in};

use crate::cut::Cut;
use crate::stretch::Stretch;
use std::alloc::Global;
use std::marker::Model;
use ver_syntax::{Row, Rows};

/// So many tokens of an item are held whatever the text's length is.
const FEW: usize = 4096;

/// How many bytes a text has for each token of an item that is held, or more. Few items of ordinary netlists are as
/// long as that beside the whole.
const BYTES_A_HELD_TOKEN: usize = 16;

/// Room for the tokens of an item.
#[derive(Debug, Drop)]
pub(crate) struct Room {
    /// The first of its tokens.
    pub(crate) held: Vec<Row>,
    /// The tokens that a machine reads next.
    pub(crate) part: Vec<Row>,
    /// An item of more tokens than these is not held.
    pub(crate) most: usize,
}

impl Room {
    /// No tokens, with room for as many of an item as are held where a text has this length.
    fn new(alloc: Global, text_len: usize) -> Room
        ensures { result.held.items ≡ [] }
    {
        Room {
            held: Vec::new(alloc),
            part: Vec::new(alloc),
            most: FEW.max(text_len / BYTES_A_HELD_TOKEN),
        }
    }
}

/// The tokens of an item, by where they are.
#[derive(Debug, Drop)]
pub enum Tokens<'a> {
    /// They are held.
    Held(&'a [Row]),
    /// They stand in a text.
    Cut(Cut<'a>),
}

/// So many tokens from a place on, the first of which are held; none where all of them are.
pub(crate) fn not_held<'a>(start: &Rows<'a>, count: usize, held: &[Row]) -> Option<Cut<'a>>
    requires there { count ≤ length start.now }
    requires held { held.now ≡ take (length held.now) start.now }
    requires within { length held.now ≤ count }
    ensures { unwrap_or result held.now ≡ take count start.now }
{
    if held.len() == count {
        return None;
    }
    Some(Cut::new(start.again(), count))
}

/// Tokens that are cut, if there are any, in place of those that a room holds.
pub(crate) fn in_place<'a>(cut: Option<Cut<'a>>, room: &mut Room) -> Option<Tokens<'a>>
    ensures { or_held result room.new.held.items ≡ unwrap_or cut.entry room.old.held.items }
{
    match cut {
        None => None,
        Some(rows) => {
            room.held.clear();
            room.held.shrink_to_fit();
            Some(Tokens::Cut(rows))
        }
    }
}

/// The tokens of an item of a text. Contracts see the list of them. They are held, if they are not too many.
#[derive(Debug, Drop)]
pub struct Item<'a> {
    pub(crate) room: Room,
    /// The tokens, where they are not those that the room holds.
    pub(crate) others: Option<Tokens<'a>>,
}

impl<'a> Model for Item<'a> {
    ghost use Rattle.std.specs.Prelude.{List};
    ghost use Rattle.ver_syntax.specs.declared.row.Row.{Row as RowSpec};
    ghost use Rattle.ver_items.specs.Stretches.{or_held};

    ghost Value = { List RowSpec };

    ghost view = { λ item. or_held item.others item.room.held.items };
}

impl<'a> Item<'a> {
    /// No tokens, where a text has this length.
    pub fn new(alloc: Global, text_len: usize) -> Item<'a>
        ensures { result ≡ [] }
    {
        Item {
            room: Room::new(alloc, text_len),
            others: None,
        }
    }

    /// The tokens.
    pub fn tokens(&self) -> Tokens<'_>
        ensures { tokens_in result ≡ self.now }
    {
        match &self.others {
            Some(Tokens::Held(rows)) => Tokens::Held(rows),
            Some(Tokens::Cut(rows)) => Tokens::Cut(rows.again()),
            None => Tokens::Held(&self.room.held),
        }
    }

    /// Whether there is no token.
    pub(crate) fn is_empty(&self) -> bool
        ensures { result ≡ (length self.now == 0) }
    {
        match &self.others {
            Some(Tokens::Held(rows)) => rows.is_empty(),
            Some(Tokens::Cut(rows)) => rows.len() == 0,
            None => self.room.held.is_empty(),
        }
    }
}
