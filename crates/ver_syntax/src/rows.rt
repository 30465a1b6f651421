//! The tokens of a module with what each stands in, one after another.

ghost use Rattle.std.specs.Prelude.{◌≡◌, ◌<◌, ◌^◌, length};
ghost use Rattle.ver_syntax.specs.Rows.{item_after, place_after};

use crate::row::{Place, Row};
use std::marker::Model;
use ver_text::{Kind, Tokens, kind_in, tokens_stand_in_order};

fn item_after(kind: Kind) -> Place
    ensures { result ≡ item_after kind }
{
    match kind {
        Kind::Module => Place::Head,
        Kind::Direction | Kind::Wire | Kind::NetType => Place::Declaration,
        Kind::Assign => Place::Assignment,
        Kind::Semicolon => Place::Start,
        _ => Place::Instances,
    }
}

/// What the token after a `(` stands in.
fn opened(place: Place) -> Place
    ensures { result ≡ place_after place Kind.Open }
{
    match place {
        Place::Head => Place::Ports,
        Place::Start => Place::Instances,
        Place::Instances => Place::Pins,
        Place::Pins => Place::Connection,
        _ => place,
    }
}

/// What the token after a `)` stands in.
fn closed(place: Place) -> Place
    ensures { result ≡ place_after place Kind.Close }
{
    match place {
        Place::Ports => Place::Head,
        Place::Connection => Place::Pins,
        Place::Start | Place::Pins => Place::Instances,
        _ => place,
    }
}

/// What the token after one of this kind stands in.
#[inline(always)]
fn place_after(place: Place, kind: Kind) -> Place
    ensures { result ≡ place_after place kind }
{
    match (kind, place) {
        (Kind::Open, _) => opened(place),
        (Kind::Close, _) => closed(place),
        (Kind::Semicolon, _) => Place::Start,
        (_, Place::Start) => item_after(kind),
        _ => place,
    }
}

/// The tokens of a module in order, each with what it stands in. Contracts see the list of those that are left.
#[derive(Debug, Drop)]
pub struct Rows<'a> {
    text: &'a [u8],
    tokens: Tokens<'a>,
    place: Place,
}

impl<'a> Model for Rows<'a> {
    ghost use Rattle.std.specs.Prelude.{List};
    ghost use Rattle.ver_syntax.specs.declared.row.Row.{Row as RowSpec};
    ghost use Rattle.ver_syntax.specs.Rows.{AreLow, rows_from};

    ghost Value = { List RowSpec };

    ghost view = { λ left. rows_from left.text.now left.place left.tokens };

    ghost invariant = { λ left. AreLow left.tokens };
}

impl<'a> Rows<'a> {
    ghost use Rattle.ver_syntax.specs.Rows.{rows_of};

    /// All tokens of a text.
    pub fn new(text: &'a [u8]) -> Rows<'a>
        requires { length text.now < 2 ^ 32 }
        ensures { result ≡ rows_of text.now }
    {
        tokens_stand_in_order();
        Rows {
            text,
            tokens: Tokens::new(text),
            place: Place::Start,
        }
    }

    /// The tokens that are left, to be walked beside these.
    pub fn again(&self) -> Rows<'a>
        ensures { result ≡ self.now }
    {
        Rows {
            text: self.text,
            tokens: self.tokens.again(),
            place: self.place,
        }
    }
}

impl<'a> Iterator for Rows<'a> {
    ghost use Rattle.std.specs.Iterator.{YieldsFirst, item_count};

    type Item = Row;

    ghost next_gives = { YieldsFirst (λ left. left) };

    ghost remaining = { item_count (λ left. left) };

    #[inline(always)]
    fn next(&mut self) -> Option<Row> {
        let Some(token) = self.tokens.next() else {
            return None;
        };
        let kind = kind_in(self.text, token);
        let place = self.place;
        self.place = place_after(place, kind);
        Some(Row {
            place,
            kind,
            from: token.from as u32,
            to: token.to as u32,
        })
    }
}
