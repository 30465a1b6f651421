//! The connections of pins.

ghost use Rattle.std.specs.Prelude.{◌≡◌};
ghost use Rattle.ver_items.specs.Connections.{connection_of, expression_in, span_of, start_of};

use crate::begin::Begin;
use crate::others::after_first;
use crate::section::Section;
use crate::stretch::Stretch;
use vg_scan::Span;

/// The tokens of a pin's connection and the bracket that ends it.
pub fn connection_of<T: Stretch>(pin: &Section<T>) -> T
    ensures { T.tokens result ≡ connection_of pin.now }
{
    let (connection, _) = after_first(&pin.body).split(Begin::Outside);
    connection
}

/// The tokens of the expression in a connection.
pub fn expression_in<T: Stretch>(connection: &T) -> T
    ensures { T.tokens result ≡ expression_in (T.tokens connection.now) }
{
    connection.first(connection.len().saturating_sub(1))
}

fn start_of<T: Stretch>(connection: &T) -> usize
    ensures { result ≡ start_of (T.tokens connection.now) }
{
    match connection.again().next() {
        None => 0,
        Some(first) => first.from as usize,
    }
}

/// Where the expression of a connection stands.
pub fn span_of<T: Stretch>(connection: &T) -> Span
    ensures { result ≡ span_of (T.tokens connection.now) }
{
    let from = start_of(connection);
    let mut to = from;
    let mut left = expression_in(connection);
    'row: while let Some(row) = left.next() {
        to = row.to as usize;
    }
    Span { from, to }
}
