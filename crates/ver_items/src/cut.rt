//! Tokens that are cut from a text.

ghost use Rattle.std.specs.Prelude.{◌≡◌, ◌≤◌, [], length, take};
ghost use Rattle.std.specs.List.{before_first};
ghost use Rattle.ver_items.specs.Begins.{begins};

use crate::begin::Begin;
use crate::stretch::Stretch;
use std::marker::Model;
use ver_syntax::{Row, Rows};

/// The next so many tokens of a text, one after another. Contracts see the list of those that are left.
#[derive(Debug, Drop)]
pub struct Cut<'a> {
    rows: Rows<'a>,
    count: usize,
}

impl<'a> Model for Cut<'a> {
    ghost use Rattle.std.specs.Prelude.{◌≤◌, List, length, take};
    ghost use Rattle.ver_syntax.specs.declared.row.Row.{Row as RowSpec};

    ghost Value = { List RowSpec };

    ghost view = { λ left. take left.count left.rows };

    ghost invariant = { λ left. left.count ≤ length left.rows };
}

impl<'a> Cut<'a> {
    /// The next so many tokens.
    pub(crate) fn new(rows: Rows<'a>, count: usize) -> Cut<'a>
        requires { count ≤ length rows }
        ensures { result ≡ take count rows.entry }
    {
        Cut { rows, count }
    }
}

impl<'a> Stretch for Cut<'a> {
    ghost tokens = { λ left. left };

    fn again(&self) -> Cut<'a> {
        Cut {
            rows: self.rows.again(),
            count: self.count,
        }
    }

    fn len(&self) -> usize {
        self.count
    }

    fn next(&mut self) -> Option<Row> {
        if self.count == 0 {
            return None;
        }
        self.count -= 1;
        self.rows.next()
    }

    fn first(&self, count: usize) -> Cut<'a> {
        Cut {
            rows: self.rows.again(),
            count,
        }
    }

    fn split(&self, begin: Begin) -> (Cut<'a>, Cut<'a>) {
        let mut rest = self.again();
        let mut count = 0;
        'row: loop {
            let mut after = rest.again();
            match after.next() {
                Some(row) if !begin.begins(row) => {
                    rest = after;
                    count += 1;
                }
                _ => return (self.first(count), rest),
            }
        }
    }
}
