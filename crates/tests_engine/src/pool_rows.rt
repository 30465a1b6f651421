//! Rows of candidates, at random, and which of them no other one dominates, by a plain program.

ghost use Rattle.std.specs.Prelude.{◌≡◌, ◌<◌, ◌≤◌, ◌^◌, length, IfOk, IsTrue, MatchBool, vec_len, pos, negsuc, ◌≤ℤ◌, ◌<ℤ◌};
ghost use Rattle.tests_engine.specs.Rows.{AreRising};

use std::alloc::{AllocError, Global};
use tests_random::Random;

/// A candidate.
#[derive(Clone, Copy, Debug, PartialEq, Eq)]
pub struct Row {
    pub q: i64,
    pub c: u32,
    pub tag: u8,
}

/// The numbers of a row as a pool takes them.
#[derive(Clone, Copy, PartialEq, Eq)]
pub struct Numbers {
    pub q: i128,
    pub c: u64,
    pub tag: u64,
}

impl Row {
    pub fn numbers(self) -> Numbers
        ensures q { result.q ≡ self.q }
        ensures low { negsuc (10 ^ 25) ≤ℤ result.q }
        ensures high { result.q ≤ℤ pos (10 ^ 25) }
        ensures load { result.c ≤ 10 ^ 11 }
    {
        Numbers {
            q: i128::from(self.q),
            c: u64::from(self.c),
            tag: u64::from(self.tag),
        }
    }
}

/// So many rows by rising c, of equal c by falling q, with many ties, and with tags from this one on.
pub fn draw_rows(
    alloc: Global,
    random: &mut Random,
    size: u32,
    first_tag: u8,
) -> Result<Vec<Row>, AllocError>
    ensures { IfOk result (λ rows. vec_len rows ≡ size) }
{
    let mut rows = Vec::new(alloc);
    let mut last = Row {
        q: i64::MAX,
        c: 0,
        tag: first_tag,
    };
    'rows: for at in 0..size {
        let rises = random.below(2) == 1;
        let q = i64::from(random.below(9));
        last = Row {
            q: if rises { q } else { q.min(last.q) },
            c: last.c.wrapping_add(u32::from(rises)),
            tag: last.tag.wrapping_add(1),
        };
        rows.push(last)?;
    }
    Ok(rows)
}

/// So many rows by rising q and c, of which many are those of other such lists, with tags from this one on.
pub fn draw_rising(
    alloc: Global,
    random: &mut Random,
    size: u32,
    first_tag: u8,
) -> Result<Vec<Row>, AllocError>
    ensures { IfOk result (λ rows. vec_len rows ≡ size) }
{
    let mut rows = Vec::new(alloc);
    let mut last = Row {
        q: 0,
        c: 0,
        tag: first_tag,
    };
    'rows: for at in 0..size {
        last = Row {
            q: last.q.wrapping_add(1 + i64::from(random.below(2))),
            c: last.c.wrapping_add(1 + random.below(2)),
            tag: last.tag.wrapping_add(1),
        };
        rows.push(last)?;
    }
    Ok(rows)
}

/// Whether the q of a row is over that of another one.
fn is_over(row: Row, other: Row) -> bool
    ensures { MatchBool result (other.q <ℤ row.q) (row.q ≤ℤ other.q) }
{
    row.q > other.q
}

/// Whether the q of these rows rises.
pub fn rises(rows: &[Row]) -> bool
    ensures { IsTrue result → AreRising (λ row. row.q) rows.now }
{
    'rows: for i in 1..rows.len() {
        if !is_over(rows[i], rows[i - 1]) {
            return false;
        }
    }
    true
}

/// The rows of both lists.
pub fn joined(alloc: Global, one: &[Row], two: &[Row]) -> Result<Vec<Row>, AllocError> {
    let mut all = Vec::from_slice(alloc, one)?;
    all.extend_from_slice(two)?;
    Ok(all)
}

/// Whether another row has no less q and no more c than the row at this place. Of equal pairs the first stays.
fn is_dominated(rows: &[Row], at: usize) -> bool
    requires { at < length rows.now }
{
    let it = rows[at];
    let mut found = false;
    for (i, row) in rows.iter().enumerate() {
        let same = row.q == it.q && row.c == it.c;
        if row.q >= it.q && row.c <= it.c && (!same || i < at) {
            found = true;
        }
    }
    found
}

/// The rows that no other one dominates, each pair once, by rising c.
pub fn undominated(alloc: Global, rows: &[Row]) -> Result<Vec<Row>, AllocError> {
    let mut kept = Vec::new(alloc);
    for at in 0..rows.len() {
        if !is_dominated(rows, at) {
            kept.push(rows[at])?;
        }
    }
    kept.sort_by_key(|row| row.c)?;
    Ok(kept)
}

/// The rows above a wire of this resistance.
pub fn above_wire(alloc: Global, rows: &[Row], r: u32) -> Result<Vec<Row>, AllocError> {
    let mut above = Vec::new(alloc);
    for row in rows {
        above.push(Row {
            q: row
                .q
                .wrapping_sub(i64::from(r).wrapping_mul(i64::from(row.c))),
            ..*row
        })?;
    }
    Ok(above)
}
