//! The parts of resistors.

ghost use Rattle.std.specs.Prelude.{◌≡◌, ◌+◌, ◌-◌, ◌*◌, ◌^◌, ◌<◌, ◌≤◌, ◌++◌, length, IfOk, OnOk};
ghost use Rattle.vg_segment.specs.Segments.{part_of, link, chain, chains};

use std::alloc::Global;
use vg_num::{Memory, Row};

/// Part `i` of a resistance in so many parts: the first ones have one more, where it does not divide.
fn part_of(parts: u32, resistance: u64, i: u32) -> u64
    requires { 0 < parts }
    ensures { result ≡ part_of parts resistance i }
{
    let parts = u64::from(parts);
    if u64::from(i) < resistance % parts {
        resistance / parts + 1
    } else {
        resistance / parts
    }
}

/// Node `i` of the chain of a resistor, whose new nodes are numbered from `first` on.
fn link(parts: u32, first: u32, res: (u32, u32, u64), i: u32) -> u32
    requires { first + i < 2 ^ 32 }
    ensures { result ≡ link parts first res i }
{
    if i == 0 {
        res.0
    } else if i == parts {
        res.1
    } else {
        first + (i - 1)
    }
}

/// Puts the chain of a resistor last. Its new nodes are numbered from `first` on.
fn push_chain(
    cut: &mut Vec<(u32, u32, u64)>,
    parts: u32,
    first: u32,
    res: (u32, u32, u64),
) -> Result<(), Memory>
    requires some { 0 < parts }
    requires few { first + parts < 2 ^ 32 }
    ensures { OnOk result (cut.new.items ≡ cut.old.items ++ chain parts first res) }
{
    'part: for i in 0..parts {
        let from = link(parts, first, res, i);
        let to = link(parts, first, res, i + 1);
        cut.push((from, to, part_of(parts, res.2, i)))?;
    }
    Ok(())
}

/// The chains of all resistors, whose new nodes are numbered from `first` on.
pub(crate) fn cut_ress(
    alloc: Global,
    ress: &[(u32, u32, u64)],
    parts: u32,
    first: u32,
) -> Result<Row<(u32, u32, u64)>, Memory>
    requires some { 0 < parts }
    requires few { parts ≤ 64 }
    requires size { first + length ress.now * (parts - 1) ≤ 65536 }
    ensures { IfOk result (λ cut. cut ≡ chains parts first ress.now) }
{
    let mut cut = Vec::with_capacity(alloc, ress.len() * (parts - 1) as usize + ress.len())?;
    let mut next = first;
    'res: for res in ress {
        push_chain(&mut cut, parts, next, *res)?;
        next += parts - 1;
    }
    Ok(Row::from_vec(cut))
}
