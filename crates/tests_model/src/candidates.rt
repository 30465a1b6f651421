//! Lists of pairs, worked upward.

ghost use Rattle.std.specs.Prelude.{◌≡◌, true, IsTrue, IfOk};
ghost use Rattle.std.specs.List.{All, AllPairs};
ghost use Rattle.cand_pairs.specs.Merging.{IsModest};
ghost use Rattle.elmore.specs.Pairs.{IsBelow};

use cand_pairs::{meet_all, sweep, through_wire};
use elmore::Pair;
use std::alloc::Global;
use std::test::Fail;

fn is_rising(pairs: &[Pair]) -> bool
    ensures { result ≡ true → AllPairs IsBelow pairs.now }
{
    'pairs: for i in 1..pairs.len() {
        if pairs[i].q <= pairs[i - 1].q || pairs[i].c <= pairs[i - 1].c {
            return false;
        }
    }
    true
}

fn is_modest(pair: &Pair) -> bool
    ensures { IsTrue result → IsModest pair.now }
{
    pair.q >= -1000 && pair.q <= 1000 && pair.c <= 1000
}

fn are_modest(pairs: &[Pair]) -> bool
    ensures { IsTrue result → All IsModest pairs.now }
{
    pairs.iter().all(is_modest)
}

/// Fails where the list does not rise, or has large numbers.
fn expect_list(pairs: &[Pair]) -> Result<(), Fail>
    ensures rises { IfOk result (λ _. AllPairs IsBelow pairs.now) }
    ensures modest { IfOk result (λ _. All IsModest pairs.now) }
{
    if is_rising(pairs) && are_modest(pairs) {
        Ok(())
    } else {
        Err("no list of pairs".into())
    }
}

/// Two lists, a resistance, what they come to together, and what the first comes to through the wire.
type Case = (
    &'static [Pair],
    &'static [Pair],
    u64,
    &'static [Pair],
    &'static [Pair],
);

static CASES: [Case; 4] = [
    (&[], &[Pair { q: 7, c: 3 }], 2, &[], &[]),
    (
        &[Pair { q: 5, c: 2 }, Pair { q: 9, c: 6 }],
        &[Pair { q: 7, c: 3 }],
        2,
        &[Pair { q: 5, c: 5 }, Pair { q: 7, c: 9 }],
        &[Pair { q: 1, c: 2 }],
    ),
    (
        &[Pair { q: 5, c: 2 }, Pair { q: 30, c: 6 }],
        &[Pair { q: 5, c: 1 }, Pair { q: 40, c: 4 }],
        3,
        &[Pair { q: 5, c: 3 }, Pair { q: 30, c: 10 }],
        &[Pair { q: -1, c: 2 }, Pair { q: 12, c: 6 }],
    ),
    (
        &[Pair { q: -4, c: 1 }, Pair { q: 0, c: 2 }],
        &[Pair { q: -9, c: 0 }],
        4,
        &[Pair { q: -9, c: 1 }],
        &[Pair { q: -8, c: 1 }],
    ),
];

fn swept(alloc: Global, pairs: &[Pair]) -> Result<Vec<Pair>, Fail> {
    expect_list(pairs)?;
    let kept = sweep(alloc, pairs)?;
    Ok(kept)
}

fn met(alloc: Global, xs: &[Pair], ys: &[Pair]) -> Result<Vec<Pair>, Fail> {
    expect_list(xs)?;
    expect_list(ys)?;
    let merged = meet_all(alloc, xs, ys)?;
    Ok(merged)
}

fn wired(alloc: Global, r: u64, pairs: &[Pair]) -> Result<Vec<Pair>, Fail> {
    if r > 1000 {
        return Err("a great resistance".into());
    }
    expect_list(pairs)?;
    let kept = through_wire(alloc, r, pairs)?;
    Ok(kept)
}

/// Whether the first list stays as it is, and both come to what is wanted.
fn is_so(alloc: Global, case: &Case) -> Result<[bool; 3], Fail> {
    let (one, two, r, both, above) = *case;
    let kept = swept(alloc, one)?;
    let merged = met(alloc, one, two)?;
    let through = wired(alloc, r, one)?;
    Ok([
        kept.as_slice() == one,
        merged.as_slice() == both,
        through.as_slice() == above,
    ])
}

#[test]
fn works_lists_upward(rt: HostRuntime) -> Result<(), Fail> {
    for (row, case) in CASES.iter().enumerate() {
        assert_eq!(rt; is_so(rt.alloc(), case)?, [true; 3], "row {row}");
    }
    Ok(())
}
