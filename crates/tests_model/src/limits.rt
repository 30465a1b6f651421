//! Limits of problems, in mΩ, aF and zs.

use crate::problems::{BUF, DRIVER, INV, ROOT, TRUNK, worked_problem};
use elmore::{Driver, Node, Rep, Sink};
use std::alloc::Global;
use std::test::Fail;

/// The resistance and the capacitance of the last of three nodes, and whether the one before it is free.
type Last = (u64, u128, bool);

/// The driver's delay and arrival, and the required time of the sink.
type Times = (i128, i128, i128);

/// The driver's resistance; the input capacitance, the resistance, the delay and the cost of a repeater; and how many
/// of these there are behind an inverter.
type Cells = (u64, u64, u64, u64, u64, usize);

/// Parts of a problem, and whether they are within the limits.
type Case = (Last, Times, Cells, bool);

const LAST: Last = (1_000_000, 102_000, true);

const TIMES: Times = (10_000_000_000, 0, 400_000_000_000);

const CELLS: Cells = (1_000_000, 2_000, R, 0, 0, 1);

const GREAT_INPUT: Cells = (1_000_000, u64::MAX, R, 0, 0, 1);

/// The resistance of the inverter.
const R: u64 = 500_000;

const MOST_R: u64 = 1_000_000_000;

const MOST_K: u64 = 1_000_000_000_000_000_000;

const MOST_COST: u64 = 1_000_000_000_000;

const MOST: i128 = 100_000_000_000_000_000_000_000;

static CASES: [Case; 22] = [
    // all capacitors, with the greatest input capacitance at each place
    ((1_000_000, 99_999_898_000, true), TIMES, CELLS, true),
    ((1_000_000, 99_999_898_001, true), TIMES, CELLS, false),
    ((1_000_000, 99_999_900_000, false), TIMES, CELLS, true),
    ((1_000_000, 99_999_900_001, false), TIMES, CELLS, false),
    ((1_000_000, 102_000, true), TIMES, GREAT_INPUT, false),
    ((1_000_000, 102_000, false), TIMES, GREAT_INPUT, true),
    // all resistors
    ((999_999_000_000, 102_000, true), TIMES, CELLS, true),
    ((999_999_000_001, 102_000, true), TIMES, CELLS, false),
    // times
    (LAST, (MOST, -MOST, MOST), CELLS, true),
    (LAST, (MOST + 1, 0, 0), CELLS, false),
    (LAST, (-MOST - 1, 0, 0), CELLS, false),
    (LAST, (0, MOST + 1, 0), CELLS, false),
    (LAST, (0, -MOST - 1, 0), CELLS, false),
    (LAST, (0, 0, -MOST), CELLS, true),
    (LAST, (0, 0, MOST + 1), CELLS, false),
    (LAST, (0, 0, -MOST - 1), CELLS, false),
    // cells
    (
        LAST,
        TIMES,
        (MOST_R, 2_000, MOST_R, MOST_K, MOST_COST, 255),
        true,
    ),
    (LAST, TIMES, (MOST_R + 1, 2_000, R, 0, 0, 1), false),
    (LAST, TIMES, (0, 2_000, MOST_R + 1, 0, 0, 1), false),
    (LAST, TIMES, (0, 2_000, R, MOST_K + 1, 0, 1), false),
    (LAST, TIMES, (0, 2_000, R, 0, MOST_COST + 1, 1), false),
    (LAST, TIMES, (0, 2_000, R, 0, 0, 256), false),
];

/// The inverter, and so many repeaters behind it.
fn reps_of(alloc: Global, cells: Cells) -> Result<Vec<Rep>, Fail> {
    let (_, cin, r, k, cost, count) = cells;
    let mut reps = vec![in alloc; Rep { r: R, ..INV }]?;
    for _ in 0..count {
        reps.push(Rep {
            cin,
            r,
            k,
            cost,
            ..BUF
        })?;
    }
    Ok(reps)
}

fn is_within(alloc: Global, case: &Case) -> Result<bool, Fail> {
    let ((r, c, free), (k, arrival, required), cells, _) = *case;
    let driver = Driver {
        k,
        r: cells.0,
        arrival,
        ..DRIVER
    };
    let sink = Sink {
        required,
        inverted: true,
    };
    let reps = reps_of(alloc, cells)?;
    let nodes = [ROOT, TRUNK, Node { parent: 1, r, c }];
    let sinks = [None, None, Some(sink)];
    let free = [false, free, false];
    let made = worked_problem(alloc, &nodes, driver, &sinks, &free, reps.as_slice())?;
    Ok(made.is_some())
}

#[test]
fn knows_the_limits_of_problems(rt: HostRuntime) -> Result<(), Fail> {
    for (row, case) in CASES.iter().enumerate() {
        assert!(rt; is_within(rt.alloc(), case)? == case.3, "row {row}");
    }
    Ok(())
}
