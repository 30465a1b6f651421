//! The options of the program, and the words that name them.

use crate::files::words_of;
use std::alloc::Global;
use std::test::Fail;
use vg_words::{Ask, Mode, Opt, options, read_words};

#[test]
fn lists_options_in_order(rt: HostRuntime) -> Result<(), Fail> {
    let names = [
        "--mode",
        "--spef",
        "--lib",
        "--verilog",
        "--cons",
        "--net",
        "--all",
        "--out-spef",
        "--out-verilog",
        "--cert",
        "--cap",
        "--prefix",
        "--size",
        "--parts",
        "--target",
        "--widths",
    ];
    let found = options().iter().map(|option| option.name());
    assert!(rt; found.eq(names.iter().copied()));
    Ok(())
}

/// Words of mode `best` for one net, with each option that it may be given.
const BEST: &str =
    "--mode best --spef a --lib=l --verilog v --cons c --net=--all --out-spef=-o --out-verilog w --cert k --prefix w_";

/// Words of mode `frontier` for all nets, with a cap.
const FRONTIER: &str = "--all --cap 7 --mode=frontier --spef a --lib l --verilog v --cons c";

/// What is read of words.
fn asked(alloc: Global, line: &str) -> Result<Ask, Fail> {
    let words = words_of(alloc, line)?;
    match read_words(alloc, &words) {
        Ok(ask) => Ok(ask),
        Err(_) => Err("the words are refused".into()),
    }
}

/// Options of mode `best`, and their values.
static VALUES: [(Opt, &str); 9] = [
    (Opt::Spef, "a"),
    (Opt::Lib, "l"),
    (Opt::Verilog, "v"),
    (Opt::Cons, "c"),
    (Opt::Net, "--all"),
    (Opt::OutVerilog, "w"),
    (Opt::Cert, "k"),
    (Opt::All, ""),
    (Opt::Size, ""),
];

/// Whether words of mode `best` ask for this value of an option.
fn asks_best(alloc: Global, option: Opt, value: &str) -> Result<bool, Fail> {
    let ask = asked(alloc, BEST)?;
    Ok(ask.text(option) == value && ask.prefix() == "w_" && ask.mode == Mode::Best && !ask.all)
}

/// Whether words of mode `frontier` ask for all nets and for their cap.
fn asks_frontier(alloc: Global) -> Result<bool, Fail> {
    let ask = asked(alloc, FRONTIER)?;
    Ok(
        ask.all
            && ask.cap() == Some(7)
            && ask.mode == Mode::Frontier
            && ask.net.is_none()
            && ask.prefix() == "vgi_",
    )
}

/// Whether words of mode `gen` ask for their size.
fn asks_size(alloc: Global) -> Result<bool, Fail> {
    let ask = asked(alloc, "--mode gen --size=0120")?;
    Ok(ask.size() == 120 && ask.mode == Mode::Gen && ask.cap().is_none())
}

/// Whether words of mode `segment` ask for their parts.
fn asks_parts(alloc: Global) -> Result<bool, Fail> {
    let ask = asked(
        alloc,
        "--mode segment --spef s --all --out-spef=o --parts 08",
    )?;
    Ok(ask.parts() == 8 && ask.mode == Mode::Segment && ask.all && ask.size() == 0)
}

/// Words of mode `repair` with a target, with a negative one and without one, and the slack (zs) that is enough.
static TARGETS: [(&str, i128); 3] = [
    (
        "--mode repair --spef a --lib l --verilog v --cons c --all --out-spef o --out-verilog w --target 1.5 --cap 9",
        1_500_000_000,
    ),
    (
        "--target=-100 --cap=9 --mode=repair --spef a --lib l --verilog v --cons c --all --out-spef=o --out-verilog=w",
        -100_000_000_000,
    ),
    (
        "--mode repair --spef a --lib l --verilog v --cons c --all --out-spef o --out-verilog w --cap 9",
        0,
    ),
];

/// Whether words of mode `repair` ask for this slack (zs).
fn asks_target(alloc: Global, line: &str, target: i128) -> Result<bool, Fail> {
    let ask = asked(alloc, line)?;
    Ok(ask.target() == target && ask.mode == Mode::Repair && ask.all && ask.cap() == Some(9))
}

#[test]
fn reads_each_option(rt: HostRuntime) -> Result<(), Fail> {
    for (option, value) in &VALUES {
        assert!(rt; asks_best(rt.alloc(), *option, value)?, "{value}");
    }
    assert!(rt; asks_frontier(rt.alloc())?);
    assert!(rt; asks_size(rt.alloc())?);
    assert!(rt; asks_parts(rt.alloc())?);
    for (line, target) in &TARGETS {
        assert!(rt; asks_target(rt.alloc(), line, *target)?, "{line}");
    }
    Ok(())
}
