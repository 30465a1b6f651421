//! Numbers of texts, what is printed of them, and rows and texts that are kept.
use std::alloc::Global;
use std::test::Fail;
use vg_num::{
    NumFault, Row, Text, print_scaled, print_signed, read_scaled, read_signed, read_whole,
};

/// A text, the decimal places that are kept, and the number.
static SCALED: [(&[u8], i32, Result<u64, NumFault>); 22] = [
    (b"0.0005", 3, Ok(1)),
    (b"0.00049", 3, Ok(0)),
    (b"1e-3", 6, Ok(1000)),
    (b"-0", 3, Ok(0)),
    (b"+.5e1", 0, Ok(5)),
    (b"1.", 3, Ok(1000)),
    (b"0e99999999999", 0, Ok(0)),
    (b"1e15", 0, Ok(1_000_000_000_000_000)),
    (b"-0.0001", 3, Err(NumFault::Negative)),
    (b"1000000000000000.5", 0, Err(NumFault::TooLarge)),
    (b"1000000000000000.4", 0, Ok(1_000_000_000_000_000)),
    (b"1e999999999999", 0, Err(NumFault::TooLarge)),
    (b"1e-999999999999999999999999999999999999999999", 60, Ok(0)),
    (b".", 0, Err(NumFault::Form)),
    (b"", 0, Err(NumFault::Form)),
    (b"1e", 0, Err(NumFault::Form)),
    (b"1e+", 0, Err(NumFault::Form)),
    (b"1.2.3", 0, Err(NumFault::Form)),
    (b"-1:2", 0, Err(NumFault::Form)),
    (b"1 ", 0, Err(NumFault::Form)),
    (b"2.5", 0, Ok(3)),
    (b"25E1", -2, Ok(3)),
];

#[test]
fn reads_the_nearest_whole_number(rt: HostRuntime) {
    for (text, places, want) in &SCALED {
        assert!(rt; read_scaled(text, *places) == *want, "{text:?}");
    }
}

/// A text, the decimal places that are kept, and the number.
static SIGNED: [(&[u8], i32, Result<i128, NumFault>); 10] = [
    (b"-1.5", 0, Ok(-2)),
    (b"-0.4", 0, Ok(0)),
    (b"+2.5e-1", 2, Ok(25)),
    (b"-116.0", 9, Ok(-116_000_000_000)),
    (b"1e23", 0, Ok(100_000_000_000_000_000_000_000)),
    (b"-1e23", 0, Ok(-100_000_000_000_000_000_000_000)),
    (
        b"-100000000000000000000000.4",
        0,
        Ok(-100_000_000_000_000_000_000_000),
    ),
    (
        b"-1.000000000000000000000005e23",
        0,
        Err(NumFault::TooLarge),
    ),
    (b"1.00000000000000000000001e23", 0, Err(NumFault::TooLarge)),
    (b".", 0, Err(NumFault::Form)),
];

#[test]
fn reads_the_nearest_signed_number(rt: HostRuntime) {
    for (text, places, want) in &SIGNED {
        assert!(rt; read_signed(text, *places) == *want, "{text:?}");
    }
}

static WHOLE: [(&[u8], Result<i128, NumFault>); 9] = [
    (b"-0", Ok(0)),
    (b"-42", Ok(-42)),
    (
        b"00100000000000000000000000000",
        Ok(100_000_000_000_000_000_000_000_000),
    ),
    (b"-100000000000000000000000001", Err(NumFault::TooLarge)),
    (b"", Err(NumFault::Form)),
    (b"-", Err(NumFault::Form)),
    (b"+1", Err(NumFault::Form)),
    (b"1.", Err(NumFault::Form)),
    (b"1e2", Err(NumFault::Form)),
];

#[test]
fn reads_whole_numbers(rt: HostRuntime) {
    for (text, want) in &WHOLE {
        assert!(rt; read_whole(text) == *want, "{text:?}");
    }
}

/// A number, its decimal places, and what is printed.
static PRINTED: [(u64, u32, &[u8]); 7] = [
    (100_000, 3, b"n 100"),
    (1, 3, b"n 0.001"),
    (1500, 3, b"n 1.5"),
    (0, 9, b"n 0"),
    (10, 0, b"n 10"),
    (u64::MAX, 0, b"n 18446744073709551615"),
    (u64::MAX, 9, b"n 18446744073.709551615"),
];

/// Whether this is printed behind what the text already holds.
fn prints(alloc: Global, n: u64, places: u32, want: &[u8]) -> Result<bool, Fail> {
    if places > 9 {
        return Err("too many places".into());
    }
    let mut text = Vec::from_slice(alloc, b"n ")?;
    print_scaled(n, places, &mut text)?;
    Ok(text.as_slice() == want)
}

#[test]
fn prints_scaled_numbers(rt: HostRuntime) -> Result<(), Fail> {
    for (n, places, want) in &PRINTED {
        assert!(rt; prints(rt.alloc(), *n, *places, want)?, "{n} {places}");
    }
    Ok(())
}

/// The numbers, printed one behind the other.
fn printed(alloc: Global, numbers: &[i128]) -> Result<Vec<u8>, Fail> {
    let mut text = Vec::new(alloc);
    for n in numbers {
        print_signed(*n, &mut text)?;
        text.push(b' ')?;
    }
    Ok(text)
}

#[test]
fn prints_whole_numbers(rt: HostRuntime) -> Result<(), Fail> {
    let text = printed(rt.alloc(), &[0, 7, -116_000_000_000, i128::MAX, i128::MIN])?;
    let want =
        b"0 7 -116000000000 170141183460469231731687303715884105727 -170141183460469231731687303715884105728 ";
    assert!(rt; text.as_slice() == want.as_slice());
    Ok(())
}

fn keeps_row(alloc: Global) -> Result<bool, Fail> {
    let items = [3u8, 1, 2];
    let row = Row::from_vec(Vec::from_slice(alloc, &items)?);
    Ok(row.len() == 3 && !row.is_empty() && row.as_slice() == items.as_slice())
}

fn gives_row_back(alloc: Global) -> Result<bool, Fail> {
    let items = [3u8, 1, 2];
    let row = Row::from_vec(Vec::from_slice(alloc, &items)?);
    Ok(row.into_vec().as_slice() == items.as_slice())
}

fn keeps_text(alloc: Global) -> Result<bool, Fail> {
    let text = Text::from_string(String::from_str(alloc, "a.spef")?);
    Ok(text.as_str() == "a.spef")
}

#[test]
fn keeps_rows_and_texts(rt: HostRuntime) -> Result<(), Fail> {
    assert!(rt; keeps_row(rt.alloc())?);
    assert!(rt; gives_row_back(rt.alloc())?);
    assert!(rt; keeps_text(rt.alloc())?);
    Ok(())
}
