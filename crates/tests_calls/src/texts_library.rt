//! The statements of a library, which pins it names as related, and faults of its syntax as text.

use lib_linear::{Library, checked_text, read_library, related};
use lib_text::{Form, Statement, statements_of};
use std::alloc::Global;
use std::test::Fail;
use vg_scan::{Span, text_at};

const CELLS: &str = "library (l) {
  time_unit : \"1ns\" ;
  cell (A) { area : 2 }
  define (a, b);
  cell (B) {
    pin (\"C\", D) { capacitance : 1; }
    area : 3;
  }
}
";

/// The statements of the text above: how the group around each begins, its form, its name, and its value or arguments.
static SAID: [(&str, Form, &str, &str); 9] = [
    ("library", Form::Group, "library", "l"),
    ("library", Form::Simple, "time_unit", "\"1ns\" "),
    ("library", Form::Group, "cell", "A"),
    ("cell (A)", Form::Simple, "area", "2 "),
    ("library", Form::Complex, "define", "a, b"),
    ("library", Form::Group, "cell", "B"),
    ("cell (B)", Form::Group, "pin", "\"C\", D"),
    ("pin", Form::Simple, "capacitance", "1"),
    ("cell (B)", Form::Simple, "area", "3"),
];

/// Whether the text above goes on so at a place.
fn goes_on(place: u32, wanted: &str) -> bool {
    let bytes = CELLS.as_bytes();
    bytes[(place as usize).min(bytes.len())..].starts_with(wanted.as_bytes())
}

/// Whether a statement of the text above is this.
fn says(statement: Statement, wanted: &(&str, Form, &str, &str)) -> bool {
    let content = Span {
        from: statement.from as usize,
        to: statement.to as usize,
    };
    goes_on(statement.group, wanted.0)
        && statement.form == wanted.1
        && goes_on(statement.name, wanted.2)
        && text_at(CELLS.as_bytes(), content) == wanted.3.as_bytes()
}

#[test]
fn found_statements(rt: HostRuntime) -> Result<(), Fail> {
    let found = statements_of(rt.alloc(), CELLS.as_bytes())?;
    assert!(rt; found.len() == SAID.len());
    for (statement, wanted) in found.iter().zip(&SAID) {
        assert!(rt; says(*statement, wanted), "{}", wanted.2);
    }
    Ok(())
}

/// The first fault of a library's syntax as it is printed, or how many bytes its text has.
fn told(alloc: Global, bytes: &[u8]) -> Result<String, Fail> {
    match checked_text(alloc, bytes) {
        Ok(text) => Ok(format!(in alloc; "{}", text.len())?),
        Err(fault) => Ok(format!(in alloc; "{fault}")?),
    }
}

static CHECKED: [(&str, &str); 4] = [
    ("library (l) {\n}\n", "16"),
    (
        "library (l) {\n a\n}\n",
        "line 3: not the syntax of a library",
    ),
    ("/*\n*/", "line 2: not the syntax of a library"),
    ("", "line 1: not the syntax of a library"),
];

#[test]
fn checked_texts(rt: HostRuntime) -> Result<(), Fail> {
    for (text, wanted) in &CHECKED {
        let found = told(rt.alloc(), text.as_bytes())?;
        assert!(rt; found.as_str() == *wanted, "{text}");
    }
    Ok(())
}

/// A cell whose pins name others as related.
const SOLD: &str = "library (l) {
  capacitive_load_unit (1, pf);
  cell (NAND) {
    pin (A, B) { direction : input; capacitance : 0.0025; }
    pin (Y) { direction : output;
      timing () { related_pin : \"A B\"; }
      timing () { related_pin : \"B  C\"; }
    }
    pin (Z) { direction : input; timing () { related_pin : A; } }
    bus (C) { pin (C0) { timing () { related_pin : A; } } }
  }
  cell (INV) {
    pin (Y) { direction : output; timing () { related_pin : A; } }
  }
}
";

/// Cells, pins, and how many pins the text above names as related.
static RELATED: [(&str, &str, usize); 8] = [
    ("NAND", "A", 0),
    ("NAND", "B", 0),
    ("NAND", "Y", 3),
    ("NAND", "Z", 0),
    ("NAND", "C0", 0),
    ("INV", "Y", 1),
    ("INV", "B", 0),
    ("OR", "A", 0),
];

/// The library of the text above.
fn sold(alloc: Global) -> Result<Library, Fail> {
    match read_library(alloc, SOLD.as_bytes()) {
        Ok(library) => Ok(library),
        Err(_) => Err("no library".into()),
    }
}

/// How many pins are related to each of the pins above.
fn counts(alloc: Global) -> Result<Vec<usize>, Fail> {
    let library = sold(alloc)?;
    let mut counts = Vec::new(alloc);
    for (cell, pin, _) in &RELATED {
        let names = related(&library, cell.as_bytes(), pin.as_bytes());
        counts.push(names.map_or(0, |names| names.len()))?;
    }
    Ok(counts)
}

#[test]
fn related_pins(rt: HostRuntime) -> Result<(), Fail> {
    let counts = counts(rt.alloc())?;
    for ((cell, pin, wanted), found) in RELATED.iter().zip(counts.iter()) {
        assert!(rt; found == wanted, "{cell} {pin}");
    }
    Ok(())
}
