//! What is told on standard error.
ghost use Rattle.std.specs.Prelude.{◌≡◌, ◌++◌, OnOk, OnErr};
ghost use Rattle.vg_store.specs.Causes.{HasCause};
ghost use Rattle.vg_store.specs.Writing.{Gains, GainsPrefix};
ghost use Rattle.vg_run.specs.Inputs.{name_of};
ghost use Rattle.vg_run.specs.Outcomes.{Tells, in_five};
ghost use Rattle.vg_run.specs.Run.{Says, flaw_line, refused_line, taken_line, write_failed_line};

use crate::inputs::{Flaw, name_of};
use crate::outcome::Outcome;
use crate::outputs::output_text;
use vg_store::{Failed, Out, put_all};
use vg_words::{Ask, WordFault};

/// Writes three pieces to an output, one after another, until a fault.
fn put_three<E: Out>(err: &mut E, front: &[u8], name: &[u8], back: &[u8]) -> Result<(), Failed>
    ensures all { OnOk result (Gains (E.state err.old) (E.state err.new) (front.now ++ (name.now ++ back.now))) }
    ensures prefix { OnErr result
        (GainsPrefix (E.state err.old) (E.state err.new) (front.now ++ (name.now ++ back.now))) }
    ensures cause { HasCause (E.state err.old).faults (E.state err.new).faults result }
{
    put_all(err, front)?;
    put_all(err, name)?;
    put_all(err, back)?;
    Ok(())
}

/// Writes five pieces.
fn put_five<E: Out>(
    err: &mut E,
    front: &[u8],
    name: &[u8],
    middle: &[u8],
    kind: &[u8],
    back: &[u8],
) -> Result<(), Failed>
    ensures all { OnOk result
        (Gains (E.state err.old) (E.state err.new) (in_five front.now name.now middle.now kind.now back.now)) }
    ensures prefix { OnErr result
        (GainsPrefix (E.state err.old) (E.state err.new) (in_five front.now name.now middle.now kind.now back.now)) }
    ensures cause { HasCause (E.state err.old).faults (E.state err.new).faults result }
{
    put_three(err, front, name, middle)?;
    put_three(err, kind, back, b"")?;
    Ok(())
}

/// Writes a line to standard error in pieces, as far as it takes it.
fn say<E: Out>(err: &mut E, front: &[u8], name: &[u8], middle: &[u8], kind: &[u8], back: &[u8])
    ensures { Says (E.state err.old) (E.state err.new) (in_five front.now name.now middle.now kind.now back.now) }
{
    let _ = put_five(err, front, name, middle, kind, back);
}

/// Writes a fixed line to standard error.
fn say_line<E: Out>(err: &mut E, line: &[u8])
    ensures { Says (E.state err.old) (E.state err.new) line.now }
{
    let _ = put_all(err, line);
}

/// Tells standard error of the flaw of the file of this name.
fn tell_flaw<E: Out>(err: &mut E, name: &str, flaw: &Flaw)
    ensures { Says (E.state err.old) (E.state err.new) (flaw_line name.now flaw.now) }
{
    let front = b"vginsert: ".as_slice();
    let name = name.as_bytes();
    match flaw {
        Flaw::Failed => say(err, b"vginsert: read failed: ", name, b"\n", b"", b""),
        Flaw::TooLong => say(err, front, name, b": ", b"TooLong", b"\n"),
        Flaw::Faulty(line) => say(err, front, name, b": ", line.as_slice(), b"\n"),
    }
}

/// Tells standard error of a name that begins with the prefix.
fn tell_taken<E: Out>(err: &mut E, name: &[u8])
    ensures { Says (E.state err.old) (E.state err.new) (taken_line name.now) }
{
    say(err, b"vginsert: prefix taken: ", name, b"\n", b"", b"");
}

/// Tells standard error of the file of this name, which could not be written.
fn tell_unwritten<E: Out>(err: &mut E, name: &str)
    ensures { Says (E.state err.old) (E.state err.new) (write_failed_line name.now) }
{
    let name = name.as_bytes();
    say(err, b"vginsert: write failed: ", name, b"\n", b"", b"");
}

/// Tells standard error how a request ended.
pub fn tell<E: Out>(err: &mut E, ask: &Ask, outcome: &Outcome)
    ensures { Tells ask.now (E.state err.old, E.state err.new) outcome.now }
{
    match outcome {
        Outcome::Printed(_) => {}
        Outcome::Flawed(input, flaw) => tell_flaw(err, name_of(ask, *input), flaw),
        Outcome::Taken(name) => tell_taken(err, name.as_bytes()),
        Outcome::Unwritten(output) => tell_unwritten(err, output_text(ask, *output)),
        Outcome::WriteFault => say_line(err, b"vginsert: write failed: standard output\n"),
        Outcome::Memory => say_line(err, b"vginsert: out of memory\n"),
    }
}

/// Tells standard error why the words ask for nothing.
pub fn tell_words<E: Out>(err: &mut E, fault: WordFault)
    ensures { Says (E.state err.old) (E.state err.new) (refused_line fault) }
{
    match fault {
        WordFault::Unread => say_line(err, b"vginsert: words refused\n"),
        WordFault::Missing(option) => {
            let front = b"vginsert: words refused: missing option ";
            say(err, front, option.name().as_bytes(), b"\n", b"", b"");
        }
        WordFault::Excluded(option) => {
            let front = b"vginsert: words refused: excluded option ";
            say(err, front, option.name().as_bytes(), b"\n", b"", b"");
        }
        WordFault::BadValue(option) => {
            let front = b"vginsert: words refused: bad value ";
            say(err, front, option.name().as_bytes(), b"\n", b"", b"");
        }
        WordFault::Equal(one, other) => {
            let front = b"vginsert: words refused: equal names ";
            let (one, other) = (one.name().as_bytes(), other.name().as_bytes());
            say(err, front, one, b" ", other, b"\n");
        }
        WordFault::Memory => say_line(err, b"vginsert: out of memory\n"),
    }
}
