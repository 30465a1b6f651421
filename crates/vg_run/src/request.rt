//! A request, from the inputs that are read to the bytes that are written.

ghost use Rattle.std.specs.Prelude.{◌≡◌, ℕ, List, map, OnErr, OnOk};
ghost use Rattle.std.specs.List.{AllPass};
ghost use Rattle.vg_scan.specs.Printed.{is_solid};
ghost use Rattle.vg_store.specs.Causes.{HasCause};
ghost use Rattle.vg_store.specs.Writing.{Gains, GainsPrefix};
ghost use Rattle.vg_words.specs.Request.{prefix_of};
ghost use Rattle.vg_answer.specs.Answers.{written_by};
ghost use Rattle.vg_run.specs.Outcomes.{Ends, IsDelivered, IsPrinted, IsStatusOf, fault_status};
ghost use Rattle.vg_run.specs.Run.{AreApart, AreApartIn, IsOutput, IsSized, OthersStay};

use crate::inputs::{Flaw, read_inputs};
use crate::modes::answer;
use crate::outcome::Outcome;
use crate::publish::write_files;
use crate::tell::tell;
use std::alloc::Global;
use vg_answer::{Answer, NoAnswer};
use vg_store::{Failed, Files, Out, ReadAll, put_all};
use vg_words::{Ask, WordFault};

/// Writes a text to an output, and hands it on to the system for good.
fn put_whole<O: Out>(out: &mut O, text: &[u8]) -> Result<(), Failed>
    ensures all { OnOk result (Gains (O.state out.old) (O.state out.new) text.now) }
    ensures prefix { OnErr result (GainsPrefix (O.state out.old) (O.state out.new) text.now) }
    ensures cause { HasCause (O.state out.old).faults (O.state out.new).faults result }
{
    put_all(out, text)?;
    out.finish()?;
    Ok(())
}

/// Prints a text, which makes the outcome that is given.
fn print<O: Out>(out: &mut O, text: &[u8], outcome: Outcome) -> Outcome
    ensures { IsPrinted (O.state out.old, O.state out.new) text.now outcome result }
{
    match put_whole(out, text) {
        Ok(()) => outcome,
        Err(Failed) => Outcome::WriteFault,
    }
}

/// Writes the files of an answer, and then prints its text.
fn deliver<F: Files, O: Out>(ask: &Ask, answer: &Answer, files: &mut F, out: &mut O) -> Outcome
    requires apart { AreApartIn ask.now (map written_by answer.now.files.items) }
    ensures delivered { IsDelivered ask.now (F.state files.old, F.state files.new)
        (O.state out.old, O.state out.new) answer.now result }
    ensures others { OthersStay (F.state files.old, F.state files.new) ask.now (map written_by answer.now.files.items) }
{
    if let Err(output) = write_files(ask, &answer.files, files) {
        return Outcome::Unwritten(output);
    }
    print(out, &answer.text, Outcome::Printed(answer.kind))
}

/// Reads the inputs of a request, judges them, writes files and prints what there is to say.
fn execute<F: Files, O: Out>(alloc: Global, ask: &Ask, files: &mut F, out: &mut O) -> Outcome
    requires apart { AreApart ask.now }
    requires prefix { AllPass is_solid (prefix_of ask.now) }
    requires size { IsSized ask.now }
    ensures ends { Ends ask.now (F.state files.old, F.state files.new) (O.state out.old, O.state out.new) result }
    ensures kept { (file : List ℕ) → (IsOutput ask.now file → ⊥)
        → (F.state files.new).holds file ≡ (F.state files.old).holds file }
{
    let texts = match read_inputs(alloc, ask, files) {
        Ok(texts) => texts,
        Err((input, ReadAll::Failed)) => return Outcome::Flawed(input, Flaw::Failed),
        Err((input, ReadAll::TooLong)) => return Outcome::Flawed(input, Flaw::TooLong),
        Err((_, ReadAll::Memory)) => return Outcome::Memory,
    };
    match answer(alloc, texts, ask) {
        Ok(answer) => deliver(ask, &answer, files, out),
        Err(NoAnswer::Faulty(input, line)) => Outcome::Flawed(input, Flaw::Faulty(line)),
        Err(NoAnswer::Taken(name)) => Outcome::Taken(name),
        Err(NoAnswer::Memory) => Outcome::Memory,
    }
}

/// The status where the words ask for nothing.
pub fn fault_status(fault: WordFault) -> u8
    ensures { result ≡ fault_status fault }
{
    match fault {
        WordFault::Memory => 7,
        _ => 3,
    }
}

/// Does what a request asks, tells standard error how that ended, and answers the status.
pub fn run_request<F: Files, O: Out, E: Out>(
    alloc: Global,
    ask: &Ask,
    files: &mut F,
    out: &mut O,
    err: &mut E,
) -> u8
    requires apart { AreApart ask.now }
    requires prefix { AllPass is_solid (prefix_of ask.now) }
    requires size { IsSized ask.now }
    ensures ends { IsStatusOf ask.now (F.state files.old, F.state files.new) (O.state out.old, O.state out.new)
        (E.state err.old, E.state err.new) result }
    ensures kept { (file : List ℕ) → (IsOutput ask.now file → ⊥)
        → (F.state files.new).holds file ≡ (F.state files.old).holds file }
{
    let outcome = execute(alloc, ask, files, out);
    tell(err, ask, &outcome);
    outcome.status()
}
