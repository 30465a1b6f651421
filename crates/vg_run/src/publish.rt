//! The files of an answer, which change only once drafts of all of them are whole.

ghost use Rattle.std.specs.Prelude.{◌≡◌, ◌≤◌, ◌<◌, [], length, false, Contains, Some, map, IfErr, IsSome, OnErr, OnOk};
ghost use Rattle.vg_store.specs.States.{first_name};
ghost use Rattle.vg_store.specs.Writing.{FilesStay, WriteFaultAt};
ghost use Rattle.vg_answer.specs.Answers.{written_by};
ghost use Rattle.vg_answer.specs.NewTexts.{text_of};
ghost use Rattle.vg_run.specs.Drafts.{AreDrafts, PublishesFor, WaitsFor};
ghost use Rattle.vg_run.specs.Run.{AreApartIn, AreHeld, AreWritten, FailsAt, HoldAfter, OthersStay, output_name};

use crate::outputs::output_name;
use crate::write::draft_text;
use vg_answer::{NewFile, NewText, Output};
use vg_store::{Failed, Files};
use vg_words::Ask;

/// Makes a draft of the file that the words name for an output, if they name one.
fn draft_output<F: Files>(
    ask: &Ask,
    output: Output,
    text: &NewText,
    files: &mut F,
) -> Result<(), Failed>
    requires shut { (F.state files.old).writing ≡ false }
    ensures drafted { OnOk result
        (WaitsFor (F.state files.old, F.state files.new) (output_name ask.now output) (text_of text.now)) }
    ensures shut { OnOk result ((F.state files.new).writing ≡ false) }
    ensures kept { FilesStay (F.state files.old) (F.state files.new) }
    ensures failed { OnErr result (FailsAt (F.state files.old, F.state files.new) ask.now output) }
    ensures never_falls { (F.state files.old).write_faults ≤ (F.state files.new).write_faults }
{
    match output_name(ask, output) {
        None => Ok(()),
        Some(name) => draft_text(files, name, text),
    }
}

/// Makes drafts of the files of an answer, in order. An error tells at which of them that failed. No file changes.
fn draft_files<F: Files>(ask: &Ask, written: &[NewFile], files: &mut F) -> Result<(), Output>
    requires none_waits { (F.state files.old).drafts ≡ [] }
    requires shut { (F.state files.old).writing ≡ false }
    ensures drafted { OnOk result
        (AreDrafts (F.state files.new) ask.now (map written_by written.now) (F.state files.new).drafts) }
    ensures shut { OnOk result ((F.state files.new).writing ≡ false) }
    ensures kept { FilesStay (F.state files.old) (F.state files.new) }
    ensures one_of { IfErr result (Contains (map (λ w. w.output) (map written_by written.now))) }
    ensures cause { IfErr result (FailsAt (F.state files.old, F.state files.new) ask.now) }
    ensures never_falls { (F.state files.old).write_faults ≤ (F.state files.new).write_faults }
{
    'file: for file in written {
        let Ok(()) = draft_output(ask, file.output, &file.text, files) else {
            return Err(file.output);
        };
    }
    Ok(())
}

/// Publishes the oldest draft, if the words name a file for an output.
fn publish_output<F: Files>(ask: &Ask, output: Output, files: &mut F) -> Result<(), Failed>
    requires shut { (F.state files.old).writing ≡ false }
    requires one_waits { IsSome (output_name ask.now output) → 0 < length (F.state files.old).drafts }
    ensures published { OnOk result
        (PublishesFor (F.state files.old, F.state files.new) (output_name ask.now output)) }
    ensures shut { (F.state files.new).writing ≡ false }
    ensures named { OnErr result (IsSome (output_name ask.now output)) }
    ensures kept { OnErr result (FilesStay (F.state files.old) (F.state files.new)) }
    ensures failed { OnErr result (WriteFaultAt (F.state files.old) (F.state files.new)
        (λ blamed. first_name (F.state files.old).drafts ≡ Some blamed)) }
    ensures never_falls { (F.state files.old).write_faults ≤ (F.state files.new).write_faults }
{
    match output_name(ask, output) {
        None => Ok(()),
        Some(_) => files.publish(),
    }
}

/// Publishes the drafts of the files of an answer, in order. An error tells at which of them that failed.
fn publish_files<F: Files>(ask: &Ask, written: &[NewFile], files: &mut F) -> Result<(), Output>
    requires apart { AreApartIn ask.now (map written_by written.now) }
    requires drafted { AreDrafts (F.state files.old) ask.now (map written_by written.now) (F.state files.old).drafts }
    requires shut { (F.state files.old).writing ≡ false }
    ensures held { OnOk result
        (AreHeld (F.state files.old, F.state files.new) ask.now (map written_by written.now)) }
    ensures failed { IfErr result
        (HoldAfter (F.state files.old, F.state files.new) ask.now (map written_by written.now)) }
    ensures cause { IfErr result (FailsAt (F.state files.old, F.state files.new) ask.now) }
    ensures others { OthersStay (F.state files.old, F.state files.new) ask.now (map written_by written.now) }
    ensures never_falls { (F.state files.old).write_faults ≤ (F.state files.new).write_faults }
{
    'file: for file in written {
        let Ok(()) = publish_output(ask, file.output, files) else {
            return Err(file.output);
        };
    }
    Ok(())
}

/// Writes the files of an answer: makes drafts of all of them, and only then publishes these in order. An error tells
/// at which of them writing failed. Where that was at a draft, no file changed; where it was at a file that is
/// published, this one and those behind it did not.
pub(crate) fn write_files<F: Files>(
    ask: &Ask,
    written: &[NewFile],
    files: &mut F,
) -> Result<(), Output>
    requires apart { AreApartIn ask.now (map written_by written.now) }
    ensures written { OnOk result
        (AreWritten (F.state files.old, F.state files.new) ask.now (map written_by written.now)) }
    ensures failed { IfErr result
        (HoldAfter (F.state files.old, F.state files.new) ask.now (map written_by written.now)) }
    ensures cause { IfErr result (FailsAt (F.state files.old, F.state files.new) ask.now) }
    ensures others { OthersStay (F.state files.old, F.state files.new) ask.now (map written_by written.now) }
{
    if written.is_empty() {
        return Ok(());
    }
    files.discard();
    if let Err(output) = draft_files(ask, written, files) {
        files.discard();
        return Err(output);
    }
    publish_files(ask, written, files)
}
