//! The top call: from the words to the bytes that are written.

ghost use Rattle.std.specs.Prelude.{◌≡◌, ◌⊎◌, ℕ, List, IsTrue};
ghost use Rattle.vg_store.specs.Causes.{Rose};
ghost use Rattle.vg_words.specs.Request.{texts, IsRequest};
ghost use Rattle.vg_words.specs.declared.ask.Ask.{Ask as Request};
ghost use Rattle.vg_answer.specs.declared.kind.AnswerKind.{AnswerKind as Kind};
ghost use Rattle.vg_run.specs.Complete.{IsComplete};
ghost use Rattle.vg_run.specs.Run.{Answered, AreUntouched, AreRefused, EndsFlawed, ErrorLine, ForRequest, IsExact, IsOutput, Says, TellsRefusedInput, TellsWriteFault, creates_nothing, is_status, prints_nothing};
ghost use Rattle.vginsert_top.specs.Headline.{Certified, Headline, Shown};

use std::alloc::Global;
use vg_run::{fault_status, run_request, tell_words};
use vg_store::{Files, Out};
use vg_words::read_words;

/// Does all that the program does, and answers its status.
///
/// The words are those of the command line without the program's own name. What is asked for is read from `files`,
/// written to `files` where modes `best`, `repair`, `segment` and `total` name outputs, and printed to `out`; a line on
/// `err` tells of everything but a printed answer.
///
/// | status | when |
/// |---|---|
/// | 0 | the report was printed, of all nets that are asked for |
/// | 1 | modes `best`, `repair` and `frontier`: it was printed, and tells of some net that no placement on it is good, or none within the cap, or that its slack is short of the target; mode `total`: it was printed, and tells that no choice of a good placement for each net is within the cap; mode `width`: it was printed, and tells that no placement is good with any of the widths; no net is refused |
/// | 2 | it was printed, and some net is refused; or, in mode `sta`, nets form a cycle, or there is none |
/// | 3 | the words are no request |
/// | 4 | an input is not in its form, or has more than 2^28 bytes; or, in modes `best` and `repair`, and in mode `total` where it names outputs, a name of the design begins with the prefix |
/// | 5 | reading an input failed |
/// | 6 | writing a file or printing failed |
/// | 7 | out of memory |
/// | 8 | mode `check`: it was printed, and tells that the certificate is not in its form or not valid |
///
/// In modes `best` and `repair`, and in mode `total` where it names outputs, the netlist is written first, then the
/// parasitics, then, in mode `best`, the certificate, where it is asked for and the net is not refused, and then the
/// report is printed. A net without a cell keeps its part of both texts. In mode `segment` the parasitics are written, in
/// which a refused net keeps its part, and then the report is printed. Drafts of all files are made before the first file
/// changes. After 3, 4, 5, 7 and 8 no file was created or changed, and after the first four nothing was printed. After
/// 6 no file changed, or those before the one whose writing failed are whole; it and later ones are as they were. A
/// fault of `err` never changes the status. Files that the words do not name as outputs stay.
pub fn run<F: Files, O: Out, E: Out>(
    alloc: Global,
    words: &[String],
    files: &mut F,
    out: &mut O,
    err: &mut E,
) -> u8
    ensures done { result ≡ 0 → Answered Kind.Report (texts words.now) (F.state files.old, F.state files.new)
        (O.state out.old, O.state out.new) }
    ensures none_good { result ≡ 1
        → Answered Kind.NoneGood (texts words.now) (F.state files.old, F.state files.new)
        (O.state out.old, O.state out.new) }
    ensures refused { result ≡ 2 → Answered Kind.Refusal (texts words.now) (F.state files.old, F.state files.new)
        (O.state out.old, O.state out.new) }
    ensures invalid { result ≡ 8 → Answered Kind.Invalid (texts words.now) (F.state files.old, F.state files.new)
        (O.state out.old, O.state out.new) }
    ensures unread { result ≡ 3 → (request : Request) → IsRequest (texts words.now) request → ⊥ }
    ensures no_request { ((request : Request) → IsRequest (texts words.now) request → ⊥) → (result ≡ 3) ⊎ (result ≡ 7) }
    ensures unread_line { result ≡ 3 → AreRefused (texts words.now) (Says (E.state err.old) (E.state err.new)) }
    ensures unreadable { result ≡ 4 → ForRequest (texts words.now)
        (TellsRefusedInput (F.state files.old, F.state files.new) (Says (E.state err.old) (E.state err.new))) }
    ensures read_fault { result ≡ 5
        → EndsFlawed 5 (texts words.now) (F.state files.old, F.state files.new) (E.state err.old, E.state err.new) }
    ensures read_cause { result ≡ 5 → Rose (F.state files.old).read_faults (F.state files.new).read_faults }
    ensures write_fault { result ≡ 6 → ForRequest (texts words.now)
        (TellsWriteFault (F.state files.old, F.state files.new) (O.state out.old, O.state out.new)
        (Says (E.state err.old) (E.state err.new))) }
    ensures statuses { IsTrue (is_status result) }
    ensures nothing_printed { IsTrue (prints_nothing result) → (O.state out.new).written ≡ (O.state out.old).written }
    // Standard error has exactly its line, or a prefix of it after a fault of its own.
    ensures error_line { ErrorLine result (Says (E.state err.old) (E.state err.new))
        ((E.state err.new).written ≡ (E.state err.old).written) }
    ensures nothing_written { IsTrue (creates_nothing result)
        → AreUntouched (F.state files.old, F.state files.new) }
    ensures kept { (file : List ℕ)
        → ((request : Request) → IsRequest (texts words.now) request → IsOutput request file → ⊥)
        → (F.state files.new).holds file ≡ (F.state files.old).holds file }
    // Where nothing failed, the status is exactly the one that the files and the request ask for.
    ensures exact { IsExact (texts words.now) (F.state files.old) result }
    // Where the inputs are in their form and nothing fails, the run answers, or is out of memory.
    ensures complete { IsComplete (texts words.now) (F.state files.old, F.state files.new)
        (O.state out.old, O.state out.new) result }
    // Each reported placement is best, in mode `width` with the widths of wires, and the written files re-time to its
    // slack; each printed frontier is exact, also that of a whole design; the slacks of a whole design are those of its
    // paths; a net whose resistors are cut is read as the cut net, and is no worse.
    ensures headline { (result ≡ 0) ⊎ ((result ≡ 1) ⊎ (result ≡ 2)) → ForRequest (texts words.now)
        (Headline (F.state files.old, F.state files.new) (O.state out.old, O.state out.new)) }
    // A certificate that was asked for is there, and mode `check` finds it valid.
    ensures certified { (result ≡ 0) ⊎ (result ≡ 1) → ForRequest (texts words.now)
        (Certified (F.state files.old, F.state files.new) (O.state out.old, O.state out.new)) }
    // A valid certificate's placement is best, whoever made it.
    ensures shown { result ≡ 0 → ForRequest (texts words.now)
        (Shown (F.state files.old, F.state files.new) (O.state out.old, O.state out.new)) }
{
    match read_words(alloc, words) {
        Ok(ask) => run_request(alloc, &ask, files, out, err),
        Err(fault) => {
            tell_words(err, fault);
            fault_status(fault)
        }
    }
}
