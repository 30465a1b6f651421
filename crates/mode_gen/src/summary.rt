//! The summary of a made-up design, as text.

ghost use Rattle.std.specs.Prelude.{◌≡◌, ◌++◌, ◌≤◌, OnOk, IfOk, IfErr};
ghost use Rattle.vg_design.specs.Nets.{IsRefused};
ghost use Rattle.vg_report.specs.Reports.{entries_text, found_text, gen_line, place_count};
ghost use Rattle.vg_answer.specs.Answers.{AnswersBy, NoneTaken, texts_in};
ghost use Rattle.vg_answer.specs.Faults.{IsDesignFault};
ghost use Rattle.mode_gen.specs.Answers.{IsGenAnswer, made_net, made_up};
ghost use Rattle.mode_gen.specs.Steps.{IsNetOf, SumsUpNet};

use elmore::Problem;
use spef_wire::Refused;
use std::alloc::Global;
use vg_answer::{
    Answer, AnswerKind, DesignTexts, InputText, NoAnswer, answer_text, design_in, refuse,
};
use vg_design::{Design, PosedNet, Timed, posed_net, time_net};
use vg_gen::generate;
use vg_num::{Memory, print_signed};
use vg_report::{count_cells, push};
use vg_scan::Name;
use vg_slack::{Best, Room};
use vg_verdict::{search, summed_up};

/// The name of the net of a made-up design.
const NET: &[u8] = b"g";

/// How many nodes are places.
fn count_places(problem: &Problem) -> usize
    ensures { result ≡ place_count problem.now.places }
{
    let places = problem.places.as_slice().iter();
    places.filter(|is_place| **is_place).count()
}

/// Appends the slack of a best placement (zs), or `none`, and its cells.
fn print_found(found: &Option<Best>, to: &mut Vec<u8>) -> Result<(), Memory>
    ensures { OnOk result (to.new.items ≡ to.old.items ++ found_text found.now) }
{
    match found {
        Some(best) => {
            print_signed(best.slack, to)?;
            push(b" cells ", to)?;
            print_signed(count_cells(&best.placement) as i128, to)?;
        }
        None => push(b"none cells 0", to)?,
    }
    Ok(())
}

/// Appends ` entries E certificate valid` and the line's end.
fn print_entries(entries: usize, to: &mut Vec<u8>) -> Result<(), Memory>
    ensures { OnOk result (to.new.items ≡ to.old.items ++ entries_text entries) }
{
    push(b" entries ", to)?;
    print_signed(entries as i128, to)?;
    push(b" certificate valid\n", to)?;
    Ok(())
}

/// Appends `gen places N bare B best S cells M entries E certificate valid`, with B and S in zeptoseconds.
fn print_summary(
    places: usize,
    bare: i128,
    found: &Option<Best>,
    entries: usize,
    to: &mut Vec<u8>,
) -> Result<(), Memory>
    ensures { OnOk result (to.new.items ≡ to.old.items ++ gen_line places bare found.now entries) }
{
    push(b"gen places ", to)?;
    print_signed(places as i128, to)?;
    push(b" bare ", to)?;
    print_signed(bare, to)?;
    push(b" best ", to)?;
    print_found(found, to)?;
    print_entries(entries, to)?;
    Ok(())
}

/// The summary of a posed net that has this timing without a cell: a best placement of it, whose certificate is made
/// and checked.
fn sum_up(alloc: Global, timed: &Timed, net: &PosedNet) -> Result<Answer, Memory>
    ensures { IfOk result (SumsUpNet timed.now net.now) }
{
    let mut room = Room::new(alloc);
    let answer = search(alloc, &mut room, &net.problem, true)?;
    let summed = summed_up(alloc, &net.problem, answer)?;
    let mut text = Vec::new(alloc);
    let places = count_places(&net.problem);
    print_summary(
        places,
        timed.slack,
        &summed.found,
        summed.entries,
        &mut text,
    )?;
    Ok(answer_text(alloc, AnswerKind::Report, text))
}

/// The net of a made-up design, and its timing without a cell.
fn net_of(alloc: Global, design: &Design) -> Result<(Timed, PosedNet), Refused>
    ensures net { IfOk result (IsNetOf design.now) }
    ensures refused { IfErr result (IsRefused design.now made_net) }
{
    let net = Name::from_bytes(alloc, NET)?;
    let timed = time_net(alloc, design, &net)?;
    let posed = posed_net(alloc, design, &net)?;
    Ok((timed, posed))
}

/// The texts of the made-up design of a size. Answers `Memory` where there is no room for them.
fn made_texts(alloc: Global, size: u32) -> Result<DesignTexts, Memory>
    requires least { 1 ≤ size }
    requires most { size ≤ 4000 }
    ensures { IfOk result (λ texts. texts_in texts ≡ made_up size) }
{
    let made = generate(alloc, size)?;
    Ok(DesignTexts {
        spef: InputText { bytes: made.spef },
        lib: InputText { bytes: made.lib },
        verilog: InputText {
            bytes: made.verilog,
        },
        cons: InputText { bytes: made.cons },
    })
}

/// What is said of the made-up design of a size: its places, its slack without a cell, a best placement, and how many
/// undominated pairs its certificate has. Answers `Memory` where there is no room.
pub fn gen_for(alloc: Global, size: u32) -> Result<Answer, NoAnswer>
    requires least { 1 ≤ size }
    requires most { size ≤ 4000 }
    ensures { AnswersBy (IsGenAnswer size) (IsDesignFault (made_up size)) NoneTaken result }
{
    let texts = made_texts(alloc, size)?;
    let design = design_in(alloc, texts)?;
    match net_of(alloc, &design) {
        Ok((timed, net)) => Ok(sum_up(alloc, &timed, &net)?),
        Err(Refused::Net(refusal)) => Ok(refuse(alloc, NET, &refusal)?),
        Err(Refused::Memory) => Err(NoAnswer::Memory),
    }
}
