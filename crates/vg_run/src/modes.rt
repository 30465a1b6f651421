//! The table of modes.

ghost use Rattle.std.specs.Prelude.{◌≡◌, option_map};
ghost use Rattle.std.specs.List.{AllPass};
ghost use Rattle.vg_scan.specs.Printed.{is_solid};
ghost use Rattle.vg_words.specs.Request.{prefix_of};
ghost use Rattle.vg_run.specs.Inputs.{texts_read};
ghost use Rattle.vg_run.specs.Modes.{AnswersFor, goal_of, written_prefix};
ghost use Rattle.vg_run.specs.Run.{IsSized};

use crate::inputs::Texts;
use crate::outputs::written_cert;
use mode_best::best_for;
use mode_check::check_for;
use mode_frontier::front_for;
use mode_gen::gen_for;
use mode_repair::{Goal, repair_for};
use mode_segment::segment_for;
use mode_sta::sta_for;
use mode_time::time_for;
use mode_total::total_for;
use mode_width::width_for;
use mode_wire::wire_for;
use std::alloc::Global;
use vg_answer::{Answer, NoAnswer};
use vg_words::{Ask, Mode, Opt};

/// The net that is asked for, or none where all are.
fn asked_net(ask: &Ask) -> Option<&[u8]>
    ensures { option_map (λ name. name.now) result ≡ ask.now.net }
{
    match &ask.net {
        None => None,
        Some(name) => Some(name.as_str().as_bytes()),
    }
}

/// Which slack is enough in mode `repair`, and the cap.
fn goal(ask: &Ask) -> Goal
    ensures { result ≡ goal_of ask.now }
{
    Goal {
        target: ask.target(),
        cap: ask.cap(),
    }
}

/// What the names of new cells and nets begin with in mode `total`, where it is to write files.
fn written_prefix(ask: &Ask) -> Option<&[u8]>
    ensures { option_map (λ name. name.now) result ≡ written_prefix ask.now }
{
    match &ask.out_spef {
        None => None,
        Some(_) => Some(ask.prefix().as_bytes()),
    }
}

/// What a request's mode says of the texts that it reads.
pub(crate) fn answer(alloc: Global, texts: Texts, ask: &Ask) -> Result<Answer, NoAnswer>
    requires prefix { AllPass is_solid (prefix_of ask.now) }
    requires size { IsSized ask.now }
    ensures { AnswersFor ask.now (texts_read texts) result }
{
    let Texts {
        design,
        cert,
        widths,
    } = texts;
    let prefix = ask.prefix().as_bytes();
    match ask.mode {
        Mode::Wire => wire_for(alloc, design.spef, ask.text(Opt::Net).as_bytes()),
        Mode::Time => time_for(alloc, design, asked_net(ask), prefix),
        Mode::Best => {
            let is_certified = written_cert(ask).is_some();
            best_for(alloc, design, asked_net(ask), prefix, is_certified)
        }
        Mode::Frontier => front_for(alloc, design, asked_net(ask), ask.cap()),
        Mode::Check => check_for(alloc, design, cert, ask.text(Opt::Net).as_bytes()),
        Mode::Gen => gen_for(alloc, ask.size()),
        Mode::Sta => sta_for(alloc, design),
        Mode::Segment => segment_for(alloc, design.spef, asked_net(ask), ask.parts()),
        Mode::Repair => repair_for(alloc, design, asked_net(ask), goal(ask), prefix),
        Mode::Total => total_for(alloc, design, ask.cap(), written_prefix(ask)),
        Mode::Width => width_for(alloc, design, widths, ask.text(Opt::Net).as_bytes()),
    }
}
