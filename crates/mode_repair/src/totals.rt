//! How many nets came to what.

ghost use Rattle.std.specs.Prelude.{◌≡◌, ◌++◌, ◌+◌, ◌<◌, ◌^◌, ℤ, Some, [], ◌∷◌, List, length, OnOk};
ghost use Rattle.mode_repair.specs.Outcomes.{AreTotals, Counts, IsWorst, count_text, counts_text, totals_line, worst_text};
ghost use Rattle.mode_repair.specs.declared.outcome.Outcome.{Outcome as OutcomeSpec};

use crate::outcome::Outcome;
use vg_num::{Memory, print_signed};
use vg_report::push;

/// How many nets came to what, and the least slack (zs) of all that are reported.
#[derive(Clone, Copy)]
pub struct Totals {
    pub nets: usize,
    pub met: usize,
    pub short: usize,
    pub none: usize,
    pub refused: usize,
    pub worst: Option<i128>,
}

/// The lesser of two slacks (zs), of which there may be but one.
fn lesser(worst: Option<i128>, slack: i128) -> i128
    ensures { (slacks : List ℤ) → IsWorst slacks worst → IsWorst (slacks ++ slack ∷ []) (Some result) }
{
    let Some(worst) = worst else {
        return slack;
    };
    if worst <= slack { worst } else { slack }
}

/// Appends a word and how many nets it is of.
fn print_count(word: &[u8], number: usize, to: &mut Vec<u8>) -> Result<(), Memory>
    ensures { OnOk result (to.new.items ≡ to.old.items ++ count_text word.now number) }
{
    push(word, to)?;
    print_signed(number as i128, to)
}

/// Appends a slack (zs), or `none`.
fn print_worst(worst: Option<i128>, to: &mut Vec<u8>) -> Result<(), Memory>
    ensures { OnOk result (to.new.items ≡ to.old.items ++ worst_text worst) }
{
    match worst {
        Some(slack) => print_signed(slack, to),
        None => push(b"none", to),
    }
}

impl Totals {
    /// Those of no net.
    pub fn new() -> Totals
        ensures { AreTotals [] result }
    {
        Totals {
            nets: 0,
            met: 0,
            short: 0,
            none: 0,
            refused: 0,
            worst: None,
        }
    }

    /// With what one net more came to.
    pub fn with(self, outcome: Outcome) -> Totals
        requires room { (before : List OutcomeSpec) × AreTotals before self × (length before + 1 < 2 ^ 64) }
        ensures { Counts self outcome result }
    {
        let nets = self.nets + 1;
        match outcome {
            Outcome::Met(slack) => Totals {
                nets,
                met: self.met + 1,
                worst: Some(lesser(self.worst, slack)),
                ..self
            },
            Outcome::Short(slack) => Totals {
                nets,
                short: self.short + 1,
                worst: Some(lesser(self.worst, slack)),
                ..self
            },
            Outcome::NoneGood => Totals {
                nets,
                none: self.none + 1,
                ..self
            },
            Outcome::Refused => Totals {
                nets,
                refused: self.refused + 1,
                ..self
            },
        }
    }

    /// Appends ` nets A met B short C none D refused E`.
    fn print_counts(&self, to: &mut Vec<u8>) -> Result<(), Memory>
        ensures { OnOk result (to.new.items ≡ to.old.items ++ counts_text self.now) }
    {
        print_count(b" nets ", self.nets, to)?;
        print_count(b" met ", self.met, to)?;
        print_count(b" short ", self.short, to)?;
        print_count(b" none ", self.none, to)?;
        print_count(b" refused ", self.refused, to)?;
        Ok(())
    }

    /// Appends `repair nets A met B short C none D refused E worst S`, with S in zeptoseconds, or `none`.
    pub fn print(&self, to: &mut Vec<u8>) -> Result<(), Memory>
        ensures { OnOk result (to.new.items ≡ to.old.items ++ totals_line self.now) }
    {
        push(b"repair", to)?;
        self.print_counts(to)?;
        push(b" worst ", to)?;
        print_worst(self.worst, to)?;
        push(b"\n", to)?;
        Ok(())
    }
}
