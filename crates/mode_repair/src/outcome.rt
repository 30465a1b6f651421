//! What is asked of a net, and what it came to.

ghost use Rattle.std.specs.Prelude.{◌≡◌};
ghost use Rattle.mode_repair.specs.Outcomes.{kind_for, outcome_for};

use vg_answer::AnswerKind;

/// What is asked of the placement of a net.
#[derive(Clone, Copy)]
pub struct Goal {
    /// The slack (zs) that is enough.
    pub target: i128,
    /// The greatest cost (thousandths), if there is one.
    pub cap: Option<u64>,
}

/// What a net came to, in mode `repair`.
#[derive(Clone, Copy)]
pub enum Outcome {
    /// A placement with this slack (zs), which is the target or more.
    Met(i128),
    /// A placement with this slack (zs), which is less than the target.
    Short(i128),
    /// No placement is good and within the cap.
    NoneGood,
    /// The net is refused.
    Refused,
}

impl Outcome {
    /// The kind of the answer: as for no good placement, where a net is short of its target.
    pub fn kind(self) -> AnswerKind
        ensures { result ≡ kind_for self }
    {
        match self {
            Outcome::Met(_) => AnswerKind::Report,
            Outcome::Short(_) | Outcome::NoneGood => AnswerKind::NoneGood,
            Outcome::Refused => AnswerKind::Refusal,
        }
    }
}

impl Goal {
    /// What a net comes to whose placement has this slack (zs).
    pub fn outcome(self, slack: i128) -> Outcome
        ensures { result ≡ outcome_for self.target slack }
    {
        if slack >= self.target {
            Outcome::Met(slack)
        } else {
            Outcome::Short(slack)
        }
    }
}
