//! What kind of answer is given.

ghost use Rattle.std.specs.Prelude.{◌≡◌};
ghost use Rattle.vg_answer.specs.Verdicts.{status_for, worse};

/// What an answer is.
#[derive(Clone, Copy, Debug, PartialEq, Eq)]
pub enum AnswerKind {
    /// What was asked for.
    Report,
    /// That no placement of repeaters on a net is good.
    NoneGood,
    /// Why a net is refused, or a whole design.
    Refusal,
    /// That a certificate is not in its form or not valid.
    Invalid,
}

impl AnswerKind {
    /// The status of the program where the answer was printed.
    pub fn status(self) -> u8
        ensures { result ≡ status_for self }
    {
        match self {
            AnswerKind::Report => 0,
            AnswerKind::NoneGood => 1,
            AnswerKind::Refusal => 2,
            AnswerKind::Invalid => 8,
        }
    }

    /// The kind of two answers together: a refusal where one is, else that a certificate is not valid or that no
    /// placement is good where one tells that, else a report.
    pub fn worse(self, other: AnswerKind) -> AnswerKind
        ensures { result ≡ worse self other }
    {
        match (self, other) {
            (AnswerKind::Refusal, _) | (_, AnswerKind::Refusal) => AnswerKind::Refusal,
            (AnswerKind::Invalid, _) | (_, AnswerKind::Invalid) => AnswerKind::Invalid,
            (AnswerKind::NoneGood, _) | (_, AnswerKind::NoneGood) => AnswerKind::NoneGood,
            _ => AnswerKind::Report,
        }
    }
}
