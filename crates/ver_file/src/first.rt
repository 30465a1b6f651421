//! The first of what is wrong with a module.

ghost use Rattle.std.specs.Prelude.{◌≡◌, [], None, MatchOption, true};
ghost use Rattle.ver_file.specs.Firsts.{earlier, first_of, sooner, told, with_flaw};
ghost use Rattle.ver_file.specs.Flaws.{IsFirst, flaws_of, unless};
ghost use Rattle.ver_syntax.specs.declared.fault.VerKind.TheVariants.{Grammar, InstanceTwice, NameClash};
ghost use Rattle.ver_file.specs.FirstFlaws.{AreFirsts, IsFlawless};

use ver_syntax::{VerFault, VerKind, line_at};

/// The earlier of two places, of which the first may be none.
fn earlier(first: Option<usize>, place: usize) -> Option<usize>
    ensures { result ≡ earlier first place }
{
    match first {
        None => Some(place),
        Some(first) => Some(first.min(place)),
    }
}

/// This place, where a test fails, or the one before it.
pub(crate) fn unless(test: bool, place: usize, first: Option<usize>) -> Option<usize>
    ensures { result ≡ first_of first (unless test place) }
{
    if test { first } else { earlier(first, place) }
}

/// What is wrong at a place of a text.
#[derive(Clone, Copy, Debug, PartialEq, Eq, Drop)]
pub(crate) struct Flaw {
    pub place: usize,
    pub kind: VerKind,
}

/// The first of two flaws, of which the first may be none.
fn sooner(first: Option<Flaw>, flaw: Flaw) -> Flaw
    ensures { result ≡ sooner first flaw }
{
    match first {
        Some(first) if first.place <= flaw.place => first,
        _ => flaw,
    }
}

/// The first of one flaw and one of this kind at a place, where they are there.
fn with_flaw(first: Option<Flaw>, kind: VerKind, place: Option<usize>) -> Option<Flaw>
    ensures { result ≡ with_flaw first kind place }
{
    match place {
        None => first,
        Some(place) => Some(sooner(first, Flaw { place, kind })),
    }
}

/// The fault that is told of a flaw.
fn told(text: &[u8], flaw: Flaw) -> VerFault
    ensures { result ≡ told text.now flaw }
{
    VerFault {
        kind: flaw.kind,
        line: line_at(text, flaw.place),
    }
}

/// The first places at which something is wrong, by what it is. Only the first of all tells, so that lines are counted
/// once.
#[derive(Clone, Copy, Debug, PartialEq, Eq, Drop)]
pub(crate) struct Firsts {
    pub clash: Option<usize>,
    pub twice: Option<usize>,
    pub grammar: Option<usize>,
}

impl Firsts {
    /// Whether nothing is wrong.
    pub fn are_none(self) -> bool
        ensures none { result ≡ true → IsFlawless self }
        ensures only { IsFlawless self → result ≡ true }
    {
        self.clash.is_none() && self.twice.is_none() && self.grammar.is_none()
    }

    /// The first flaw, at one place by its kind.
    fn flaw(self) -> Option<Flaw>
        ensures { result
            ≡ with_flaw
            (with_flaw (with_flaw None NameClash self.clash) InstanceTwice self.twice) Grammar self.grammar }
    {
        let first = with_flaw(None, VerKind::NameClash, self.clash);
        let first = with_flaw(first, VerKind::InstanceTwice, self.twice);
        with_flaw(first, VerKind::Grammar, self.grammar)
    }

    /// The fault of the first flaw of a text, if it has any.
    pub fn fault(self, text: &[u8]) -> Option<VerFault>
        requires { AreFirsts text.now self }
        ensures { MatchOption result (flaws_of text.now ≡ []) (IsFirst text.now (flaws_of text.now)) }
    {
        match self.flaw() {
            None => None,
            Some(flaw) => Some(told(text, flaw)),
        }
    }
}
