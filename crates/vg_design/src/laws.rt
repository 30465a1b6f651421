//! Laws of problems and refusals. Their function does nothing: its contract is the laws, which a proof may cite.

ghost use Rattle.vg_design.specs.Laws.{BareAccepts, BareOrRefused, OneBareNet, OneProblem, OneRefusal, ProblemOrRefused};

/// A net of a design has one problem, or one first refusal; and what is refused for a missing required time alone is
/// not refused without the constraints, or only for its size.
pub fn one_problem()
    ensures problem { OneProblem }
    ensures either { ProblemOrRefused }
    ensures refusal { OneRefusal }
    ensures bare { BareAccepts }
{}

/// A net of a design is one net without its constraints, or one reason against it holds that does not come of them.
pub fn one_bare_net()
    ensures net { OneBareNet }
    ensures either { BareOrRefused }
{}
