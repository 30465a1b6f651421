//! Laws of grammars. Their functions do nothing: each one's contract is the law, which a proof may cite.

ghost use Rattle.grammar_laws.specs.Grammar.{Part};
ghost use Rattle.grammar_laws.specs.Laws.{BreakOnce, GoesOn, Ends, EachMachine};

/// A text breaks a part of a grammar at one place at most: the first token that the part does not allow, or the end.
pub fn break_once<N, T>()
    ensures { (rules : N → Part N T) → BreakOnce rules }
{}

/// A machine that reads tokens as a grammar does goes on over exactly those lists of tokens that begin the part with
/// which it starts. It is done after exactly those that are the part.
pub fn machines_read_grammars<N, T, S>()
    ensures begins { EachMachine N T S (λ rules ways move done. GoesOn rules ways move) }
    ensures whole { EachMachine N T S Ends }
{}
