//! Laws of faults and rows. Their functions do nothing: each one's contract is the law, which a proof may cite.

ghost use Rattle.ver_syntax.specs.Laws.{FaultsOnce, ModulesAreFaultless, RowsStandByKinds, ItemsStandAtStart};

/// A text has one first fault at most, told in one way at one line, and a module has none.
pub fn texts_have_one_first_fault()
    ensures once { FaultsOnce }
    ensures none { ModulesAreFaultless }
{}

/// What a row stands in is told by the kinds of those before it. In a module the rows that stand at the start of an
/// item are exactly those where the grammar lets one begin; the first row of all begins the module.
pub fn items_stand_at_their_start()
    ensures kinds { RowsStandByKinds }
    ensures items { ItemsStandAtStart }
{}
