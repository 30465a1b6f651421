//! A law of comments in libraries. Its function does nothing: the contract is the law.

ghost use Rattle.std.specs.Prelude.{◌≡◌, ℕ, List};
ghost use Rattle.std.specs.List.{concat};
ghost use Rattle.vg_scan.specs.LibertyComments.{liberty_pieces};

/// A library's text is its pieces, one after another.
pub fn liberty_texts_are_pieces()
    ensures { (text : List ℕ) → concat (liberty_pieces text) ≡ text }
{}
