//! Laws of generated designs. Their functions do nothing: each one's contract is the law, which a proof may cite.

ghost use Rattle.std.specs.Prelude.{ℕ, ◌≤◌};
ghost use Rattle.vg_gen.specs.Laws.{LinesAreNumbered, TextsAreShort, ValuesAreSmall};

/// In the SPEF text the capacitors and the resistors of the net are numbered from 1 on, in the order of their lines.
pub fn lines_are_numbered()
    ensures { (size : ℕ) → LinesAreNumbered size }
{}

/// Resistances and capacitances stay within a hundred ohms and ten fF, and so does what the SPEF text says that the
/// capacitors come to.
pub fn values_are_small()
    ensures { (size : ℕ) → ValuesAreSmall size }
{}

/// None of the four texts has more than 2^28 bytes, up to a size of 4000.
pub fn texts_are_short()
    ensures { (size : ℕ) → size ≤ 4000 → TextsAreShort size }
{}
