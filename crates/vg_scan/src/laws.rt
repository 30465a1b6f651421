//! Laws of comments and of printed names. Their functions do nothing: each one's contract is the law.

ghost use Rattle.std.specs.Prelude.{◌≡◌, ℕ, List, false};
ghost use Rattle.std.specs.List.{AllPass, AllZip, concat};
ghost use Rattle.vg_scan.specs.declared.chars.Chars.{Chars};
ghost use Rattle.vg_scan.specs.Comments.{pieces, without_comments, StaysOrBlanks};
ghost use Rattle.vg_scan.specs.declared.comments.Comments.{Comments};
ghost use Rattle.vg_scan.specs.Names.{canonical};
ghost use Rattle.vg_scan.specs.Parts.{PartsKeepComments};
ghost use Rattle.vg_scan.specs.Printed.{printed, is_solid, IsPrintable};
ghost use Rattle.vg_scan.specs.References.{is_reference};

/// What `print_spef_name` prints is one word, whose canonical name is the name that was printed, and no reference to an
/// index.
pub fn reads_names_again()
    ensures again { (chars : Chars) (name : List ℕ) → IsPrintable name
        → canonical chars (printed chars name) ≡ Some name }
    ensures word { (chars : Chars) (name : List ℕ) → IsPrintable name → AllPass is_solid (printed chars name) }
    ensures reference { (chars : Chars) (name : List ℕ) → is_reference (printed chars name) ≡ false }
{}

/// Where comments are made blank every other byte stays, and so does every newline: lines keep their numbers.
pub fn comments_keep_lines()
    ensures { (kind : Comments) (text : List ℕ) → AllZip StaysOrBlanks text (without_comments kind text) }
{}

/// A text is its pieces, one after another.
pub fn texts_are_pieces()
    ensures { (text : List ℕ) → concat (pieces text) ≡ text }
{}

/// A part of a text, from the first word of a line to the end of a word, has the comments that it has in the text: it
/// may be read alone.
pub fn parts_keep_comments()
    ensures { PartsKeepComments }
{}
