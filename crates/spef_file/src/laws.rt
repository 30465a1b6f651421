//! Laws of files. Their functions do nothing: each one's contract is the law.

ghost use Rattle.std.specs.Prelude.{◌≡◌, ℕ, List};
ghost use Rattle.vg_scan.specs.Comments.{without_comments};
ghost use Rattle.vg_scan.specs.declared.comments.Comments.TheVariants.{Spef};
ghost use Rattle.vg_scan.specs.declared.fault.LineFault.{LineFault};
ghost use Rattle.spef_file.specs.declared.fault.SpefKind.{SpefKind};
ghost use Rattle.spef_file.specs.Files.{File, IsFileOf, IsFileFault};
ghost use Rattle.spef_file.specs.Indexes.{lines_after};

/// A text says one thing at most, or has one first fault, and not both.
pub fn says_one_thing()
    ensures file { (text : List ℕ) (one other : File) → IsFileOf text one → IsFileOf text other → one ≡ other }
    ensures fault { (text : List ℕ) (one other : LineFault SpefKind) → IsFileFault text one
        → IsFileFault text other → one ≡ other }
    ensures either { (text : List ℕ) (file : File) (fault : LineFault SpefKind) → IsFileOf text file
        → IsFileFault text fault → ⊥ }
{}

/// What is said of a text without its comments is said of the text, and the other way round.
pub fn comments_say_nothing()
    ensures file { (text : List ℕ) (file : File) → IsFileOf (without_comments Spef text) file → IsFileOf text file }
    ensures clear_file { (text : List ℕ) (file : File) → IsFileOf text file
        → IsFileOf (without_comments Spef text) file }
    ensures fault { (text : List ℕ) (fault : LineFault SpefKind) → IsFileFault (without_comments Spef text) fault
        → IsFileFault text fault }
    ensures clear_fault { (text : List ℕ) (fault : LineFault SpefKind) → IsFileFault text fault
        → IsFileFault (without_comments Spef text) fault }
    ensures lines { (text : List ℕ) (line : ℕ) → lines_after (without_comments Spef text) line ≡ lines_after text line }
{}
