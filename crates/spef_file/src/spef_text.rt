//! The text of a SPEF file.

ghost use Rattle.std.specs.Prelude.{◌≡◌, ◌≤◌, ◌^◌, length};
ghost use Rattle.vg_scan.specs.Comments.{without_comments};
ghost use Rattle.vg_scan.specs.declared.comments.Comments.TheVariants.{Spef};

use std::marker::Model;
use vg_scan::{Comments, clear_comments};

/// The text of a SPEF file (IEEE Std 1481), of at most 2^28 bytes, whose comments are blank. Contracts see its bytes.
#[derive(Drop)]
pub struct SpefText {
    bytes: Vec<u8>,
}

impl Model for SpefText {
    ghost use Rattle.std.specs.Prelude.{List, ℕ};
    ghost use Rattle.spef_file.specs.ClearTexts.{IsClearText};

    ghost Value = { List ℕ };

    ghost view = { λ text. text.bytes.items };

    ghost invariant = { λ text. IsClearText text.bytes.items };
}

impl SpefText {
    /// The text of these bytes, with a space in place of each byte of a comment that is no newline.
    pub fn new(bytes: Vec<u8>) -> SpefText
        requires { length bytes.items ≤ 2 ^ 28 }
        ensures { result ≡ without_comments Spef bytes.items }
    {
        let mut bytes = bytes;
        clear_comments(bytes.as_mut_slice(), Comments::Spef);
        SpefText { bytes }
    }

    /// The text of bytes that have no comment.
    pub fn from_clear(bytes: Vec<u8>) -> SpefText
        requires short { length bytes.items ≤ 2 ^ 28 }
        requires clear { without_comments Spef bytes.items ≡ bytes.items }
        ensures { result ≡ bytes.items }
    {
        SpefText { bytes }
    }

    /// The bytes, without comments, to be changed.
    pub fn into_bytes(self) -> Vec<u8>
        ensures { result.items ≡ self }
    {
        self.bytes
    }

    /// The bytes, without comments.
    pub fn as_bytes(&self) -> &[u8]
        ensures text { result.now ≡ self.now }
        ensures short { length self.now ≤ 2 ^ 28 }
        ensures clear { without_comments Spef self.now ≡ self.now }
    {
        self.bytes.as_slice()
    }
}
