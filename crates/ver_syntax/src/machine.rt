//! The grammar of a module, for a text whose tokens are read for more than the grammar.

ghost use Rattle.std.specs.Prelude.{◌≡◌, ◌<◌, ℕ, ◌++◌, ◌∷◌, [], List, length, true, false, IfOk, OnOk};
ghost use Rattle.ver_text.specs.Kinds.{kinds_of};
ghost use Rattle.ver_text.specs.declared.kind.Kind.{Kind as KindSpec};
ghost use Rattle.ver_syntax.specs.Reading.{HasKinds, HasKindsBefore};
ghost use Rattle.ver_syntax.specs.Rows.{kinds_in};
ghost use Rattle.ver_syntax.specs.Syntax.{HasTokens, IsModule, BeginNoModule};

use crate::braces::Braces;
use crate::phrase::past_phrase;
use crate::row::Row;
use crate::state::{At, Head};
use crate::step::{is_done, step};
use std::alloc::{AllocError, Global};
use ver_text::Kind;

/// A machine that reads the kinds of a module's tokens, one after another, and tells whether they are a module. Where
/// they are not, [`check_module`](crate::check_module) tells what is wrong.
#[derive(Drop)]
pub struct Machine {
    /// Where it stands. `None`: no module begins with what it has read.
    at: Option<At>,
    braces: Braces,
}

impl Machine {
    /// It has read nothing.
    pub fn new(alloc: Global) -> Machine
        ensures { HasKinds [] result }
    {
        Machine {
            at: Some(At::Head(Head::Start)),
            braces: Braces::new(alloc),
        }
    }

    /// Reads the kind of the next token. Whether a module can go on so. Answers an error where there is no room.
    #[inline(always)]
    pub fn read(&mut self, kind: Kind) -> Result<bool, AllocError>
        ensures kinds { (kinds : List KindSpec) → HasKinds kinds self.old
            → OnOk result (HasKinds (kinds ++ kind ∷ []) self.new) }
        ensures refused { (kinds : List KindSpec) → HasKinds kinds self.old
            → IfOk result (λ can. can ≡ false → BeginNoModule (kinds ++ kind ∷ [])) }
    {
        let Some(at) = self.at else {
            return Ok(false);
        };
        self.at = step(at, kind, &mut self.braces)?;
        Ok(self.at.is_some())
    }

    /// Reads the kinds of the tokens of a phrase, where one comes, or of the first of some tokens. The tokens after
    /// them. Answers an error where there is no room.
    fn read_phrase<'a>(&mut self, rows: &'a [Row]) -> Result<&'a [Row], AllocError>
        requires { 0 < length rows.now }
        ensures kinds { (kinds : List KindSpec) → HasKinds kinds self.old
            → IfOk result (λ left. HasKindsBefore (kinds_in left.now) (kinds ++ kinds_in rows.now) self.new) }
        ensures fewer { IfOk result (λ left. length left.now < length rows.now) }
    {
        if let Some(at) = self.at {
            if let Some((to, left)) = past_phrase(at, rows) {
                self.at = Some(to);
                self.braces.clear();
                return Ok(left);
            }
        }
        self.read(rows[0].kind)?;
        Ok(&rows[1..])
    }

    /// Reads the kinds of the next tokens. Whether a module can go on so. Answers an error where there is no room.
    pub fn read_rows(&mut self, rows: &[Row]) -> Result<bool, AllocError>
        ensures kinds { (kinds : List KindSpec) → HasKinds kinds self.old
            → OnOk result (HasKinds (kinds ++ kinds_in rows.now) self.new) }
        ensures refused { (kinds : List KindSpec) → HasKinds kinds self.old
            → IfOk result (λ can. can ≡ false → BeginNoModule (kinds ++ kinds_in rows.now)) }
    {
        let mut left = rows;
        'phrase: while !left.is_empty() {
            left = self.read_phrase(left)?;
        }
        Ok(self.at.is_some())
    }

    /// Whether a text is a module all of whose tokens it has read.
    pub fn is_module(&self) -> bool
        ensures module { (text : List ℕ) → HasKinds (kinds_of text) self.now → result ≡ true
            → HasTokens text × IsModule text }
        ensures none { (text : List ℕ) → HasKinds (kinds_of text) self.now → result ≡ false → IsModule text → ⊥ }
    {
        match self.at {
            Some(at) => is_done(at),
            None => false,
        }
    }
}
