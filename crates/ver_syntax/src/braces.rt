//! The braces that are open in an expression.

ghost use Rattle.std.specs.Prelude.{◌≡◌, [], ◌∷◌, OnOk, MatchOption};

use crate::state::Brace;
use std::alloc::{AllocError, Global};
use std::marker::Model;

/// The braces that are open. Contracts see the list of them, the innermost first.
#[derive(Drop)]
pub(crate) struct Braces {
    items: Vec<Brace>,
}

impl Model for Braces {
    ghost use Rattle.std.specs.Prelude.{List, reverse};
    ghost use Rattle.ver_syntax.specs.declared.state.Brace.{Brace as BraceSpec};

    ghost Value = { List BraceSpec };

    ghost view = { λ braces. reverse braces.items.items };
}

impl Braces {
    pub(crate) fn new(alloc: Global) -> Braces
        ensures { result ≡ [] }
    {
        Braces {
            items: Vec::new(alloc),
        }
    }

    pub(crate) fn push(&mut self, brace: Brace) -> Result<(), AllocError>
        ensures { OnOk result (self.new ≡ brace ∷ self.old) }
    {
        self.items.push(brace)?;
        Ok(())
    }

    pub(crate) fn pop(&mut self) -> Option<Brace>
        ensures { MatchOption result ((self.old ≡ []) × (self.new ≡ [])) (λ brace. self.old ≡ brace ∷ self.new) }
    {
        self.items.pop()
    }

    pub(crate) fn clear(&mut self)
        ensures { self.new ≡ [] }
    {
        self.items.clear();
    }
}
