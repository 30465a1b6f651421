//! A text that is made in pieces.

ghost use Rattle.std.specs.Prelude.{◌≡◌, [], IfOk, OnOk};
ghost use Rattle.vg_cert.specs.Written.{joined, text_in};

use std::alloc::Global;
use std::mem;
use vg_num::Memory;

/// How much room a piece is given.
const ROOM: usize = 65_536;

/// From how many bytes on a piece is closed: one more line mostly finds room behind them.
const FULL: usize = 65_024;

/// A text that grows by whole pieces, so that nothing of it is copied as it gets longer.
#[derive(Drop)]
pub(crate) struct Growing {
    /// The pieces that are closed.
    pub closed: Vec<Vec<u8>>,
    /// The piece that is written.
    pub last: Vec<u8>,
    alloc: Global,
}

impl Growing {
    /// No text. Answers `Memory` where there is no room for the first piece.
    pub fn new(alloc: Global) -> Result<Growing, Memory>
        ensures { IfOk result (λ made. text_in made ≡ []) }
    {
        let closed = Vec::new(alloc);
        let last = Vec::with_capacity(alloc, ROOM)?;
        Ok(Growing {
            closed,
            last,
            alloc,
        })
    }

    /// Closes the piece that is written, where it is nearly full, and begins the next one.
    pub fn close_full(&mut self) -> Result<(), Memory>
        ensures { OnOk result (text_in self.new ≡ text_in self.old) }
    {
        if self.last.len() < FULL {
            return Ok(());
        }
        let next = Vec::with_capacity(self.alloc, ROOM)?;
        let full = mem::replace(&mut self.last, next);
        self.closed.push(full)?;
        Ok(())
    }

    /// All of its pieces, one after another.
    pub fn into_pieces(self) -> Result<Vec<Vec<u8>>, Memory>
        ensures { IfOk result (λ pieces. joined pieces.items ≡ text_in self) }
    {
        let Growing {
            mut closed,
            last,
            ..
        } = self;
        closed.push(last)?;
        Ok(closed)
    }
}
