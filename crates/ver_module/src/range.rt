//! Ranges of numbers: the bits of vectors, and nets that follow one another.

ghost use Rattle.std.specs.Prelude.{◌≡◌, ◌<◌, false, IfNone, IfSome, length, slice_index};
ghost use Rattle.ver_module.specs.Ranges.{bits_from, is_within};

/// The bounds of a vector or of a part of one, as they are written.
#[derive(Clone, Copy, Debug, PartialEq, Eq, Drop)]
pub struct Range {
    pub left: u32,
    pub right: u32,
}

impl Range {
    /// How many bits it has.
    pub fn count(self) -> usize
        ensures { result ≡ length (bits_from self) }
    {
        self.left.abs_diff(self.right) as usize + 1
    }

    /// The bit of this number, counted from the left bound.
    pub fn bit(self, at: usize) -> u32
        requires { at < length (bits_from self) }
        ensures { result ≡ slice_index (bits_from self) at }
    {
        if self.left <= self.right {
            self.left + at as u32
        } else {
            self.left - at as u32
        }
    }

    /// How many bits stand before this one, counted from the left bound. `None`: it does not lie in the range.
    pub fn place(self, bit: u32) -> Option<u32>
        ensures within { IfSome result (λ at. at < length (bits_from self)) }
        ensures bit { IfSome result (λ at. slice_index (bits_from self) at ≡ bit) }
        ensures none { IfNone result (is_within self bit ≡ false) }
    {
        if !self.has(bit) {
            return None;
        }
        Some(self.left.abs_diff(bit))
    }

    /// Whether a bit lies in the range.
    pub fn has(self, bit: u32) -> bool
        ensures { result ≡ is_within self bit }
    {
        self.left.min(self.right) <= bit && bit <= self.left.max(self.right)
    }
}
