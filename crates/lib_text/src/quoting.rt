//! Strings within values and lists of arguments.

ghost use Rattle.std.specs.Prelude.{◌≡◌};
ghost use Rattle.lib_text.specs.Strings.{quoting_after, is_quoted};

/// What a byte of a value or of a list stands in.
#[derive(Clone, Copy, Debug, PartialEq, Eq, Drop)]
pub(crate) enum Quoting {
    /// No string.
    Outside,
    /// No string, after a backslash.
    Hidden,
    /// A string.
    Inside,
}

impl Quoting {
    /// What the byte after this one stands in.
    pub(crate) fn after(self, byte: u8) -> Quoting
        ensures { result ≡ quoting_after self byte }
    {
        match self {
            Quoting::Outside if byte == b'"' => Quoting::Inside,
            Quoting::Outside if byte == b'\\' => Quoting::Hidden,
            Quoting::Outside | Quoting::Hidden => Quoting::Outside,
            Quoting::Inside if byte == b'"' || byte == b'\n' => Quoting::Outside,
            Quoting::Inside => Quoting::Inside,
        }
    }

    pub(crate) fn is_quoted(self) -> bool
        ensures { result ≡ is_quoted self }
    {
        match self {
            Quoting::Inside => true,
            _ => false,
        }
    }
}
