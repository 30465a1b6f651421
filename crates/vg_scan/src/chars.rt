ghost use Rattle.std.specs.Prelude.{IsTrue};
ghost use Rattle.vg_scan.specs.Separators.{is_separator, is_bus_pair};

/// The bytes that a SPEF file's header gives a meaning in its names.
#[derive(Clone, Copy, Debug, PartialEq, Eq)]
pub struct Chars {
    /// Parts the instances of a path.
    pub divider: u8,
    /// Parts the owner of a node from its leaf.
    pub delimiter: u8,
    /// Opens the number of a bit.
    pub bus_left: u8,
    /// Closes it.
    pub bus_right: u8,
    ghost divides: { IsTrue (is_separator divider) },
    ghost delimits: { IsTrue (is_separator delimiter) },
    ghost encloses: { IsTrue (is_bus_pair bus_left bus_right) },
}
