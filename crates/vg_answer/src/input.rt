//! The inputs.

/// An input file that words may name.
#[derive(Clone, Copy, Debug, PartialEq, Eq)]
pub enum Input {
    /// The parasitics.
    Spef,
    /// The library.
    Lib,
    /// The netlist.
    Verilog,
    /// The constraints.
    Cons,
    /// The certificate.
    Cert,
    /// The widths of wires.
    Widths,
}
