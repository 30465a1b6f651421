use thiserror::Error;
use vg_scan::LineFault;

/// What is wrong with a line of a structural Verilog module (IEEE Std 1364-2005).
#[derive(Clone, Copy, Debug, PartialEq, Eq, Error)]
pub enum VerKind {
    /// A byte begins no token, or a comment or an attribute does not end.
    #[error("not a token")]
    Token,
    /// The grammar does not allow a token that begins on the line, or the text ends too soon; or a bit or a part lies
    /// outside its vector, a pin is connected twice, or a port has no direction or two.
    #[error("not the syntax of a module")]
    Grammar,
    /// The text has a second module.
    #[error("a second module")]
    SecondModule,
    /// An instance has its connections by order, and not by name.
    #[error("connections by order")]
    Positional,
    /// The module has parameters, or an instance has values for some.
    #[error("a parameter")]
    Parameter,
    /// Two nets have one name, or an identifier has two ranges.
    #[error("a name of two nets")]
    NameClash,
    /// An instance's name was that of an instance before.
    #[error("an instance that is given twice")]
    InstanceTwice,
    /// Out of memory.
    #[error("out of memory")]
    Memory,
}

/// A fault of a module, and the number of its line; the first is 1.
pub type VerFault = LineFault<VerKind>;
