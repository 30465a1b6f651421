use thiserror::Error;

/// Why a text is not the number that was asked for.
#[derive(Clone, Copy, Debug, PartialEq, Eq, Error)]
pub enum NumFault {
    /// The text is no decimal number.
    #[error("not a number")]
    Form = 1,
    /// A minus stands before a value that is not zero, where only unsigned numbers are taken.
    #[error("a negative number")]
    Negative = 2,
    /// The rounded value is over the limit of the call.
    #[error("a number that is too large")]
    TooLarge = 3,
}
