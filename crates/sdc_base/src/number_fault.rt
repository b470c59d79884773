use thiserror::Error;

/// Why bytes are no number of units, in the order in which it is looked for.
#[derive(Clone, Copy, Debug, PartialEq, Eq, Error)]
pub enum NumberFault {
    /// The byte at this place, from 0, is the first that is neither a digit nor the first point.
    #[error("byte {0} is no digit")]
    NotADigit(u32),
    /// There is no digit.
    #[error("there is no digit")]
    Empty,
    /// More digits stand after the point than there are decimals.
    #[error("too many digits after the point")]
    TooManyDecimals,
    /// The number of units is `10^37` or more.
    #[error("the number is too wide")]
    TooWide,
}
