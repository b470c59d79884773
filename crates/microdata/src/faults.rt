ghost use Rattle.std.specs.Prelude.{◌≡◌};
ghost use Rattle.microdata.specs.Faults.{error_of};

use plain_text::Stop;
use sdc_base::Memory;
use std::alloc::{AllocError, AllocFailed};

/// What is wrong with a record. In a record the kinds are looked for in the order `TooLong`, `TooMany`,
/// `Short`, the response, the weight, and the spanning variables in metadata order, each of them in the order
/// `UnknownCode`, `NotLeaf`, `TooManyCodes`.
#[derive(Clone, Copy, Debug, PartialEq, Eq)]
pub enum RowWhy {
    /// The record has more than 1,000 bytes without the line's end.
    TooLong,
    /// The record is the 1,000,001st.
    TooMany,
    /// The record ends before the last field that is looked at.
    Short,
    /// The response begins with `-`.
    Negative,
    /// The response or the weight is no number, has too many decimals or is too large: `10^15` or more for the
    /// response, `10^8` or more for the weight. A blank weight is no number.
    BadNumber,
    /// The weight is below one.
    LightWeight,
    /// The tree doesn't have the code; or a code by levels has a blank inside, is longer than the widths
    /// together, or has a proper prefix, at the end of a level, that is the total.
    UnknownCode,
    /// The code is the total, or has other codes below it.
    NotLeaf,
    /// With the code, and with its prefixes where there are levels, the variable has more than 5,000.
    TooManyCodes,
}

/// Why microdata aren't read: the first record with a fault, from 1, and what is wrong with it; or want of
/// memory. Every line of at least one byte is a record.
#[derive(Clone, Copy, Debug, PartialEq, Eq)]
pub enum RowError {
    At { number: u64, why: RowWhy },
    Memory,
}

impl From<Memory> for RowError {
    ghost use Rattle.microdata.specs.declared.faults.RowError.TheVariants as row_error;

    ghost from_gives = { λ _ e. e ≡ row_error.Memory };

    fn from(_: Memory) -> Self {
        RowError::Memory
    }
}

impl From<AllocError> for RowError {
    ghost use Rattle.microdata.specs.declared.faults.RowError.TheVariants as row_error;

    ghost from_gives = { λ _ e. e ≡ row_error.Memory };

    fn from(_: AllocError) -> Self {
        RowError::Memory
    }
}

impl<T: Drop> From<AllocFailed<T>> for RowError {
    ghost use Rattle.microdata.specs.declared.faults.RowError.TheVariants as row_error;

    ghost from_gives = { λ _ e. e ≡ row_error.Memory };

    fn from(_: AllocFailed<T>) -> Self {
        RowError::Memory
    }
}

/// The error of the record with this number.
pub(crate) fn error_at(number: u64, error: Stop<RowWhy>) -> RowError
    ensures { result ≡ error_of number error }
{
    match error {
        Stop::Fault(why) => RowError::At { number, why },
        Stop::Memory => RowError::Memory,
    }
}
