ghost use Rattle.std.specs.Prelude.{◌≡◌};

use sdc_base::Memory;
use std::alloc::{AllocError, AllocFailed};

/// What is wrong with a statement of an a priori file. All but `ProtectedPrimary` are looked for line by line, and
/// within a line in this order.
#[derive(Clone, Copy, Debug, PartialEq, Eq)]
pub enum PriorWhy {
    /// The keyword is none of the table, or the number of fields isn't that of the keyword.
    BadShape,
    /// A code isn't one of its variable.
    UnknownCode,
    /// A price, a level or a bound is no number, has too many decimals or is out of range.
    BadNumber,
    /// A cell without records is declared unsafe.
    EmptyUnsafe,
    /// The truth isn't between the bounds.
    OutsideTruth,
    /// An earlier statement of the same keyword has other numbers for the cell, or the cell is declared both safe and
    /// unsafe.
    Twice,
    /// A cell that is to be always shown is primary. It is looked for when all files are read.
    ProtectedPrimary,
}

/// Why a priori files can't be followed: the table, from 0, the line of its file, from 1, and what is wrong with it; or
/// want of memory.
#[derive(Clone, Copy, Debug, PartialEq, Eq)]
pub enum PriorError {
    At {
        table: u32,
        line: u32,
        why: PriorWhy,
    },
    Memory,
}

impl From<Memory> for PriorError {
    ghost use Rattle.apriori.specs.declared.faults.PriorError.TheVariants as prior_error;

    ghost from_gives = { λ _ e. e ≡ prior_error.Memory };

    fn from(_: Memory) -> Self {
        PriorError::Memory
    }
}

impl From<AllocError> for PriorError {
    ghost use Rattle.apriori.specs.declared.faults.PriorError.TheVariants as prior_error;

    ghost from_gives = { λ _ e. e ≡ prior_error.Memory };

    fn from(_: AllocError) -> Self {
        PriorError::Memory
    }
}

impl<T: Drop> From<AllocFailed<T>> for PriorError {
    ghost use Rattle.apriori.specs.declared.faults.PriorError.TheVariants as prior_error;

    ghost from_gives = { λ _ e. e ≡ prior_error.Memory };

    fn from(_: AllocFailed<T>) -> Self {
        PriorError::Memory
    }
}
