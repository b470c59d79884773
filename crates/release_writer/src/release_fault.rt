use sdc_base::Memory;
use std::alloc::{AllocError, AllocFailed};
use thiserror::Error;

/// Why bytes are no texts of a release.
#[derive(Clone, Copy, Debug, PartialEq, Eq, Error)]
pub enum ReleaseFault {
    /// The first bad line: one that no choice for its cell gives, that shows a cell otherwise than an earlier table, or
    /// that is missing or too many.
    #[error("table {table} line {line} is no line of the release")]
    At {
        /// The table, from 0.
        table: u32,
        /// The line, from 1.
        line: u32,
    },
    /// There was no memory.
    #[error("out of memory")]
    Memory,
}

impl From<AllocError> for ReleaseFault {
    ghost use Rattle.std.specs.Prelude.{◌≡◌};
    ghost use Rattle.release_writer.specs.declared.release_fault.ReleaseFault.TheVariants.{Memory};

    ghost from_gives = { λ _ e. e ≡ Memory };

    fn from(_error: AllocError) -> ReleaseFault {
        ReleaseFault::Memory
    }
}

impl<T: Drop> From<AllocFailed<T>> for ReleaseFault {
    ghost use Rattle.std.specs.Prelude.{◌≡◌};
    ghost use Rattle.release_writer.specs.declared.release_fault.ReleaseFault.TheVariants.{Memory};

    ghost from_gives = { λ _ e. e ≡ Memory };

    fn from(_error: AllocFailed<T>) -> ReleaseFault {
        ReleaseFault::Memory
    }
}

impl From<Memory> for ReleaseFault {
    ghost use Rattle.std.specs.Prelude.{◌≡◌};
    ghost use Rattle.release_writer.specs.declared.release_fault.ReleaseFault.TheVariants.{Memory};

    ghost from_gives = { λ _ e. e ≡ Memory };

    fn from(_error: Memory) -> ReleaseFault {
        ReleaseFault::Memory
    }
}
