use std::alloc::{AllocError, AllocFailed};
use thiserror::Error;

/// Why tables make no book, with the number of the first table that has a fault, from 0. In one table the causes
/// are looked for in this order, and `Memory` is want of memory alone.
#[derive(Clone, Copy, Debug, PartialEq, Eq, Error)]
pub enum BookFault {
    /// The table spans a variable that there isn't.
    #[error("table {0} spans a variable that isn't there")]
    NoSuchVariable(u32),
    /// The table spans a variable twice.
    #[error("table {0} spans a variable twice")]
    TwiceInTable(u32),
    /// The tables up to this one have more than 60,000 distinct cells.
    #[error("with table {0} there are more than 60,000 cells")]
    TooManyCells(u32),
    /// There was no memory.
    #[error("out of memory")]
    Memory,
}

impl From<AllocError> for BookFault {
    ghost use Rattle.std.specs.Prelude.{◌≡◌};
    ghost use Rattle.linked_tables.specs.declared.book_fault.BookFault.TheVariants.{Memory};

    ghost from_gives = { λ _ e. e ≡ Memory };

    fn from(_error: AllocError) -> BookFault {
        BookFault::Memory
    }
}

impl<T: Drop> From<AllocFailed<T>> for BookFault {
    ghost use Rattle.std.specs.Prelude.{◌≡◌};
    ghost use Rattle.linked_tables.specs.declared.book_fault.BookFault.TheVariants.{Memory};

    ghost from_gives = { λ _ e. e ≡ Memory };

    fn from(_error: AllocFailed<T>) -> BookFault {
        BookFault::Memory
    }
}
