ghost use Rattle.std.specs.Prelude.{◌≡◌};

use sdc_base::Memory;
use std::alloc::AllocError;

/// Why values aren't those of a rounded release, so that they have no reader.
#[derive(Clone, Copy, Debug, PartialEq, Eq)]
pub enum ReaderFault {
    /// This cell's value isn't a multiple of the base less than one base from its truth; it is the first such cell.
    Rounded(u32),
    /// All values are so, and this is the first relation that doesn't hold on them.
    Relation(u32),
    /// Memory is wanted.
    Memory,
}

impl From<Memory> for ReaderFault {
    ghost use Rattle.rounding_audit.specs.declared.reader_fault.ReaderFault.TheVariants as reader_fault;

    ghost from_gives = { λ _ e. e ≡ reader_fault.Memory };

    fn from(_: Memory) -> Self {
        ReaderFault::Memory
    }
}
