ghost use Rattle.std.specs.Prelude.{◌≡◌};

use sdc_base::{Memory, Side};
use std::alloc::AllocError;
use worlds::{RefutationFault, WorldFault};

/// Why extra cells don't show that a hidden set with them guards against every contributor.
#[derive(Clone, Copy, Debug, PartialEq, Eq)]
pub enum ExtraFault {
    /// The extra cell at this place isn't ascending, isn't free or is hidden already.
    Cell(u32),
    /// The need at this place isn't that of the extra cell, its row alone makes up no cell, its cell isn't primary or is
    /// one that the contributor knows; or there is a need too few or too many.
    NeedCell(u32),
    /// The need at this place has a fault.
    Need(u32, RefutationFault),
    /// The guard at this place isn't of a primary cell, or stands out of the order of cells and sides.
    GuardCell(u64),
    /// The world of the guard at this place has a fault.
    Guard(u64, WorldFault),
    /// No world serves against this contributor for this primary cell and side.
    Open {
        /// The place of the contributor's row, from 0.
        row: u32,
        cell: u32,
        side: Side,
    },
    /// Memory is wanted.
    Memory,
}

impl From<Memory> for ExtraFault {
    ghost use Rattle.attackers.specs.declared.faults.ExtraFault.TheVariants as extra_fault;

    ghost from_gives = { λ _ e. e ≡ extra_fault.Memory };

    fn from(_: Memory) -> Self {
        ExtraFault::Memory
    }
}

impl From<AllocError> for ExtraFault {
    ghost use Rattle.attackers.specs.declared.faults.ExtraFault.TheVariants as extra_fault;

    ghost from_gives = { λ _ e. e ≡ extra_fault.Memory };

    fn from(_: AllocError) -> Self {
        ExtraFault::Memory
    }
}
