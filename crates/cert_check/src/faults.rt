use release_writer::ReleaseFault;
use sdc_base::{Memory, Side};
use std::alloc::AllocError;
use worlds::{RefutationFault, WorldFault};

/// Why a certificate isn't accepted: its first fault in this order, or want of memory. Places are counted from 0.
#[derive(Clone, Copy, Debug, PartialEq, Eq)]
pub enum CheckFault {
    /// A count is another, or a number names no cell.
    Counts,
    /// The method is another, or that of a rounded release lists something.
    Method,
    /// This primary cell is shown.
    PrimaryShown(u32),
    /// This fixed cell is hidden.
    FixedHidden(u32),
    /// The first line of a table that isn't as the certificate says.
    Release {
        /// The table, from 0.
        table: u32,
        /// The line, from 1.
        line: u32,
    },
    /// The step at this place isn't the trail's.
    Step(u32),
    /// The subject of the repair at this place isn't free, is hidden already, or doesn't count in its refutation.
    RepairCell(u32),
    /// The repair at this place has no refutation.
    Repair(u32, RefutationFault),
    /// This hidden cell is neither primary, nor a corner of the trail, nor repaired.
    Outside(u32),
    /// The world at this place is for another cell or side, or is missing, or one too many.
    WorldCell(u32),
    /// The world at this place isn't one.
    World(u32, WorldFault),
    /// The world for this cell and side doesn't move it by its level.
    NotReached(u32, Side),
    /// The need at this place is of another cell, or is missing, or one too many.
    NeedCell(u32),
    /// The need at this place has no refutation.
    Need(u32, RefutationFault),
    /// This cell isn't rounded to the base.
    Rounded(u32),
    /// This relation doesn't hold on the rounded numbers.
    Relation(u32),
    /// There was no memory.
    Memory,
}

impl From<Memory> for CheckFault {
    ghost use Rattle.std.specs.Prelude.{◌≡◌};
    ghost use Rattle.cert_check.specs.declared.faults.CheckFault.TheVariants as fault;

    ghost from_gives = { λ _ e. e ≡ fault.Memory };

    fn from(_: Memory) -> Self {
        CheckFault::Memory
    }
}

impl From<AllocError> for CheckFault {
    ghost use Rattle.std.specs.Prelude.{◌≡◌};
    ghost use Rattle.cert_check.specs.declared.faults.CheckFault.TheVariants as fault;

    ghost from_gives = { λ _ e. e ≡ fault.Memory };

    fn from(_: AllocError) -> Self {
        CheckFault::Memory
    }
}

impl From<ReleaseFault> for CheckFault {
    ghost use Rattle.std.specs.Prelude.{◌≡◌};
    ghost use Rattle.cert_check.specs.RoundedRelease.{fault_for};

    ghost from_gives = { λ fault e. e ≡ fault_for fault };

    fn from(fault: ReleaseFault) -> Self {
        match fault {
            ReleaseFault::At { table, line } => CheckFault::Release { table, line },
            ReleaseFault::Memory => CheckFault::Memory,
        }
    }
}
