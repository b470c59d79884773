use sdc_base::Memory;
use std::alloc::{AllocError, AllocFailed};
use thiserror::Error;

/// Why codes make no tree, with the number of the line or of the code, from 1. In a line or an entry the
/// causes are looked for in this order, and `Memory` is want of memory alone. `from_lead` gives all but `Blank`;
/// `from_levels` gives `Blank`, `IsTotal`, `Twice`, `TooMany`; `flat` the last three of these; `with_missing`
/// `IsTotal` and `TooMany`; `read_codes` `TooMany`; each can give `Memory`.
#[derive(Clone, Copy, Debug, PartialEq, Eq, Error)]
pub enum TreeFault {
    /// A line has a lead and no code.
    #[error("line {0} has no code")]
    NoCode(u32),
    /// A line is more than one level deeper than the line before, or a first line has a lead.
    #[error("line {0} is more than one level deeper than the line before")]
    Jump(u32),
    /// A line is at the tenth level.
    #[error("line {0} is deeper than nine levels")]
    TooDeep(u32),
    /// A code by levels has a blank inside.
    #[error("code {0} has a blank inside")]
    Blank(u32),
    /// A code is the total, or by levels a prefix of it is.
    #[error("code {0} is the total")]
    IsTotal(u32),
    /// An earlier line or entry has the same code.
    #[error("code {0} stands twice")]
    Twice(u32),
    /// With this code there are more than 5,000 besides the total.
    #[error("code {0} is one too many")]
    TooMany(u32),
    /// There was no memory.
    #[error("out of memory")]
    Memory,
}

impl From<Memory> for TreeFault {
    ghost use Rattle.std.specs.Prelude.{◌≡◌};
    ghost use Rattle.code_trees.specs.declared.tree_fault.TreeFault.TheVariants as fault;

    ghost from_gives = { λ _ e. e ≡ fault.Memory };

    fn from(_error: Memory) -> TreeFault {
        TreeFault::Memory
    }
}

impl From<AllocError> for TreeFault {
    ghost use Rattle.std.specs.Prelude.{◌≡◌};
    ghost use Rattle.code_trees.specs.declared.tree_fault.TreeFault.TheVariants.{Memory};

    ghost from_gives = { λ _ e. e ≡ Memory };

    fn from(_error: AllocError) -> TreeFault {
        TreeFault::Memory
    }
}

impl<T: Drop> From<AllocFailed<T>> for TreeFault {
    ghost use Rattle.std.specs.Prelude.{◌≡◌};
    ghost use Rattle.code_trees.specs.declared.tree_fault.TreeFault.TheVariants.{Memory};

    ghost from_gives = { λ _ e. e ≡ Memory };

    fn from(_error: AllocFailed<T>) -> TreeFault {
        TreeFault::Memory
    }
}
