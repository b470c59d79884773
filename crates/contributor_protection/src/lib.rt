//! Protected cells, guarded against the contributors that alone make up some of them.
#![tactic(auto)]

mod guarding;
mod shown_again;

pub use guarding::{GuardFailure, GuardedCells, ProtectedCells, guard_cells};
