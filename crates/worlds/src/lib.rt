//! Whether a complete table, or a refutation, is what it is said to be, and hidden sets that are known to protect.
#![tactic(auto)]

mod adding;
mod faults;
mod listed;
mod moves;
mod multipliers;
mod pattern;
mod permitted;
mod products;
mod protected;
mod protection;
mod refutation_check;
mod refuted;
mod relations;
mod shares;
mod sums;
mod world;
mod world_check;

pub use faults::{ProtectFault, RefutationFault, WorldFault};
pub use multipliers::Multipliers;
pub use pattern::Pattern;
pub use permitted::{hidden_fixed, shown_primary};
pub use protected::Protected;
pub use refutation_check::{bound_sum, check_refutation};
pub use refuted::Refuted;
pub use world::{Move, World};
pub use world_check::{check_world, reaches};
