//! The modular plan: which cells are hidden beside the primary ones, subtable by subtable.
#![tactic(auto)]

mod entry;
mod laws;
mod marking;
mod ordering;
mod planning;
mod subtables;
mod trails;

pub use laws::{no_depth_is_greater, steps_are_whole};
pub use planning::plan;
pub use trails::{passes_in, trail_for};
