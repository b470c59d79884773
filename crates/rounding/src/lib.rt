//! Controlled rounding: each cell at a multiple of a base next to its truth, so that tables still add up.
#![tactic(auto)]

mod bounds;
mod cycles;
mod fault;
mod forcing;
mod forms;
mod laws;
mod naming;
mod neighbours;
mod numbers;
mod partial;
mod rounding;
mod search;
mod steps;
mod underway;
mod walk;

pub use fault::RoundFault;
pub use laws::{extremes_are_bounds, search_is_in_order};
pub use rounding::{Rounding, round};
