//! Cells, systems, hidden sets and truths of the worked inputs of the tests. No crate uses it but in its tests.
#![tactic(auto)]

mod cells;
mod systems;
mod tables;
mod truths;

pub use cells::{bounded_cell, cell_of, cell_within, shown_cell};
pub use systems::{hidden_of, system_of};
pub use tables::{LINKED, SHOWN_MARGINS, TWO_BY_TWO};
pub use truths::set_truth;
