//! The least cube of a cell in a subtable: its corners, and the search for it.
#![tactic(auto)]

mod corners;
mod edges;
mod laws;
mod order;
mod pricing;
mod ranking;
mod search;
mod serving;

pub use laws::{cubes_are_whole, least_is_first};
pub use sdc_base::{Corner, Cube, Subtable};
pub use search::cheapest;
