//! The network of a system whose relations have signs: each cell is an arc between two points, which are the relations
//! and the outside.
#![tactic(auto)]

mod arcs;
mod lists;
mod network;

pub use arcs::{Arc, is_same};
pub use lists::empty_lists;
pub use network::{Network, network_of};
