//! The worked inputs of the tests, as texts, short lists, trees and rows. No crate uses it but in its tests.
#![tactic(auto)]

mod lists;
mod records;
mod trees;

pub use lists::{place, places, tables, texts};
pub use records::{Record, rows, thirteen};
pub use trees::{pairs, regions, tree, two_by_two, two_codes};
