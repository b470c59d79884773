//! A search for complete tables by a compact simplex table that is kept from question to question.
#![tactic(auto)]

mod aiming;
mod amounts;
mod bound_change;
mod bounds;
mod component;
mod divisor;
mod entering;
mod entry;
mod found;
mod leaving_out;
mod lexical;
mod lists;
mod lists_read;
mod merge;
mod multipliers_read;
mod pivot;
mod ratio;
mod returning;
mod row;
mod search;
mod start;
mod stepping;
mod table;
mod taking_over;
mod variable;
mod walk;
mod without_slacks;
mod world_read;

pub use found::{Found, Stop};
pub use lists::{ListPlace, ListTerm, MoveList, MoveLists};
pub use search::CompactSearch;
