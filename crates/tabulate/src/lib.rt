//! Records given to the cells of linked tables.
#![tactic(auto)]

mod adding;
mod folding;
mod placing;
mod reading;
mod tabulating;

pub use sdc_base::TopList;
pub use tabulating::tabulate;
