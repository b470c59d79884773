//! The texts of release tables.
#![tactic(auto)]

mod below;
mod choices;
mod csv_line;
mod laws;
mod lines;
mod numbers;
mod reading;
mod release;
mod release_fault;
mod sheet;
mod shown;
mod tables;

pub use laws::{hidden_sets_are_read_back, only_what_is_shown_enters, rounded_numbers_have_texts};
pub use release::{hidden_of, rounded_of};
pub use release_fault::ReleaseFault;
pub use shown::Shown;
pub use tables::table_bytes;
