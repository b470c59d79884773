//! What a reader of released tables can find out of each hidden cell: the interval of its values, and the file of all
//! intervals; and the searches that find the ends of intervals.
#![tactic(auto)]

mod ends;
mod grouping;
mod interval;
mod intervals;
mod laws;
mod ratio;
mod search;
mod texts;

pub use ends::interval_from;
pub use interval::{CellInterval, UpperEnd};
pub use intervals::intervals_of;
pub use laws::{file_is_one, size_is_large};
pub use ratio::Ratio;
pub use search::EndSearch;
pub use texts::{interval_text, ratio_text};
