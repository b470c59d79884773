//! What the office itself wants to see: a listing of the cells of a job's tables, one line for each, and one of the
//! relations between them.
#![tactic(auto)]

mod amounts;
mod asked;
mod calls;
mod cell_range;
mod csv_line;
mod fields;
mod hidden_cells;
mod interval_ends;
mod interval_file;
mod interval_listing;
mod interval_reading;
mod laws;
mod listed_relations;
mod listing;
mod outcome;
mod reading;
mod reasons;
mod relations_listing;
mod relations_reading;
mod released_cells;
mod released_listing;
mod released_reading;
mod stop;
mod tables_having;
mod words;

pub use asked::list_asked;
pub use calls::list_cells;
pub use interval_reading::list_intervals;
pub use laws::{listings_are_of_releases, prices_are_costs, reasons_are_true};
pub use listing::listing_for;
pub use reading::list_job;
pub use relations_listing::relations_listing_for;
pub use relations_reading::list_relations;
pub use released_listing::released_listing_for;
pub use released_reading::list_released;
pub use stop::{IntervalFault, ListingStop};
