//! Records of microdata, read from bytes that come in pieces.
#![tactic(auto)]

mod closing;
mod codes;
mod faults;
mod feeding;
mod fields;
mod kept_rows;
mod laws;
mod layout;
mod numbers;
mod pieces;
mod reader;
mod record;
mod records;
mod taking;

pub use faults::{RowError, RowWhy};
pub use laws::{
    faults_are_numbered, faults_stand, order_changes_no_tree, read_is_within_limits,
    rows_are_at_leaves, rows_are_their_records,
};
pub use layout::{Field, Layout, NumberField, Source};
pub use pieces::read_pieces;
pub use reader::Reader;
pub use records::Records;
pub use sdc_base::Row;
