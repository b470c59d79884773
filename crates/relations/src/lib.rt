//! The relations between the cells of linked tables, the connected parts of a hidden set with their relations, and
//! signs for the relations.
#![tactic(auto)]

mod below;
mod having;
mod laws;
mod relating;

pub use laws::{one_or_two_way_has_signs, one_variable_has_signs, two_flat_variables_have_signs};
pub use relating::relations_of;
pub use sdc_base::{Grouping, components, rows_of, signs};
