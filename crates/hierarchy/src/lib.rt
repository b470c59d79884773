//! Trees of codes from the files of an office, and the lists of codes.
#![tactic(auto)]

mod code_list;
mod laws;
mod lead_form;

pub use code_list::read_codes;
pub use code_trees::{CodeTree, TreeFault, flat, from_levels, with_missing};
pub use laws::{lead_text_is_read, list_gives_its_codes};
pub use lead_form::from_lead;
