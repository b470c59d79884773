//! Trees of codes, and the forms that need no file: the flat one, and codes that have their levels in their digits.
#![tactic(auto)]

mod code_set;
mod code_tree;
mod entries;
mod flat_form;
mod growing;
mod laws;
mod level_code;
mod level_form;
mod missing_codes;
mod tree_fault;

pub use code_set::CodeSet;
pub use code_tree::CodeTree;
pub use entries::Nodes;
pub use flat_form::flat;
pub use growing::{add, total_alone};
pub use laws::{flat_is_in_order, missing_stand_last};
pub use level_code::{add_prefixes, begins_with_total, has_blank};
pub use level_form::from_levels;
pub use missing_codes::with_missing;
pub use tree_fault::TreeFault;
