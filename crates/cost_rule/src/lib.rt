//! What it costs to hide a cell: the office's rule, a closure kept beside what is known of it.
#![tactic(auto)]

mod kind;
mod stored;
mod tells;

pub use kind::CostKind;
pub use stored::CostRule;
pub use tells::TellsCosts;
