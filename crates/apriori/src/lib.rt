//! What an office knows of its cells beforehand, and what each cell is to its protection.
#![tactic(auto)]

mod applying;
mod faults;
mod fields;
mod keyword;
mod laws;
mod noting;
mod numbers;
mod prior;
mod reading;
mod settled;
mod settling;
mod statement;

pub use applying::apply;
pub use faults::{PriorError, PriorWhy};
pub use laws::order_changes_nothing;
pub use prior::{Prior, Status, blank_priors};
pub use settling::settle;
