//! What becomes of settled cells: a hidden set that protects the primary ones, with its certificate, or why there is
//! none.
#![tactic(auto)]

mod certifying;
mod protection;

pub use protection::{ProtectionOutcome, protect_cells};
