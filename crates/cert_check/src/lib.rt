//! Whether a certificate shows that a release is protected, or that it is rounded.
#![tactic(auto)]

mod accepting;
mod case;
mod certifying;
mod counting;
mod faults;
mod hiding;
mod laws;
mod lines;
mod methods;
mod needing;
mod numbering;
mod outside;
mod release;
mod repairing;
mod rounded;
mod steps;

pub use accepting::accept;
pub use case::Case;
pub use certifying::accept_certificate;
pub use faults::CheckFault;
pub use laws::{lines_differ, protected_is_accepted, rounding_is_judged};
pub use release::check_tables;
