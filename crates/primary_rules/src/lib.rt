//! The primary rules: which cells disclose a contributor, and how far each must then be open.
#![tactic(auto)]

mod laws;
mod levels;
mod naming;
mod quotient;

pub use laws::{
    further_is_not_named, kept_are_enough, levels_are_greatest, names_where_disclosing,
    none_where_none_names, prior_posterior_of_hundred, rounding_is_least, stricter_lowers_none,
    units_change_no_naming,
};
pub use levels::{keep, level, manual};
pub use sdc_base::{Rule, Rules};
