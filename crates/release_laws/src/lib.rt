//! What holds of releases and of the check that judges them: what a run has put is accepted, and inputs are judged in
//! one way.
#![tactic(auto)]

mod laws;

pub use laws::{
    guarded_is_accepted, inputs_are_judged_in_one_way, rounded_is_accepted, runs_are_accepted,
    written_is_accepted,
};
