//! How far a hidden cell can go in whole worlds, where the system has signs: hidden cells are arcs between relations,
//! and a question is how much can go round through one arc.
#![tactic(auto)]

mod answer;
mod circuit;
mod cut;
mod flows;
mod going;
mod rooms;
mod search;
mod steps;
mod task;
mod whole_world;

pub use answer::FlowAnswer;
pub use flows::flow;
