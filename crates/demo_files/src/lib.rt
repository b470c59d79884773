//! The files of the demonstration: a job of two linked tables, and a survey that is made from a seed.
#![tactic(auto)]

mod draws;
mod files;
mod steady;
mod survey;

pub use files::demo_files;
pub use steady::{SteadyShelf, SteadyTray};
