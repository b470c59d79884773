//! How far worlds can move a hidden cell: exact questions to a linear problem of its component.
#![tactic(auto)]

mod answer;
mod asking;
mod checking;
mod ends;
mod entries;
mod finish;
mod group;
mod inquiry;
mod laws;
mod lowest_terms;
mod problem;
mod question;
mod readings;
mod rows;
mod signed_system;
mod terms;

pub use answer::{Answer, AskFault, Walk, WidePlace};
pub use asking::ask;
pub use ends::{TwoEnds, end_question, interval, signed_interval};
pub use finish::move_of;
pub use group::{is_in, members_of, met_by};
pub use laws::{answer_is_one, components_exist, move_pair_stops, question_laws};
pub use problem::problem_of;
pub use question::Question;
pub use readings::lowest_multipliers;
pub use signed_system::SignedSystem;
