//! Protection: hides cells until every primary cell is open to both sides by its levels, and shows those that needn't
//! be hidden.
#![tactic(auto)]

mod asking;
mod attempt;
mod cheapest;
mod last_worlds;
mod laws;
mod planned;
mod prices;
mod progress;
mod protecting;
mod questions;
mod renewing;
mod serving;
mod step;
mod stopped;
mod task;
mod trial;
mod trials;
mod trying;
mod unprotected_cell;
mod verdict;

pub use asking::{LevelQuestion, ask_level, questions_about, widen_questions};
pub use cheapest::find_cheapest;
pub use laws::{open_set_holds, questions_are_in_order, stopped_are_given};
pub use planned::{hide_subjects, planned_hidden};
pub use prices::list_prices;
pub use progress::Progress;
pub use protecting::protect;
pub use questions::questions_of;
pub use serving::level_question;
pub use step::Step;
pub use stopped::Stopped;
pub use trials::Trials;
pub use trying::is_free_at;
pub use unprotected_cell::UnprotectedCell;
pub use verdict::Verdict;
