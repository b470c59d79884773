//! Questions about hidden cells, asked of tables that are kept from one to the next, each answer checked before it is
//! given.
#![tactic(auto)]

mod answering;
mod component;
mod component_searches;
mod exact;
mod kept_answer;
mod kept_search;
mod labels;
mod left_over;
mod lists;
mod pair;
mod pair_read;
mod primary_search;
mod products;
mod questions;
mod reach_check;
mod scope;
mod sides;
mod stop_check;
mod terms;
mod unfit;

pub use answering::checked_answer;
pub use kept_answer::KeptAnswer;
pub use questions::KeptQuestions;
