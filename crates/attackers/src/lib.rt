//! Contributors as attackers: a contributor that alone makes up a cell knows it, and further cells are hidden against
//! that.
#![tactic(auto)]

mod accepting;
mod alone;
mod asking;
mod attack;
mod attempt;
mod collecting;
mod contributor_task;
mod extra;
mod falling;
mod faults;
mod guarding;
mod known;
mod laws;
mod lines;
mod meeting;
mod order;
mod row_candidates;
mod serving;
mod stopping;
mod trial;
mod trying;

pub use accepting::accept_extra;
pub use alone::soles;
pub use attack::{Attack, UnguardedAttack};
pub use certificate::{Extra, ExtraNeed, read_extra, write_extra};
pub use extra::{Against, GuardStop, Guarded};
pub use faults::ExtraFault;
pub use guarding::guard;
pub use laws::{every_attack_is_guarded, extra_has_text};
