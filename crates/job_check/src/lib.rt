//! Whether the release that stands under a job's names is the job's: `check JOB`.
#![tactic(auto)]

mod checking;
mod contributors;
mod guarded;
mod judging;
mod reading;
mod stop;

pub use checking::{accepted_release, check_release};
pub use reading::ReadRelease;
pub use stop::CheckStop;
