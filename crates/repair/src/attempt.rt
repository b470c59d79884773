ghost use Rattle.repair.specs.Attempts.{IsPermittedSet};
ghost use Rattle.repair.specs.Tasks.{case_of};

use crate::task::Task;
use sdc_base::Hidden;
use worlds::World;

/// An attempt to show a hidden cell: the hidden set without it, and the worlds that are kept for the questions.
#[derive(Drop)]
pub(crate) struct Attempt<'a, 'b, 'c> {
    pub(crate) task: &'c Task<'a, 'b>,
    pub(crate) cell: u32,
    pub(crate) hidden: &'c Hidden,
    pub(crate) worlds: &'c [World],
    ghost set: { IsPermittedSet (case_of task.now) hidden.now.flags },
}
