ghost use Rattle.attackers.specs.ContributorTasks.{IsReadySet};

use crate::contributor_task::ContributorTask;
use certificate::WorldLine;
use sdc_base::Hidden;

/// An attempt to show an extra cell: what it would leave hidden, and the worlds that are kept.
#[derive(Drop)]
pub(crate) struct Attempt<'a, 'b> {
    pub(crate) task: &'b ContributorTask<'a>,
    /// The cell that is tried as shown.
    pub(crate) cell: u32,
    /// The hidden set without it.
    pub(crate) hidden: &'b Hidden,
    /// The worlds that are kept for attacks, with the cell hidden too.
    pub(crate) guards: &'b [WorldLine],
    ghost set: { IsReadySet task.now hidden.now.flags },
}
