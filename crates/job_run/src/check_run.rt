ghost use Rattle.std.specs.Prelude.{◌≢◌};
ghost use Rattle.job_run.specs.Checks.{IsCheckOf};
ghost use Rattle.job_run.specs.Reports.{FaultsHaveCauses, LeavesAll};

use crate::report::Report;
use job_check::{CheckStop, check_release};
use office_io::{Shelf, Tray};
use sdc_base::Text;
use std::alloc::Global;

/// Checks the release of a job; the tray is named for what is said of it alone.
pub(crate) fn check_job<S: Shelf, T: Tray>(
    alloc: Global,
    name: &Text,
    shelf: &mut S,
    tray: &mut T,
) -> Report
    ensures check { IsCheckOf name.now result (S.state shelf.old) (S.state shelf.new) (T.state tray.old)
        (T.state tray.new) }
    ensures untouched { LeavesAll result (T.state tray.old) (T.state tray.new) }
    ensures cause { FaultsHaveCauses result (S.state shelf.old) (S.state shelf.new) (T.state tray.old)
        (T.state tray.new) }
{
    match check_release(alloc, shelf, name) {
        Ok(()) => Report::Accepted,
        Err(CheckStop::Inputs(stop)) => Report::from(stop),
        Err(CheckStop::NotAccepted(why)) => Report::NotAccepted(why),
        Err(CheckStop::NotGuarded(why)) => Report::NotGuarded(why),
    }
}
