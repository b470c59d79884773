ghost use Rattle.std.specs.Prelude.{◌≢◌};
ghost use Rattle.job_run.specs.IntervalRuns.{IsIntervalRunOf};
ghost use Rattle.job_run.specs.Reports.{FaultsHaveCauses, LeavesAll};

use crate::report::Report;
use crate::reporting::question_report;
use job_inputs::FileRef;
use office_io::{PutFault, Shelf, Tray};
use published_tables::{TableStop, find_intervals};
use sdc_base::Text;
use std::alloc::Global;

/// Puts the intervals of the cells that the tables of a job hide, under the name `out`.
pub(crate) fn put_intervals<S: Shelf, T: Tray>(
    alloc: Global,
    name: &Text,
    out: &Text,
    shelf: &mut S,
    tray: &mut T,
) -> Report
    ensures intervals { IsIntervalRunOf name.now out.now result (S.state shelf.old) (S.state shelf.new)
        (T.state tray.old) (T.state tray.new) }
    ensures untouched { LeavesAll result (T.state tray.old) (T.state tray.new) }
    ensures cause { FaultsHaveCauses result (S.state shelf.old) (S.state shelf.new) (T.state tray.old)
        (T.state tray.new) }
{
    match find_intervals(alloc, shelf, name, out) {
        Ok(file) => match tray.put(out, file.bytes.as_slice()) {
            Ok(()) => Report::Intervals(file.cells),
            Err(PutFault::Failed) => Report::WriteFault(FileRef::Out),
            Err(PutFault::Memory) => Report::Memory,
        },
        Err(TableStop::Inputs(stop)) => Report::from(stop),
        Err(TableStop::NotAccepted(why)) => Report::NotAccepted(why),
        Err(TableStop::Undecided(fault)) => question_report(alloc, fault),
    }
}
