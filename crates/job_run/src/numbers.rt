ghost use Rattle.std.specs.Prelude.{◌≡◌, ◌<◌, ◌^◌, length, filter};
ghost use Rattle.sdc_base.specs.Kinds as kinds;
ghost use Rattle.job_inputs.specs.ClassifiedJobs.{IsReadyJob, IsSettledOf, SettledInputs};
ghost use Rattle.job_run.specs.Releases.{summary_of};

use crate::report::Summary;
use job_inputs::ClassifiedJob;
use sdc_base::Cell;

/// The numbers of a job's release in which no cell is hidden.
pub(crate) fn unhidden_summary(job: &ClassifiedJob) -> Summary
    requires { IsReadyJob job.now }
    ensures { (settled : SettledInputs) → IsSettledOf settled job.now → result ≡ summary_of settled 0 }
{
    Summary {
        records: job.records,
        skipped: job.skipped,
        passed_over: job.described.meta.passed_over,
        cells: job.book.cells(),
        primary: primary_in(job.cells.as_slice()),
        hidden: 0,
    }
}

// How many cells are primary.
fn primary_in(cells: &[Cell]) -> u32
    requires { length cells.now < 2 ^ 32 }
    ensures { result ≡ length (filter (λ cell. kinds.is_primary cell.kind) cells.now) }
{
    cells.iter().filter(|cell| cell.kind.is_primary()).count() as u32
}
