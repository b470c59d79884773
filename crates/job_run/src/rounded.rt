ghost use Rattle.std.specs.Prelude.{◌≡◌, ◌+◌, Some, IfOk, length, map};
ghost use Rattle.certificate.specs.Laws.{without_hidden_cells};
ghost use Rattle.job_inputs.specs.ClassifiedJobs.{IsSettledOf, SettledInputs};
ghost use Rattle.job_run.specs.Books.{CanBeReleased};
ghost use Rattle.job_run.specs.Endings.{ComesToRelease};
ghost use Rattle.job_run.specs.Roundings as roundings;

use crate::numbers::unhidden_summary;
use crate::put::Release;
use crate::release_texts::puts_for;
use crate::report::Report;
use crate::reporting::search_report;
use certificate::Certificate;
use job_inputs::ClassifiedJob;
use relations::relations_of;
use release_writer::Shown;
use rounding::round;
use sdc_base::{Cell, Items, Memory, Method, System};
use std::alloc::Global;

/// The release of a job that rounds to this base, in units: the cells show a rounding of their truths, and none is
/// hidden.
pub(crate) fn rounded_release(
    alloc: Global,
    job: ClassifiedJob,
    base: i128,
) -> Result<Release, Report>
    requires can { CanBeReleased job }
    requires rounds { roundings.job_base job.described ≡ Some base }
    ensures comes { (settled : SettledInputs) → IsSettledOf settled job → ComesToRelease settled result }
    ensures one_more_than_tables { IfOk result (λ release. length release.puts ≡ 1 + length job.described.job.tables) }
{
    round_job(alloc, &job, base)
}

// The same, of a job that is lent.
fn round_job(alloc: Global, job: &ClassifiedJob, base: i128) -> Result<Release, Report>
    requires can { CanBeReleased job.now }
    requires rounds { roundings.job_base job.now.described ≡ Some base }
    ensures comes { (settled : SettledInputs) → IsSettledOf settled job.now → ComesToRelease settled result }
    ensures one_more_than_tables { IfOk result
        (λ release. length release.puts ≡ 1 + length job.now.described.job.tables) }
{
    let summary = unhidden_summary(job);
    // for the proof: what holds of every book
    let _known = job.book.cells();
    let system = relations_of(alloc, &job.book)?;
    let truths = truths_of(alloc, job.cells.as_slice())?;
    let nodes = job.described.job.nodes;
    let rounding = match round(alloc, &system, truths.as_slice(), base, nodes) {
        Ok(rounding) => rounding,
        Err(fault) => return Err(search_report(alloc, fault)),
    };
    let values = rounding.values();
    let shown = Shown::Rounded(values);
    let certificate = empty_certificate(alloc, job.described.job.method, &system);
    let puts = puts_for(alloc, &job.described, &job.book, shown, &certificate)?;
    Ok(Release {
        puts,
        summary,
        certificate,
    })
}

// The truth of each cell.
fn truths_of(alloc: Global, cells: &[Cell]) -> Result<Items<i128>, Memory>
    ensures { IfOk result (λ truths. truths ≡ map (λ cell. cell.truth) cells.now) }
{
    let mut truths = Items::empty(alloc);
    'cells: for cell in cells {
        truths.push(cell.truth)?;
    }
    Ok(truths)
}

// The certificate of a release that hides no cell.
fn empty_certificate(alloc: Global, method: Method, system: &System) -> Certificate
    ensures { result ≡ without_hidden_cells method system.now.cells (length system.now.relations) }
{
    Certificate {
        method,
        cells: system.cells,
        relations: system.relations.as_slice().len() as u32,
        hidden: Items::empty(alloc),
        steps: Items::empty(alloc),
        repairs: Items::empty(alloc),
        needs: Items::empty(alloc),
        worlds: Items::empty(alloc),
    }
}
