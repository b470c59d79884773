ghost use Rattle.std.specs.Prelude.{◌≡◌, ◌+◌, ◌≤◌, ◌<◌, ◌^◌, ℕ, None, Ok, IfOk, length};
ghost use Rattle.certificate.specs.Certificates.{certificate_of};
ghost use Rattle.certificate.specs.Spelling.{IsSpellable};
ghost use Rattle.certificate.specs.Texts.{text_of};
ghost use Rattle.job_lang.specs.JobLimits.{IsMethod};
ghost use Rattle.job_inputs.specs.ClassifiedJobs.{IsReadyJob, IsSettledOf, SettledInputs};
ghost use Rattle.job_inputs.specs.TabulatedBooks.{IsBookOf};
ghost use Rattle.job_inputs.specs.declared.inputs.Inputs.{Inputs as AnyInputs};
ghost use Rattle.job_run.specs.Books.{CanBeReleased, IsHidingBook, job_of};
ghost use Rattle.job_run.specs.Endings.{ComesToRelease, JobComesToRelease};
ghost use Rattle.job_run.specs.FileCounts.{file_count};
ghost use Rattle.job_run.specs.Protections.{IsProtectedBook, IsProtectedJob};
ghost use Rattle.job_run.specs.Releases.{puts_of, shown_in, summary_of};
ghost use Rattle.job_run.specs.Roundings as roundings;

use crate::guarded::guarded_release;
use crate::numbers::unhidden_summary;
use crate::put::Release;
use crate::release_texts::puts_for;
use crate::report::{Report, Summary};
use crate::rounded::rounded_release;
use cell_protection::{ProtectionOutcome, protect_cells};
use certificate::Certificate;
use contributor_protection::ProtectedCells;
use job_inputs::{ClassifiedJob, DescribedJob, base_in_units};
use linked_tables::Book;
use relations::relations_of;
use release_writer::Shown;
use sdc_base::{Cell, Memory, Method, Row};
use std::alloc::Global;
use worlds::Protected;

/// The release of a job's settled cells, by its method: the cells are protected or rounded, and guarded where the job
/// names a file for contributors; and the certificate, that file and the tables are made, with the numbers of the
/// release. Else why there is none: a cell that can't be protected or guarded, that there is no rounding, a question or
/// a search that stopped short, or want of memory.
pub(crate) fn release_for(alloc: Global, job: ClassifiedJob) -> Result<Release, Report>
    requires { CanBeReleased job }
    ensures comes { (settled : SettledInputs) → IsSettledOf settled job → ComesToRelease settled result }
    ensures each_file { IfOk result (λ release. length release.puts ≡ file_count job.described.job) }
{
    match job_base(job.described.job.method, job.described.bound.decimals) {
        Some(base) => rounded_release(alloc, job, base),
        None => hiding_release(alloc, job),
    }
}

// The base to which a method rounds, in units of so many decimals; none where it hides.
fn job_base(method: Method, decimals: u8) -> Option<i128>
    requires method { IsMethod method }
    requires decimals { decimals ≤ 13 }
    ensures { result ≡ roundings.base_in_units method decimals }
{
    match method {
        Method::Rnd(_) => Some(base_in_units(method, decimals)),
        Method::Gh(_) => None,
        Method::Modular => None,
    }
}

// The release of a job that hides cells.
fn hiding_release(alloc: Global, job: ClassifiedJob) -> Result<Release, Report>
    requires can { CanBeReleased job }
    requires hides { roundings.job_base job.described ≡ None }
    ensures comes { (settled : SettledInputs) → IsSettledOf settled job → ComesToRelease settled result }
    ensures each_file { IfOk result (λ release. length release.puts ≡ file_count job.described.job) }
{
    let summary = unhidden_summary(&job);
    let ClassifiedJob {
        described,
        mut book,
        cells,
        rows,
        ..
    } = job;
    hide_parts(
        alloc,
        &described,
        &mut book,
        cells.as_slice(),
        rows.as_slice(),
        summary,
    )
}

// The same, with the parts of the job, and with its numbers as they are while no cell is hidden.
fn hide_parts(
    alloc: Global,
    described: &DescribedJob,
    book: &mut Book,
    cells: &[Cell],
    rows: &[Row],
    summary: Summary,
) -> Result<Release, Report>
    requires ready { IsReadyJob (job_of described.now book.old cells.now rows.now 0 0) }
    requires hides { roundings.job_base described.now ≡ None }
    ensures comes { (records skipped : ℕ)
        → JobComesToRelease (job_of described.now book.old cells.now rows.now records skipped) summary result }
    ensures each_file { IfOk result (λ release. length release.puts ≡ file_count described.now.job) }
{
    // for the proof: what holds of every book
    let _known = book.cells();
    let system = relations_of(alloc, book)?;
    let protection = protect_cells(
        alloc,
        book,
        &system,
        cells,
        described.job.method,
        described.job.cost,
        described.job.steps,
    )?;
    match protection {
        ProtectionOutcome::Protected {
            protected,
            certificate,
        } => {
            let protected_cells = ProtectedCells {
                book,
                rows,
                system: &system,
                cells,
                hidden_set: &protected,
            };
            protected_release(alloc, described, &protected_cells, certificate, summary)
        }
        ProtectionOutcome::Cannot(unprotected) => Err(Report::Cannot {
            cell: unprotected.cell,
            side: unprotected.side,
            multipliers: unprotected.multipliers,
        }),
        ProtectionOutcome::Undecided(stopped) => Err(Report::from(stopped)),
    }
}

// The release of a job whose cells a hidden set protects: guarded against contributors, where it names a file for them.
fn protected_release(
    alloc: Global,
    described: &DescribedJob,
    protected: &ProtectedCells<'_>,
    certificate: Certificate,
    summary: Summary,
) -> Result<Release, Report>
    requires protected { IsProtectedBook described.now protected.now certificate }
    ensures comes { (settled : SettledInputs) → IsProtectedJob settled described.now protected.now certificate
        → summary ≡ summary_of settled 0 → ComesToRelease settled result }
    ensures each_file { IfOk result (λ release. length release.puts ≡ file_count described.now.job) }
{
    match &described.job.contributors {
        Some(line) => {
            let name = line.file.copy(alloc)?;
            guarded_release(alloc, described, protected, name, certificate, summary)
        }
        None => {
            let release = suppressed_release(
                alloc,
                described,
                protected.book,
                protected.hidden_set,
                certificate,
                summary,
            )?;
            Ok(release)
        }
    }
}

// The release whose tables hide the cells of a set, with its certificate.
fn suppressed_release(
    alloc: Global,
    described: &DescribedJob,
    book: &Book,
    protected: &Protected<'_>,
    certificate: Certificate,
    summary: Summary,
) -> Result<Release, Memory>
    requires shown { IsHidingBook described.now book.now protected.now.hidden.flags }
    requires text { IsSpellable certificate }
    requires few { length certificate.hidden < 2 ^ 32 }
    ensures puts { IfOk result (λ release. (inputs : AnyInputs) → inputs.described ≡ described.now
        → IsBookOf inputs book.now
        → release.puts ≡ puts_of inputs (shown_in inputs protected.now.hidden.flags) certificate) }
    ensures each { IfOk result (λ release. length release.puts ≡ 1 + length described.now.job.tables) }
    ensures read_back { IfOk result (λ release. certificate_of (text_of certificate) ≡ Ok certificate) }
    ensures numbers { IfOk result
        (λ release. release.summary ≡ record summary { hidden = length certificate.hidden }) }
    ensures certificate { IfOk result (λ release. release.certificate ≡ certificate) }
{
    let shown = Shown::Hidden(protected.hidden());
    let puts = puts_for(alloc, described, book, shown, &certificate)?;
    let hidden = certificate.hidden.as_slice().len() as u32;
    Ok(Release {
        puts,
        summary: Summary { hidden, ..summary },
        certificate,
    })
}
