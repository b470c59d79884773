ghost use Rattle.std.specs.Prelude.{◌≡◌, ◌<◌, ◌^◌, false, length, IfSome, OnOk};
ghost use Rattle.attackers.specs.Alone.{TellFrequencies};
ghost use Rattle.cert_check.specs.Cases.{IsCase};
ghost use Rattle.cert_check.specs.Methods.{rounds_cells};
ghost use Rattle.job_inputs.specs.ClassifiedJobs.{SettledInputs as AnyInputs};
ghost use Rattle.job_check.specs.Accepted.{IsSameRelease};
ghost use Rattle.job_check.specs.Answers.{IsJudgementOf};
ghost use Rattle.job_check.specs.Cases.{IsCaseOf};
ghost use Rattle.job_check.specs.Reading.{IsReadyRelease, IsReleasedOf};
ghost use Rattle.job_check.specs.ReleaseFiles.{ReleasedFiles as AnyReleased, released_with};

use crate::guarded::accept_guarded;
use crate::reading::ReadRelease;
use crate::stop::CheckStop;
use attackers::soles;
use cert_check::{Case, accept};
use certificate::{Certificate, Extra};
use job_inputs::{base_in_units, table_names};
use modular_plan::trail_for;
use relations::relations_of;
use sdc_base::{Row, Text};
use std::alloc::Global;

/// Whether the certificate of a release shows that its tables are protected, or rounded, as the job wants, and whether
/// its extra cells guard against contributors where the job names a file of them: the first fault, if there is one, for
/// the case of the job's settled cells.
///
/// Afterwards the marks of the book may say that other cells are hidden; all else stays.
pub(crate) fn judge(alloc: Global, read: &mut ReadRelease) -> Result<(), CheckStop>
    requires { IsReadyRelease read.old }
    ensures judged { (released : AnyReleased) → IsReleasedOf released read.old → IsJudgementOf released result }
    ensures same { OnOk result (IsSameRelease read.old read.new) }
{
    let job = &mut read.job;
    let system = relations_of(alloc, &job.book)?;
    let method = job.described.job.method;
    let cost = job.described.job.cost;
    let trail = trail_for(alloc, &mut job.book, job.cells.as_slice(), method, cost)?;
    let names = table_names(alloc, &job.described.job)?;
    let decimals = job.described.bound.decimals;
    let case = Case {
        book: &job.book,
        system: &system,
        cells: job.cells.as_slice(),
        trail: &trail,
        method,
        base: base_in_units(method, decimals),
        names: names.as_slice(),
        decimals,
    };
    judge_case(
        alloc,
        &case,
        job.rows.as_slice(),
        &read.certificate,
        &read.extra,
        read.tables.as_slice(),
    )
}

// The first fault of a release for a case with its records.
fn judge_case(
    alloc: Global,
    case: &Case<'_>,
    rows: &[Row],
    certificate: &Certificate,
    extra: &Option<Extra>,
    tables: &[Text],
) -> Result<(), CheckStop>
    requires is_case { IsCase case.now tables.now }
    requires hides { IfSome extra.now (λ one. rounds_cells case.now.method ≡ false) }
    requires told { TellFrequencies case.now.book.now rows.now }
    requires fewer_than_2_32 { length rows.now < 2 ^ 32 }
    ensures { (settled : AnyInputs) → IsCaseOf settled case.now → rows.now ≡ settled.inputs.records.rows
        → IsJudgementOf (released_with settled certificate.now extra.now tables.now) result }
{
    match extra {
        Some(extra) => {
            let soles = soles(alloc, case.book, rows)?;
            accept_guarded(alloc, case, &soles, tables, certificate, extra)
        }
        None => {
            accept(alloc, case, tables, certificate)?;
            Ok(())
        }
    }
}
