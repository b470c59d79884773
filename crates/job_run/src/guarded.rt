ghost use Rattle.std.specs.Prelude.{◌≡◌, ◌<◌, ◌^◌, Some, option_map, IfOk, length};
ghost use Rattle.job_inputs.specs.ClassifiedJobs.{SettledInputs};
ghost use Rattle.job_run.specs.Endings.{ComesToRelease};
ghost use Rattle.job_run.specs.FileCounts.{file_count};
ghost use Rattle.job_run.specs.GuardedReleases as releases;
ghost use Rattle.job_run.specs.Protections.{IsProtectedBook, IsProtectedJob};
ghost use Rattle.job_run.specs.Releases.{summary_of};

use crate::guarded_texts::guarded_puts;
use crate::put::Release;
use crate::report::{Report, Summary};
use certificate::Certificate;
use contributor_protection::{ProtectedCells, guard_cells};
use job_inputs::DescribedJob;
use sdc_base::Text;
use std::alloc::Global;

/// The release of a job whose cells a hidden set protects, guarded against contributors, whose file has this name.
pub(crate) fn guarded_release(
    alloc: Global,
    described: &DescribedJob,
    protected: &ProtectedCells<'_>,
    name: Text,
    certificate: Certificate,
    summary: Summary,
) -> Result<Release, Report>
    requires protected { IsProtectedBook described.now protected.now certificate }
    requires named { option_map (λ line. line.file) described.now.job.contributors ≡ Some name }
    ensures comes { (settled : SettledInputs) → IsProtectedJob settled described.now protected.now certificate
        → summary ≡ summary_of settled 0 → ComesToRelease settled result }
    ensures each_file { IfOk result (λ release. length release.puts ≡ file_count described.now.job) }
{
    let cost = described.job.cost;
    let guarded = guard_cells(alloc, protected, certificate, cost, described.job.steps)?;
    let puts = guarded_puts(alloc, described, protected.book, name, &guarded)?;
    let hidden = count_hidden(guarded.hidden.flags.as_slice());
    Ok(Release {
        puts,
        summary: Summary { hidden, ..summary },
        certificate: guarded.certificate,
    })
}

// How many cells a set hides.
fn count_hidden(flags: &[bool]) -> u32
    requires { length flags.now < 2 ^ 32 }
    ensures { result ≡ releases.count_hidden flags.now }
{
    flags.iter().filter(|flag| **flag).count() as u32
}
