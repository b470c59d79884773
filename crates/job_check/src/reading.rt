ghost use Rattle.std.specs.Prelude.{IfOk};
ghost use Rattle.job_check.specs.Accepted.{IsReadOf};
ghost use Rattle.job_check.specs.Reading.{AreReleased, ReleaseComesTo, IsReadyRelease};
ghost use Rattle.job_check.specs.ReleaseFiles.{released_of};
ghost use Rattle.job_inputs.specs.ReadFiles.{output_limit};
ghost use Rattle.job_inputs.specs.Reading.{ReadsFiles};
ghost use Rattle.job_inputs.specs.ClassifiedJobs.{HasOnlyLookedOn};

use crate::contributors::read_extra_cells;
use certificate::{Certificate, Extra};
use job_inputs::{
    ClassifiedJob, InputStop, Purpose, read_certificate_file, read_settled, read_tables,
};
use office_io::Shelf;
use sdc_base::{Items, Text};
use std::alloc::Global;

/// A job with its settled cells, and the certificate, the extra cells where the job names a file of them, and the tables
/// that stand under its names.
#[derive(Drop)]
pub struct ReadRelease {
    pub job: ClassifiedJob,
    pub certificate: Certificate,
    pub extra: Option<Extra>,
    pub tables: Items<Text>,
}

/// The inputs of the job of this name up to its settled cells, then its certificate, its extra cells and its tables, from
/// the shelf.
pub(crate) fn read_release<S: Shelf>(
    alloc: Global,
    shelf: &mut S,
    name: &Text,
) -> Result<ReadRelease, InputStop>
    ensures looked { ReadsFiles (λ fs answer. AreReleased answer (released_of fs name.now))
        (λ fs. ReleaseComesTo fs name.now) IsReadyRelease output_limit result (S.state shelf.old) (S.state shelf.new) }
    // Past the inputs only where these have no fault.
    ensures shelf { HasOnlyLookedOn Purpose.Release name.now (S.state shelf.old) (S.state shelf.new) }
    // Of a shelf that tells nothing too.
    ensures released { IfOk result IsReadOf }
{
    let job = read_settled(alloc, shelf, name, Purpose::Release)?;
    let certificate = read_certificate_file(alloc, shelf, &job.described.job.certificate)?;
    let extra = read_extra_cells(alloc, shelf, &job.described.job.contributors)?;
    let tables = read_tables(alloc, shelf, &job.described.job)?;
    Ok(ReadRelease {
        job,
        certificate,
        extra,
        tables,
    })
}
