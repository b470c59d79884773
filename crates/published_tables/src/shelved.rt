ghost use Rattle.std.specs.Prelude.{IfOk};
ghost use Rattle.sdc_base.specs.WhereTold.{WhereTold};
ghost use Rattle.job_inputs.specs.Reading.{HasCause, ReachedFile};
ghost use Rattle.job_inputs.specs.ClassifiedJobs.{HasOnlyLookedOn};
ghost use Rattle.job_inputs.specs.SoundJobs.{AreSound};
ghost use Rattle.published_tables.specs.TablesOnShelf.{shelved_for, AreShelved, ComesFor, IsReadyShelved, IsShelvedOf, ShelvedTables as Tables};

use crate::out_name::check_out;
use job_inputs::{ClassifiedJob, InputStop, Purpose, read_settled, read_tables};
use office_io::Shelf;
use sdc_base::{Items, Text};
use std::alloc::Global;

/// A job with its settled inputs, and the bytes of the tables that stand under the names of its outputs.
#[derive(Drop)]
pub struct ShelvedJob {
    /// The job with its settled inputs.
    pub job: ClassifiedJob,
    /// The bytes of each table.
    pub tables: Items<Text>,
}

/// The settled inputs of the job of this name with its tables, read for a purpose whose file is to be put under the name
/// `out`. Both names may be any bytes.
///
/// The inputs are looked at first, in their order (`job_inputs::read_settled`); then `out` is refused with `OutName`
/// where a put would overwrite the job's file, a file that the job names, or a code list or hierarchy file of a variable
/// that spans a table; then the tables are read in their order. The first fault is the answer. The certificate isn't
/// looked at. Want of memory and a fault of the shelf may come at any time; the shelf is only read from.
///
/// It costs as much as reading the inputs and the tables. The order is argus's own.
pub fn read_shelved<S: Shelf>(
    alloc: Global,
    shelf: &mut S,
    name: &Text,
    out: &Text,
    purpose: Purpose,
) -> Result<ShelvedJob, InputStop>
    ensures told { WhereTold (S.state shelf.old).files (λ fs. AreShelved result (shelved_for purpose fs name.now out.now)) }
    ensures settled { IfOk result (λ job. (shelved : Tables) × IsShelvedOf shelved job
        × AreSound shelved.settled.inputs) }
    ensures ready { IfOk result IsReadyShelved }
    ensures came_to { WhereTold (S.state shelf.old).files
        (λ fs. ReachedFile (ComesFor purpose fs name.now out.now) result fs (S.state shelf.new)) }
    ensures shelf { HasOnlyLookedOn purpose name.now (S.state shelf.old) (S.state shelf.new) }
    ensures cause { HasCause result (S.state shelf.old) (S.state shelf.new) }
{
    let job = read_settled(alloc, shelf, name, purpose)?;
    check_out(name, out, &job.described)?;
    let tables = read_tables(alloc, shelf, &job.described.job)?;
    Ok(ShelvedJob { job, tables })
}
