ghost use Rattle.std.specs.Prelude.{◌≡◌, IfOk, length, map};
ghost use Rattle.job_lang.specs.JobLimits.{IsJob};
ghost use Rattle.job_inputs.specs.ReadFiles.{output_limit};
ghost use Rattle.job_inputs.specs.Reading.{IsValueReadFrom};
ghost use Rattle.job_inputs.specs.Tables.{names_of, tables_of, ComesToTables};

use crate::file_ref::FileRef;
use crate::loading::load;
use crate::stop::InputStop;
use job_lang::{Job, TableLine};
use office_io::Shelf;
use sdc_base::{Items, Memory, Text};
use std::alloc::Global;

/// The names in the first line of each table of a job, in the order of the tables.
///
/// They are those of the table's variables, as its line of the job has them, and that of the response. `Memory` is the
/// only refusal. The cost is the length of the names. The format is argus's own.
pub fn table_names(alloc: Global, job: &Job) -> Result<Items<Items<Text>>, Memory>
    ensures { IfOk result (λ names. names ≡ map names_of job.now.tables) }
{
    let mut names = Items::empty(alloc);
    'tables: for line in job.tables.as_slice() {
        names.push(header_for(alloc, line)?)?;
    }
    Ok(names)
}

/// The names in the first line of a table: those of its variables and that of the response.
///
/// `Memory` is the only refusal. The cost is the length of the names. The format is argus's own.
pub fn header_for(alloc: Global, line: &TableLine) -> Result<Items<Text>, Memory>
    ensures { IfOk result (λ header. header ≡ names_of line.now) }
{
    let mut header = Items::empty(alloc);
    'names: for name in line.variables.as_slice() {
        header.push(name.copy(alloc)?)?;
    }
    header.push(line.response.copy(alloc)?)?;
    Ok(header)
}

/// The bytes of the tables that stand under the names of a job, one text for each of its outputs and in their order.
///
/// The job is within its limits. The files are looked at in the order of the tables, each for Absent, then TooLong, and
/// the first fault is the answer; what the bytes say isn't looked at. Where the shelf fails at a file, the answer is
/// `ReadFault` with the file; want of memory is `Memory`. Each file is read whole, once. The order is argus's own.
pub fn read_tables<S: Shelf>(
    alloc: Global,
    shelf: &mut S,
    job: &Job,
) -> Result<Items<Text>, InputStop>
    requires { IsJob job.now }
    ensures { IsValueReadFrom (λ fs. tables_of fs job.now) (λ fs. ComesToTables fs job.now)
        (λ tables. length tables ≡ length job.now.outputs) output_limit result
        (S.state shelf.old) (S.state shelf.new) }
{
    let mut tables = Items::empty(alloc);
    'outputs: for (t, output) in job.outputs.as_slice().iter().enumerate() {
        let bytes = load(alloc, shelf, &output.file, FileRef::Table(t as u32))?;
        tables.push(Text::new(bytes))?;
    }
    Ok(tables)
}
