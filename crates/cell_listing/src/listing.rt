ghost use Rattle.std.specs.Prelude.{◌≡◌, ◌<◌, IfOk, OnOk, length};
ghost use Rattle.sdc_base.specs.TableText.{line_text};
ghost use Rattle.release_writer.specs.Lines.{IsReadyWriter, AppendsText, bytes_written};
ghost use Rattle.job_inputs.specs.ClassifiedJobs.{IsReadyJob, IsSettledOf, SettledInputs};
ghost use Rattle.cell_listing.specs.ListedCells.{told_cells};
ghost use Rattle.cell_listing.specs.Givens.{AreFieldsAt};
ghost use Rattle.cell_listing.specs.Listings.{listing_text, lines_of, IsCellListing};
ghost use Rattle.cell_listing.specs.Columns as spec;

use crate::csv_line::{bytes_of, empty_writer, write_line};
use crate::fields::{ListingColumns, cell_fields, column_names};
use csv::Writer;
use job_inputs::ClassifiedJob;
use sdc_base::{Items, Memory, Text};
use std::alloc::Global;

/// The bytes of the listing of a job's cells: a line of the columns' names, and then a line for each cell, in the order
/// of their numbers.
///
/// A line has the cell's number, from 0, and the numbers of the tables that have it, from 1; the code of each variable
/// that spans the job's tables; the truth, the number of records and the two largest contributions; what kind of cell
/// it is, and which rules name it, or `u` where it is primary though none does; its levels, its price, and what an
/// attacker knows that it is at least and at most. Amounts are printed as a release table shows them. Each line ends in
/// LF, its fields have commas between them, and a field stands in quotes exactly where it has a comma, a quote, CR or
/// LF, with each quote inside doubled.
///
/// The job is one that [`read_settled`](job_inputs::read_settled) gives. Want of memory is the only refusal. It takes
/// one look at each cell for each table and each rule, and the length of the text.
///
/// What a listing has is what users of other tools look for first; its columns and their order are this project's own.
pub fn listing_for(alloc: Global, job: &ClassifiedJob) -> Result<Vec<u8>, Memory>
    requires ready { IsReadyJob job.now }
    ensures told { IfOk result (λ bytes. bytes.items
        ≡ listing_text job.now.described job.now.book.trees (told_cells job.now)) }
    ensures over_records { IfOk result (λ bytes. (settled : SettledInputs) → IsSettledOf settled job.now
        → IsCellListing settled bytes.items) }
{
    let mut writer = empty_writer(alloc);
    write_names(alloc, &mut writer, job)?;
    write_cells(alloc, &mut writer, job)?;
    bytes_of(writer)
}

// Writes the line of the columns' names.
fn write_names(
    alloc: Global,
    writer: &mut Writer<Vec<u8>>,
    job: &ClassifiedJob,
) -> Result<(), Memory>
    requires ready { IsReadyWriter writer.old }
    ensures ready { OnOk result (IsReadyWriter writer.new) }
    ensures text { OnOk result (AppendsText writer.old writer.new (line_text (spec.column_names job.now.described))) }
{
    let names = column_names(alloc, &job.described)?;
    write_line(writer, names.as_slice())
}

// Writes the lines of the cells.
fn write_cells(
    alloc: Global,
    writer: &mut Writer<Vec<u8>>,
    job: &ClassifiedJob,
) -> Result<(), Memory>
    requires writer { IsReadyWriter writer.old }
    requires ready { IsReadyJob job.now }
    ensures ready { OnOk result (IsReadyWriter writer.new) }
    ensures text { OnOk result (AppendsText writer.old writer.new
        (lines_of job.now.described job.now.book.trees (told_cells job.now))) }
{
    'cells: for number in 0..job.book.cells() {
        let fields = fields_at(alloc, job, number)?;
        write_line(writer, fields.as_slice())?;
    }
    Ok(())
}

/// All that stands in the line of the cell with this number.
pub(crate) fn fields_at(
    alloc: Global,
    job: &ClassifiedJob,
    number: u32,
) -> Result<Items<Text>, Memory>
    requires ready { IsReadyJob job.now }
    ensures at_least_two { IfOk result (λ fields. 1 < length fields) }
    ensures fields { IfOk result (AreFieldsAt job.now number) }
{
    // There is such a cell.
    let Some(name) = job.book.name(number) else {
        return Err(Memory);
    };
    let Some(mark) = job.book.marks().get(number as usize) else {
        return Err(Memory);
    };
    let Some(cell) = job.cells.as_slice().get(number as usize) else {
        return Err(Memory);
    };
    let given = ListingColumns {
        number,
        name: name.as_slice(),
        facts: &mark.facts,
        cell,
    };
    cell_fields(alloc, &job.described, &job.book, &given)
}
