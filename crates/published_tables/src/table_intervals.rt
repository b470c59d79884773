ghost use Rattle.std.specs.Prelude.{◌≡◌, length};
ghost use Rattle.sdc_base.specs.WhereTold.{WhereTold};
ghost use Rattle.job_inputs.specs.Reading.{HasCause, ReachedFile};
ghost use Rattle.job_inputs.specs.ClassifiedJobs.{HasOnlyLookedOn};
ghost use Rattle.published_tables.specs.TableFiles.{ComesFrom, IsTablesAnswer, IsAnswerOfSome};
ghost use Rattle.published_tables.specs.TableIntervals.{intervals_of_tables};
ghost use Rattle.published_tables.specs.TableStops.{reading_of};
ghost use Rattle.published_tables.specs.TablesOnShelf.{shelved_of, IntervalsComeTo, IsReadyShelved};

use crate::hidden_lines::hidden_in;
use crate::interval_file::IntervalFile;
use crate::shelved::{ShelvedJob, read_shelved};
use crate::table_stop::TableStop;
use cell_intervals::{interval_text, intervals_of, size_is_large};
use job_inputs::Purpose;
use office_io::Shelf;
use relations::relations_of;
use sdc_base::{Hidden, Text};
use std::alloc::Global;

/// The file of intervals of the cells that the tables of a job hide, to be put under the name `out`: for each such
/// cell, in ascending order of the cells' numbers, the least and the greatest value that a complete table gives it, of
/// all that agree with the shown cells, the relations and the bounds.
///
/// `name` is the name of the job, `out` that of the file to be put; both may be any bytes. The inputs of the job are
/// read for intervals, in their order (`job_inputs::read_settled`); then `out` is refused where a put would overwrite
/// the job's file, a file that the job names, or a code list or hierarchy file of a variable that spans a table; then
/// the tables that stand under the names of the job's outputs are read. The certificate isn't looked at.
///
/// The refusals, in this order: `Inputs` with the first fault of the inputs, of the name `out` or of the files of
/// tables, or with a fault of the shelf; `NotAccepted` with `Release` and the first line that the texts of no hidden
/// set have, or with `FixedHidden` and the first fixed cell that is hidden; `Undecided` with the fault of the first
/// question that has no answer. A primary cell that is shown is no fault. Want of memory is that of the inputs, and may
/// come at any time. Nothing is put, and the shelf is only read from.
///
/// Over a shelf that tells nothing of its files, that a file is absent, that one is too long and a fault of the shelf
/// have their cause in its counts.
///
/// It costs as much as reading the inputs and the tables, at most two lines of text for each place of the tables, and
/// two questions for each hidden cell, each of at most as many improvements as the job's steps.
///
/// The interval is the feasibility interval in Hundepool et al., Statistical Disclosure Control, chapter on magnitude
/// tables; the order in which the files are looked at and the format of the file are argus's own.
pub fn find_intervals<S: Shelf>(
    alloc: Global,
    shelf: &mut S,
    name: &Text,
    out: &Text,
) -> Result<IntervalFile, TableStop>
    // The answer is what the told files come to: the first fault of inputs, name and tables' files, or else what the
    // tables come to.
    ensures told { WhereTold (S.state shelf.old).files
        (λ fs. IsTablesAnswer intervals_of_tables (shelved_of fs name.now out.now) result) }

    // Over a shelf that tells nothing too, the answer is that of some inputs within their limits, with some tables.
    ensures found { IsAnswerOfSome intervals_of_tables result }

    // Where the shelf fails at a file, the run came to it and nothing before it has a fault.
    ensures came_to { WhereTold (S.state shelf.old).files
        (λ fs. ReachedFile (IntervalsComeTo fs name.now out.now) (reading_of result) fs (S.state shelf.new)) }

    // The shelf was only looked at: its files stay, and of the file that was looked for last no more was taken than up
    // to its end, or within the limit for inputs with a fault or for files that were put.
    ensures shelf { HasOnlyLookedOn Purpose.Intervals name.now (S.state shelf.old) (S.state shelf.new) }

    // That a file is absent or too long and a fault of the shelf have their cause, whatever the shelf tells.
    ensures cause { HasCause (reading_of result) (S.state shelf.old) (S.state shelf.new) }
{
    let shelved = read_shelved(alloc, shelf, name, out, Purpose::Intervals)?;
    let hidden = hidden_in(alloc, &shelved)?;
    file_for(alloc, &shelved, &hidden)
}

// The file of intervals of the cells that the tables hide.
fn file_for(alloc: Global, shelved: &ShelvedJob, hidden: &Hidden) -> Result<IntervalFile, TableStop>
    requires ready { IsReadyShelved shelved.now }
    requires each { length hidden.now.flags ≡ length shelved.now.job.cells }
    ensures { ComesFrom intervals_of_tables shelved.now.job hidden.now.flags result }
{
    let job = &shelved.job;
    // for the proof: what holds of every book
    let _known = job.book.cells();
    // for the proof: a component is too large exactly where it has too many hidden cells
    size_is_large();
    let system = relations_of(alloc, &job.book)?;
    let steps = job.described.job.steps;
    let intervals = intervals_of(alloc, &system, job.cells.as_slice(), hidden, steps)?;
    let bytes = interval_text(alloc, intervals.as_slice())?;
    let cells = intervals.as_slice().len() as u32;
    Ok(IntervalFile { cells, bytes })
}
