ghost use Rattle.std.specs.Prelude.{◌≡◌, length};
ghost use Rattle.sdc_base.specs.WhereTold.{WhereTold};
ghost use Rattle.job_inputs.specs.Reading.{HasCause, ReachedFile};
ghost use Rattle.job_inputs.specs.ClassifiedJobs.{HasOnlyLookedOn};
ghost use Rattle.job_inputs.specs.declared.purpose.Purpose.TheVariants.{Audit};
ghost use Rattle.published_tables.specs.TableAudits.{audit_of_tables};
ghost use Rattle.published_tables.specs.TableFiles.{ComesFrom, IsTablesAnswer, IsAnswerOfSome};
ghost use Rattle.published_tables.specs.TableStops.{reading_of};
ghost use Rattle.published_tables.specs.TablesOnShelf.{shelved_for, ComesFor, IsReadyShelved};

use crate::audit_file::AuditFile;
use crate::shelved::{ShelvedJob, read_shelved};
use crate::shown_values::values_in;
use crate::table_stop::TableStop;
use job_inputs::{Purpose, base_in_units};
use office_io::Shelf;
use relations::relations_of;
use rounding_audit::{audit_of, audit_text, exposed_in, size_is_large};
use sdc_base::Text;
use std::alloc::Global;

/// The file of the audit of the rounded tables of a job, to be put under the name `out`: for each primary cell, in
/// ascending order of the cells' numbers, its least and its greatest value among the tables that a reader of the release
/// can't rule out, whether each side is covered, and the worlds and multipliers that show it.
///
/// `name` is the name of the job, `out` that of the file to be put; both may be any bytes. The inputs of the job are
/// read for an audit, in their order (`job_inputs::read_settled`), so that a job whose method doesn't round is refused;
/// then `out` is refused where a put would overwrite the job's file, a file that the job names, or a code list or
/// hierarchy file of a variable that spans a table; then the tables that stand under the names of the job's outputs are
/// read. The certificate isn't looked at.
///
/// The refusals, in this order: `Inputs` with the first fault of the inputs, of the name `out` or of the files of
/// tables, or with a fault of the shelf; `NotAccepted` with `Release` and the first line that the texts of no numbers
/// have, or with `Rounded` and the first cell whose number isn't rounded to the job's base, or with `Relation` and the
/// first relation that doesn't hold; `Undecided` with the fault of the first question that has no answer. Want of memory
/// is that of the inputs, and may come at any time. Nothing is put, and the shelf is only read from.
///
/// It costs as much as reading the inputs and the tables, and two questions for each primary cell, each of at most as
/// many improvements as the job's steps.
///
/// The ends are those of the feasibility interval in Hundepool et al., Statistical Disclosure Control, chapter on
/// magnitude tables; the order in which the files are looked at and the format of the file are argus's own.
pub fn find_audit<S: Shelf>(
    alloc: Global,
    shelf: &mut S,
    name: &Text,
    out: &Text,
) -> Result<AuditFile, TableStop>
    // The answer is what the told files come to: the first fault of inputs, name and tables' files, or else what the
    // tables come to.
    ensures told { WhereTold (S.state shelf.old).files
        (λ fs. IsTablesAnswer audit_of_tables (shelved_for Audit fs name.now out.now) result) }

    // Over a shelf that tells nothing too, the answer is that of some inputs within their limits, with some tables.
    ensures found { IsAnswerOfSome audit_of_tables result }

    // Where the shelf fails at a file, the run came to it and nothing before it has a fault.
    ensures came_to { WhereTold (S.state shelf.old).files
        (λ fs. ReachedFile (ComesFor Audit fs name.now out.now) (reading_of result) fs (S.state shelf.new)) }

    // The shelf was only looked at: its files stay, and of the file that was looked for last no more was taken than up
    // to its end, or within the limit for inputs with a fault or for files that were put.
    ensures shelf { HasOnlyLookedOn Audit name.now (S.state shelf.old) (S.state shelf.new) }

    // That a file is absent or too long and a fault of the shelf have their cause, whatever the shelf tells.
    ensures cause { HasCause (reading_of result) (S.state shelf.old) (S.state shelf.new) }
{
    let shelved = read_shelved(alloc, shelf, name, out, Purpose::Audit)?;
    let values = values_in(alloc, &shelved)?;
    file_for(alloc, &shelved, values.as_slice())
}

// The file of the audit of the numbers that the tables show.
fn file_for(alloc: Global, shelved: &ShelvedJob, values: &[i128]) -> Result<AuditFile, TableStop>
    requires ready { IsReadyShelved shelved.now }
    requires each { length values.now ≡ length shelved.now.job.cells }
    ensures { ComesFrom audit_of_tables shelved.now.job values.now result }
{
    let job = &shelved.job;
    // for the proof: what holds of every book
    let _known = job.book.cells();
    // for the proof: a component is too large exactly where it has too many cells
    size_is_large();
    let system = relations_of(alloc, &job.book)?;
    let steps = job.described.job.steps;
    let base = base_in_units(job.described.job.method, job.described.bound.decimals);
    let audited = audit_of(alloc, &system, job.cells.as_slice(), values, base, steps)?;
    let bytes = audit_text(alloc, audited.as_slice())?;
    let primary = audited.as_slice().len() as u32;
    let exposed = exposed_in(audited.as_slice()) as u32;
    Ok(AuditFile {
        primary,
        exposed,
        bytes,
    })
}
