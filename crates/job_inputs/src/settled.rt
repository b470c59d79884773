ghost use Rattle.std.specs.Prelude.{IfOk, IfErr, map, All};
ghost use Rattle.sdc_base.specs.Answers.{Gives};
ghost use Rattle.apriori.specs.Priors.{ArePriors};
ghost use Rattle.apriori.specs.Settling.{view_of_cell};
ghost use Rattle.job_inputs.specs.CountedRecords.{IsCountedOf, IsReadyCount};
ghost use Rattle.job_inputs.specs.Looks.{InputsComeTo};
ghost use Rattle.plain_text.specs.Stops.{why_of};
ghost use Rattle.job_inputs.specs.Refusals.{IsForContents};
ghost use Rattle.job_inputs.specs.ClassifiedJobs.{settled_of, IsReadyJob, IsSettledOf, AreSettled, SettledInputs, AreReadyCells};
ghost use Rattle.job_inputs.specs.ClassifiedJobs as spec;
ghost use Rattle.job_inputs.specs.SoundJobs.{AreSound};
ghost use Rattle.job_inputs.specs.declared.inputs.Inputs.{Inputs as AnyInputs};
ghost use Rattle.job_inputs.specs.ReadFiles.{limit};
ghost use Rattle.job_inputs.specs.Reading.{ReadsFiles};

use crate::counted::{TabulatedJob, count_records};
use crate::described::DescribedJob;
use crate::faults::Fault;
use crate::inputs::read_inputs;
use crate::outputs::check_outputs;
use crate::purpose::Purpose;
use crate::refusal::prior_refusal;
use crate::stated::read_priors;
use crate::stop::InputStop;
use apriori::{Prior, settle};
use linked_tables::Book;
use office_io::Shelf;
use plain_text::Stop;
use sdc_base::{Cell, Items, Row, Text};
use std::alloc::Global;

/// A job with its metadata, the book of its tables with the records in the cells, what each cell is to its protection,
/// the records, how many there are and how many were skipped.
#[derive(Drop)]
pub struct ClassifiedJob {
    pub described: DescribedJob,
    pub book: Book,
    pub cells: Items<Cell>,
    pub rows: Items<Row>,
    pub records: u64,
    pub skipped: u64,
}

/// All that the job of this name has before anything is protected, read for a purpose.
///
/// The job, its metadata, the code lists and hierarchies of its spanning variables and its microdata are looked at in
/// this order, then the number of cells, the a priori files by table, the cells with what is stated of them, and then
/// whether the certificate, the contributors' file or an output would take the job's own name; the first fault is the answer. Where intervals
/// are asked for, a job that rounds is refused as soon as it is read. The microdata are read in pieces, every other
/// file whole. Where the shelf fails at a file, the answer is `ReadFault` with the file; want of memory is `Memory`.
///
/// The cost is that of reading each file once, with the records kept in memory; one look-up for each record and table,
/// and one for each cell and variable. The order is argus's own.
pub fn read_settled<S: Shelf>(
    alloc: Global,
    shelf: &mut S,
    name: &Text,
    purpose: Purpose,
) -> Result<ClassifiedJob, InputStop>
    ensures looked { ReadsFiles (λ fs answer. AreSettled answer (settled_of purpose fs name.now))
        (λ fs. InputsComeTo purpose fs name.now) IsReadyJob limit result (S.state shelf.old) (S.state shelf.new) }
    // Of a shelf that tells nothing too.
    ensures settled { IfOk result (λ job. (settled : SettledInputs) × IsSettledOf settled job × AreSound settled.inputs) }
{
    let inputs = read_inputs(alloc, shelf, name, purpose)?;
    let counted = count_records(alloc, inputs)?;
    let priors = read_priors(alloc, shelf, &counted)?;
    let cells = settled_cells(alloc, &counted, priors.as_slice())?;
    check_outputs(name, &counted.described.job)?;
    let records = counted.rows.as_slice().len() as u64;
    Ok(ClassifiedJob {
        described: counted.described,
        book: counted.book,
        cells,
        rows: counted.rows,
        records,
        skipped: counted.skipped,
    })
}

// What each cell is to its protection.
#[tactic(auto, using(crate::proofs::Refusing::prior_is_for_contents))]
fn settled_cells(
    alloc: Global,
    counted: &TabulatedJob,
    priors: &[Prior],
) -> Result<Items<Cell>, Stop<Fault>>
    requires ready { IsReadyCount counted.now }
    requires priors { ArePriors counted.now.book.marks priors.now }
    ensures gives { (inputs : AnyInputs) → IsCountedOf inputs counted.now
        → Gives why_of (λ cells. map view_of_cell cells) result (spec.settled_cells inputs priors.now) }
    ensures ready { IfOk result (AreReadyCells counted.now.book.marks) }
    ensures contents { IfErr result IsForContents }
{
    match settle(alloc, &counted.book, &counted.described.job.rules, priors) {
        Ok(cells) => Ok(Items::new(cells)),
        Err(error) => Err(prior_refusal(error)),
    }
}
