ghost use Rattle.std.specs.Prelude.{◌≡◌, ◌<◌, ◌≤◌, IfErr, OnOk, length, option_map};
ghost use Rattle.sdc_base.specs.Answers.{Gives};
ghost use Rattle.apriori.specs.Priors.{ArePriors};
ghost use Rattle.job_inputs.specs.CountedRecords.{HasStatedFile, IsCountedOf, IsReadyCount, StatesFiles, CanState, PriorsComeTo};
ghost use Rattle.job_inputs.specs.ReadFiles.{limit};
ghost use Rattle.job_inputs.specs.Reading.{ReadsFiles};
ghost use Rattle.plain_text.specs.Stops.{why_of};
ghost use Rattle.job_inputs.specs.Refusals.{IsForContents};
ghost use Rattle.job_inputs.specs.PriorStatements.{with_file};
ghost use Rattle.job_inputs.specs.PriorStatements as spec;
ghost use Rattle.job_inputs.specs.declared.inputs.Inputs.{Inputs as AnyInputs};

use crate::counted::TabulatedJob;
use crate::faults::Fault;
use crate::file_ref::FileRef;
use crate::loading::load;
use crate::refusal::prior_refusal;
use crate::stop::InputStop;
use apriori::{Prior, apply, blank_priors};
use job_lang::PriorLine;
use office_io::Shelf;
use plain_text::Stop;
use sdc_base::Items;
use std::alloc::Global;

/// What the a priori files of a job's tables state of each cell, by the cell's number.
///
/// The files are looked at by table, each for Absent, then TooLong, then what it says; the first fault is the answer.
pub(crate) fn read_priors<S: Shelf>(
    alloc: Global,
    shelf: &mut S,
    counted: &TabulatedJob,
) -> Result<Items<Prior>, InputStop>
    requires { IsReadyCount counted.now }
    ensures { ReadsFiles (StatesFiles counted.now) (PriorsComeTo counted.now) (ArePriors counted.now.book.marks) limit
        result (S.state shelf.old) (S.state shelf.new) }
{
    let mut priors = blank_priors(alloc, counted.book.cells())?;
    let tables = counted.described.job.tables.as_slice();
    'tables: for (t, _) in tables.iter().enumerate() {
        add_file(alloc, shelf, counted, t as u32, &mut priors)?;
    }
    Ok(Items::new(priors))
}

// Adds what a table's a priori file states, where it has one.
#[tactic(auto, unfolding(crate::specs::PriorStatements::with_file))]
fn add_file<S: Shelf>(
    alloc: Global,
    shelf: &mut S,
    counted: &TabulatedJob,
    t: u32,
    priors: &mut Vec<Prior>,
) -> Result<(), InputStop>
    requires { CanState counted.now t priors.old.items }
    ensures { HasStatedFile counted.now t priors.old.items priors.new.items result (S.state shelf.old)
        (S.state shelf.new) }
{
    let Some(line) = prior_line(counted.described.job.priors.as_slice(), t) else {
        return Ok(());
    };
    let bytes = load(alloc, shelf, &line.file, FileRef::Apriori(t))?;
    state(alloc, counted, t, line, priors, bytes.as_slice())?;
    Ok(())
}

// The line of the job that names a table's a priori file, where there is one.
fn prior_line(lines: &[PriorLine], t: u32) -> Option<&PriorLine>
    ensures { option_map (λ line. line.now) result ≡ spec.prior_line t lines.now }
{
    'lines: for line in lines {
        if line.table == t {
            return Some(line);
        }
    }
    None
}

// Adds what the bytes of a table's a priori file state.
#[tactic(auto, using(crate::proofs::Refusing::prior_is_for_contents))]
fn state(
    alloc: Global,
    counted: &TabulatedJob,
    t: u32,
    line: &PriorLine,
    priors: &mut Vec<Prior>,
    bytes: &[u8],
) -> Result<(), Stop<Fault>>
    requires can { CanState counted.now t priors.old.items }
    requires within_limit { length bytes.now ≤ limit }
    ensures told { (inputs : AnyInputs) → IsCountedOf inputs counted.now
        → Gives why_of (λ fine. priors.new.items) result
        (spec.with_bytes inputs t line.now priors.old.items bytes.now) }
    ensures fit { OnOk result (ArePriors counted.now.book.marks priors.new.items) }
    ensures contents { IfErr result IsForContents }
{
    let decimals = counted.described.bound.decimals;
    match apply(
        alloc,
        &counted.book,
        t,
        priors,
        bytes,
        line.separator,
        decimals,
    ) {
        Ok(()) => Ok(()),
        Err(error) => Err(prior_refusal(error)),
    }
}
