ghost use Rattle.std.specs.Prelude.{◌≡◌, ◌<◌, All, IfOk, length};
ghost use Rattle.sdc_base.specs.Steps.{map_fault};
ghost use Rattle.linked_tables.specs.BlankMarks.{IsBlank};
ghost use Rattle.linked_tables.specs.BookCells as book_cells;
ghost use Rattle.linked_tables.specs.Tables.{book_with_depths};
ghost use Rattle.job_inputs.specs.Refusals.{IsForCells, IsReadAs};
ghost use Rattle.job_inputs.specs.Refusals as refusals;
ghost use Rattle.job_inputs.specs.Cells.{cells_fault};
ghost use Rattle.job_inputs.specs.SoundJobs.{IsSoundJob, AreRows};
ghost use Rattle.job_inputs.specs.TabulatedBooks.{IsBlankBook, HasRecords};

use crate::described::DescribedJob;
use crate::faults::Fault;
use code_trees::CodeTree;
use linked_tables::{Book, BookFault};
use plain_text::Stop;
use primary_rules::keep;
use sdc_base::{Dimensions, Items, Memory, Row};
use std::alloc::Global;
use tabulate::tabulate;

/// The book of a job's tables over the trees of its spanning variables, without records.
///
/// It is refused with the first table up to which there are too many cells.
#[tactic(auto, using(crate::proofs::Refusing::cells_refuse))]
pub(crate) fn linked_book(
    alloc: Global,
    described: &DescribedJob,
    trees: Items<CodeTree>,
) -> Result<Book, Stop<Fault>>
    requires sound { IsSoundJob described.now }
    requires as_many { length trees ≡ length described.now.bound.spanning }
    ensures { IsReadAs (λ book. (book.trees, book.tables))
        (map_fault cells_fault (book_with_depths trees described.now.bound.tables))
        (IsBlankBook trees described.now.bound.tables) result }
{
    let tables = copy_tables(alloc, described.bound.tables.as_slice())?;
    match Book::with_depths(alloc, trees.into_vec(), tables) {
        Ok(book) => Ok(book),
        Err(fault) => Err(cells_refusal(fault)),
    }
}

// A copy of tables.
fn copy_tables(alloc: Global, tables: &[Dimensions]) -> Result<Vec<Dimensions>, Memory>
    ensures { IfOk result (λ copies. copies.items ≡ tables.now) }
{
    let mut copies = Vec::new(alloc);
    'tables: for table in tables {
        copies.push(table.copy())?;
    }
    Ok(copies)
}

// That there are too many cells, as a refusal; a bound job's tables have no other fault.
fn cells_refusal(fault: BookFault) -> Stop<Fault>
    requires { IsForCells fault }
    ensures { result ≡ refusals.cells_refusal fault }
{
    match fault {
        BookFault::TooManyCells(t) => Stop::Fault(Fault::Cells(t)),
        BookFault::Memory => Stop::Memory,
        _ => unreachable!(),
    }
}

/// The book with the records in its cells: each mark has the sum, the number and the largest of those that fall in its
/// cell.
pub(crate) fn book_with_records(book: Book, described: &DescribedJob, rows: &[Row]) -> Book
    requires sound { IsSoundJob described.now }
    requires blank { All IsBlank book.marks }
    requires rows { AreRows book.trees described.now.bound.scale rows.now }
    ensures { HasRecords described.now rows.now book result }
{
    let mut book = book;
    let kept = keep(&described.job.rules);
    tabulate(&mut book, rows, kept, described.bound.scale);
    // for the proof: what holds of every book
    let _cells = book.cells();
    book
}
