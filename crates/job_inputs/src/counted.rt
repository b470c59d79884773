ghost use Rattle.sdc_base.specs.Steps.{map_fault};
ghost use Rattle.linked_tables.specs.Tables.{book_with_depths};
ghost use Rattle.job_inputs.specs.CountedRecords.{IsReadyCountOf};
ghost use Rattle.job_inputs.specs.Cells.{cells_fault};
ghost use Rattle.job_inputs.specs.SoundJobs.{AreSound};
ghost use Rattle.job_inputs.specs.Refusals.{IsReadAs};

use crate::described::DescribedJob;
use crate::faults::Fault;
use crate::filled::{book_with_records, linked_book};
use crate::inputs::Inputs;
use linked_tables::Book;
use microdata::Records;
use plain_text::Stop;
use sdc_base::{Items, Row};
use std::alloc::Global;

/// A job with its book, whose cells have their records, with these records, and with how many were skipped.
#[derive(Drop)]
pub(crate) struct TabulatedJob {
    pub described: DescribedJob,
    pub book: Book,
    pub rows: Items<Row>,
    pub skipped: u64,
}

/// The inputs of a job with the records in the cells of its tables.
///
/// It is refused with the first table up to which there are too many cells.
pub(crate) fn count_records(alloc: Global, inputs: Inputs) -> Result<TabulatedJob, Stop<Fault>>
    requires { AreSound inputs }
    ensures { IsReadAs (λ counted. (counted.book.trees, counted.book.tables))
        (map_fault cells_fault (book_with_depths inputs.records.trees inputs.described.bound.tables))
        (IsReadyCountOf inputs) result }
{
    let Inputs { described, records } = inputs;
    let Records {
        trees,
        rows,
        skipped,
    } = records;
    let book = linked_book(alloc, &described, trees)?;
    let book = book_with_records(book, &described, rows.as_slice());
    Ok(TabulatedJob {
        described,
        book,
        rows,
        skipped,
    })
}
