ghost use Rattle.std.specs.Prelude.{◌≡◌, ◌^◌, ◌<◌, ℕ, Some, false, true, length, slice_get, IfOk, IfNone, IfSome};
ghost use Rattle.sdc_base.specs.Records.{Name as AnyName};
ghost use Rattle.linked_tables.specs.BookCells.{cells};
ghost use Rattle.attackers.specs.Alone.{TellFrequencies, AreSoles, IsSole, falls_at};

use crate::falling::falls;
use crate::row_candidates::{candidate_at, candidate_rows};
use linked_tables::Book;
use sdc_base::{Memory, Place, Row};
use std::alloc::Global;

/// For each cell the place of its one record, from 0, exactly where it has but one: that contributor alone makes up the
/// cell, and so knows it, whatever its weight.
///
/// The marks of the book tell how many of these records, fewer than `2^32`, fall in each cell, as tabulating them does.
/// Its one refusal is want of memory. It takes one look-up for each record and table and for each cell and variable,
/// for each record and table a walk up the trees to the table's codes, and for each cell with one record one from the
/// record's codes.
///
/// That a lone contributor knows its cell is the handbook's, that weights don't matter argus's own.
pub fn soles(alloc: Global, book: &Book, rows: &[Row]) -> Result<Vec<Option<u32>>, Memory>
    requires told { TellFrequencies book.now rows.now }
    requires fewer_than_2_32 { length rows.now < 2 ^ 32 }
    ensures one_each { IfOk result (λ soles. length soles.items ≡ length (cells book.now)) }
    ensures soles { IfOk result (λ soles. AreSoles book.now rows.now soles.items) }
{
    let candidates = candidate_rows(alloc, book, rows)?;
    let mut soles = Vec::new(alloc);
    'cells: for cell in 0..book.cells() {
        let sole = sole_of(book, rows, cell, candidate_at(&candidates, cell));
        soles.push(sole)?;
    }
    Ok(soles)
}

// The place of a cell's one record, from a candidate for it, if there is one.
fn sole_of(book: &Book, rows: &[Row], cell: u32, candidate: Option<u32>) -> Option<u32>
    requires told { TellFrequencies book.now rows.now }
    requires fewer_than_2_32 { length rows.now < 2 ^ 32 }
    requires inside { cell < length book.now.marks }
    ensures { (name : AnyName) → slice_get (cells book.now) cell ≡ Some name
        → IsSole book.now.trees rows.now name result }
{
    let Some(name) = book.name(cell) else {
        return None;
    };
    let marks = book.marks();
    let mark = &marks[cell as usize];
    if mark.facts.freq != 1 {
        return None;
    }
    if let Some(candidate) = candidate {
        if is_at(book, rows, name, candidate) {
            return Some(candidate);
        }
    }
    find_row(book, rows, name)
}

// Whether the record at a place falls in a cell.
fn is_at(book: &Book, rows: &[Row], name: &Place, place: u32) -> bool
    ensures { result ≡ falls_at book.now.trees rows.now name.now place }
{
    match rows.get(place as usize) {
        Some(row) => falls(book, name, row),
        None => false,
    }
}

// The place of the first record that falls in a cell.
fn find_row(book: &Book, rows: &[Row], name: &Place) -> Option<u32>
    requires fewer_than_2_32 { length rows.now < 2 ^ 32 }
    ensures none { IfNone result ((place : ℕ) → falls_at book.now.trees rows.now name.now place ≡ false) }
    ensures found { IfSome result (λ place. falls_at book.now.trees rows.now name.now place ≡ true) }
{
    'rows: for (place, row) in rows.iter().enumerate() {
        if falls(book, name, row) {
            return Some(place as u32);
        }
    }
    None
}
