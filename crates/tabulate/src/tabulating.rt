ghost use Rattle.std.specs.Prelude.{◌≡◌, ◌≢◌, ◌≤◌, ◌<◌, ℕ, Some, length, slice_get, pos, ◌≤ℤ◌, All};
ghost use Rattle.linked_tables.specs.declared.mark.Mark.{Mark as Noted};
ghost use Rattle.linked_tables.specs.BookCells.{IsBook};
ghost use Rattle.tabulate.specs.MarkRecords.{hidden_at};
ghost use Rattle.tabulate.specs.EmptyLists.{HasEmptyList, HaveEmptyLists};
ghost use Rattle.tabulate.specs.TabulatedMarks.{AreTabulated, CanBeTabulated, HasNone};

use crate::folding::fold_table;
use crate::placing::give_rows;
use linked_tables::{Book, Mark};
use sdc_base::{Row, Tops};

/// Gives each record to the cells that it falls in: afterwards each mark has the sum of weight times value over the
/// records in its cell, their number, and the largest of them, of which it keeps as many as `keep` at this scale.
/// Whether a cell is hidden, the trees and the tables stay.
///
/// It keeps from 2 to 10, and the scale, the weight steps of a whole contribution, is from 1 to 10,000. There are at
/// most a million records, each with as many codes as the book has trees, a place in each of them, a value from 0 and
/// below 10^15 units, and a weight below 10^8 steps and not below the scale; the marks have no records yet. It takes no
/// memory and has no refusal, one look-up for each record and table, and one for each cell and variable of the table
/// that is the first to name it. The sums are those of the handbook's magnitude tables, the weight steps argus's own.
pub fn tabulate(book: &mut Book, rows: &[Row], keep: u8, scale: u32)
    requires at_least_two { 2 ≤ keep }
    requires at_most_ten { keep ≤ 10 }
    requires scale_from_one { 1 ≤ scale }
    requires scale_at_most_10000 { scale ≤ 10000 }
    requires rows { CanBeTabulated book.old.trees scale rows.now }
    requires none { All HasNone book.old.marks }
    ensures marks { AreTabulated book.new rows.now keep scale }
    ensures trees { book.new.trees ≡ book.old.trees }
    ensures tables { book.new.tables ≡ book.old.tables }
    ensures hidden { (cell : ℕ) → hidden_at book.new.marks cell ≡ hidden_at book.old.marks cell }
{
    start(book, keep, scale);
    'tables: for t in 0..book.tables() {
        let first = book.first_own(t);
        give_rows(book, t, first, rows);
        let past = book.first_own(t + 1);
        fold_table(book, t, first, past);
    }
}

// Makes each mark's list ready.
fn start(book: &mut Book, keep: u8, scale: u32)
    requires at_least_two { 2 ≤ keep }
    requires at_most_ten { keep ≤ 10 }
    requires scale_from_one { 1 ≤ scale }
    requires scale_at_most_10000 { scale ≤ 10000 }
    ensures started { HaveEmptyLists book.old book.new keep scale (length book.old.marks) }
    ensures book { IsBook book.old }
{
    'cells: for cell in 0..book.cells() {
        start_cell(book, cell, keep, scale);
    }
}

// Makes the list of one mark ready.
fn start_cell(book: &mut Book, cell: u32, keep: u8, scale: u32)
    requires at_least_two { 2 ≤ keep }
    requires at_most_ten { keep ≤ 10 }
    requires scale_from_one { 1 ≤ scale }
    requires scale_at_most_10000 { scale ≤ 10000 }
    ensures frame { book.new ≡ record book.old { marks = book.new.marks } }
    ensures here { (old new : Noted) → slice_get book.old.marks cell ≡ Some old
        → slice_get book.new.marks cell ≡ Some new → HasEmptyList keep scale old new }
    ensures there { (other : ℕ) → other ≢ cell → slice_get book.new.marks other ≡ slice_get book.old.marks other }
    ensures long { length book.new.marks ≡ length book.old.marks }
{
    if let Some(mark) = book.mark_mut(cell) {
        start_mark(mark, keep, scale);
    }
}

// Makes the list of a mark ready.
fn start_mark(mark: &mut Mark, keep: u8, scale: u32)
    requires at_least_two { 2 ≤ keep }
    requires at_most_ten { keep ≤ 10 }
    requires scale_from_one { 1 ≤ scale }
    requires scale_at_most_10000 { scale ≤ 10000 }
    ensures { HasEmptyList keep scale mark.old mark.new }
{
    mark.facts.tops = Tops::new(keep, scale);
}
