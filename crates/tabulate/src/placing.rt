ghost use Rattle.std.specs.Prelude.{◌≡◌, ◌∷◌, [], All, pos, ◌≤ℤ◌};
ghost use Rattle.tabulate.specs.MarkRecords.{HaveScalesWithin};
ghost use Rattle.tabulate.specs.RecordsByPlace.{GaveRecord, GaveRecords, code_in_table, codes_for, dimensions_of};

use crate::adding::add;
use crate::reading::code_at;
use linked_tables::Book;
use sdc_base::{Dimension, Dimensions, Few, Place, Row};

/// Gives each record to the one cell of table t under whose codes its own stand as deep as the table goes, but for cells
/// before the first one.
pub(crate) fn give_rows(book: &mut Book, t: u32, first: u32, rows: &[Row])
    requires from_zero { All (λ row. pos 0 ≤ℤ row.value) rows.now }
    requires scales_within { All (λ row. HaveScalesWithin row.weight book.old.marks) rows.now }
    ensures { GaveRecords book.old book.new t first rows.now }
{
    'rows: for row in rows {
        let place = record_place(book, t, row);
        give_at(book, t, first, row, place.as_slice());
    }
}

// Gives a record to the cell at a place, unless the cell is before the first one.
fn give_at(book: &mut Book, t: u32, first: u32, row: &Row, place: &[u32])
    requires from_zero { pos 0 ≤ℤ row.now.value }
    requires scales_within { HaveScalesWithin row.now.weight book.old.marks }
    ensures { GaveRecord book.old book.new t first row.now (place.now ∷ []) }
{
    let Some(cell) = book.id(t, place) else {
        return;
    };
    if cell < first {
        return;
    }
    if let Some(mark) = book.mark_mut(cell) {
        add(mark, row);
    }
}

// A record's place in table t: for each variable of the table its code, or the one above it on the table's last level.
fn record_place(book: &Book, t: u32, row: &Row) -> Place
    ensures { result ≡ codes_for book.now.trees row.now.codes (dimensions_of book.now t) }
{
    match book.spans(t) {
        Some(table) => codes_at(book, table, row.codes.as_slice()),
        None => Few::empty(),
    }
}

// The codes of a table under which these codes stand.
fn codes_at(book: &Book, table: &Dimensions, codes: &[u32]) -> Place
    ensures { result ≡ codes_for book.now.trees codes.now table.now }
{
    let mut place = Few::empty();
    'variables: for k in 0..table.len() {
        place.insert(k, code_under(book, table.as_slice()[k], codes));
    }
    place
}

// The code of a table that spans a variable so under which one of these codes stands.
fn code_under(book: &Book, dimension: Dimension, codes: &[u32]) -> u32
    ensures { result ≡ code_in_table book.now.trees codes.now dimension }
{
    book.code_within(dimension, code_at(codes, dimension.variable))
}
