ghost use Rattle.std.specs.Prelude.{◌≡◌, ◌<◌, true, false, length, slice_get};
ghost use Rattle.std.specs.Option.{option_map_or};
ghost use Rattle.sdc_base.specs.Cells.{is_named};
ghost use Rattle.sdc_base.specs.Relations as relations_specs;
ghost use Rattle.linked_tables.specs.BookCells.{IsBook};
ghost use Rattle.linked_tables.specs.BookCells as book_cells;
ghost use Rattle.linked_tables.specs.Laws as laws;
ghost use Rattle.relations.specs.Having as having;

use linked_tables::Book;
use sdc_base::{Dimension, Place};

/// Whether some table has the cell with this name, spans the variable, and goes below the cell's code for it.
pub(crate) fn is_spanned(book: &Book, name: &Place, variable: u32) -> bool
    requires book { IsBook book.now }
    requires cell { is_named (book_cells.cells book.now) name.now ≡ true }
    requires known { variable < length name.now }
    ensures { result ≡ relations_specs.is_spanned book.now.trees book.now.tables name.now variable }
{
    'tables: for t in 0..book.tables() {
        if has_spanned(book, t, name, variable) {
            return true;
        }
    }
    false
}

// Whether table t has the cell with this name, spans the variable, and goes below the cell's code for it.
fn has_spanned(book: &Book, t: u32, name: &Place, variable: u32) -> bool
    requires book { IsBook book.now }
    requires cell { is_named (book_cells.cells book.now) name.now ≡ true }
    requires known { variable < length name.now }
    ensures { result ≡ option_map_or (having.has_spanned book.now.trees name.now variable) (slice_get book.now.tables t)
        false }
{
    let Some(table) = book.spans(t) else {
        return false;
    };
    let code = name.as_slice()[variable as usize];
    spans_below(book, table.as_slice(), variable, code) && has_codes(book, table.as_slice(), name)
}

// Whether each code of the name is one that the table's cells can have.
fn has_codes(book: &Book, table: &[Dimension], name: &Place) -> bool
    ensures { result ≡ having.has_codes book.now.trees table.now 0 name.now }
{
    let codes = name.as_slice();
    'variables: for variable in 0..name.len() {
        if !is_code(book, table, variable as u32, codes[variable]) {
            return false;
        }
    }
    true
}

// Whether a code is one that the table's cells can have for the variable.
fn is_code(book: &Book, table: &[Dimension], variable: u32, code: u32) -> bool
    ensures { result ≡ laws.is_code book.now.trees table.now variable code }
{
    for dimension in table {
        if dimension.variable == variable {
            return book.has_code(*dimension, code);
        }
    }
    code == 0
}

// Whether the table spans the variable, and goes below this code of it.
fn spans_below(book: &Book, table: &[Dimension], variable: u32, code: u32) -> bool
    ensures { result ≡ relations_specs.spans_below book.now.trees variable code table.now }
{
    for dimension in table {
        if dimension.variable == variable && book.goes_below(*dimension, code) {
            return true;
        }
    }
    false
}
