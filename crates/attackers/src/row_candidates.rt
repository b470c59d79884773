ghost use Rattle.std.specs.Prelude.{◌<◌, ◌^◌, length};

use linked_tables::Book;
use sdc_base::{Dimension, Few, Memory, Place, Row};
use std::alloc::Global;

/// For each cell the place of a record that falls in it, where one does. Which records they are is chance; where but
/// one falls in the cell, it is that one.
pub(crate) fn candidate_rows(
    alloc: Global,
    book: &Book,
    rows: &[Row],
) -> Result<Vec<Option<u32>>, Memory>
    requires { length rows.now < 2 ^ 32 }
{
    let mut candidates = Vec::from_elem(alloc, None, book.cells() as usize)?;
    for t in 0..book.tables() {
        for (place, row) in rows.iter().enumerate() {
            note_row(book, t, place as u32, row, &mut candidates);
        }
    }
    pass_upward(book, &mut candidates);
    Ok(candidates)
}

// Notes a record at the cell of table t under whose codes its own stand as deep as the table goes.
fn note_row(book: &Book, t: u32, place: u32, row: &Row, candidates: &mut [Option<u32>]) {
    let Some(table) = book.spans(t) else {
        return;
    };
    let Some(at) = codes_at(book, table.as_slice(), row.codes.as_slice()) else {
        return;
    };
    if let Some(cell) = book.id(t, at.as_slice()) {
        note(candidates, cell, place);
    }
}

// The codes of a table under which these codes stand, where there is one for each of its variables.
fn codes_at(book: &Book, table: &[Dimension], codes: &[u32]) -> Option<Place> {
    let mut place: Place = Few::empty();
    for dimension in table {
        let code = codes.get(dimension.variable as usize)?;
        if place.len() < 8 {
            place.insert(place.len(), book.code_within(*dimension, *code));
        }
    }
    Some(place)
}

// Notes a record at a cell.
fn note(candidates: &mut [Option<u32>], cell: u32, row: u32) {
    let place = cell as usize;
    if place < candidates.len() {
        candidates[place] = Some(row);
    }
}

// Notes the record of each cell at the cells right above it, the last cell first.
fn pass_upward(book: &Book, candidates: &mut [Option<u32>]) {
    let cells = book.cells();
    for done in 0..cells {
        let cell = cells - 1 - done;
        for variable in 0..book.variables() {
            pass_to(book, variable, cell, candidates);
        }
    }
}

// Notes the record of a cell at the one above it for a variable.
fn pass_to(book: &Book, variable: u32, cell: u32, candidates: &mut [Option<u32>]) {
    let Some(row) = candidate_at(candidates, cell) else {
        return;
    };
    if let Some(upper) = cell_above(book, variable, cell) {
        note(candidates, upper, row);
    }
}

/// What was noted at a cell.
pub(crate) fn candidate_at(candidates: &[Option<u32>], cell: u32) -> Option<u32> {
    *candidates.get(cell as usize)?
}

// The cell with the parent's code for a variable, and else the same codes.
fn cell_above(book: &Book, variable: u32, cell: u32) -> Option<u32> {
    let name = book.name(cell)?;
    let code = name.as_slice().get(variable as usize)?;
    let parent = book.parent(variable, *code)?;
    book.number(&with_code_at(name, variable, parent))
}

// The name with another code for a variable.
fn with_code_at(name: &Place, variable: u32, code: u32) -> Place {
    let mut other: Place = Few::empty();
    for (k, here) in name.as_slice().iter().enumerate() {
        let next = if k == variable as usize { code } else { *here };
        if other.len() < 8 {
            other.insert(other.len(), next);
        }
    }
    other
}
