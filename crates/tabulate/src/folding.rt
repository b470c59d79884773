ghost use Rattle.std.specs.Prelude.{◌≡◌, ◌-◌, ◌<◌, ◌==◌, ◌++◌, ℕ, List, Some, slice_set, length, if◌then◌else◌, IfSome};
ghost use Rattle.sdc_base.specs.declared.rows.Row.{Row as Record};
ghost use Rattle.tabulate.specs.MarkRecords.{HaveOneScale, MarksHoldRecords, HoldsRecords, settings_at, settings_of};
ghost use Rattle.tabulate.specs.RecordsByPlace.{dimensions_of};
ghost use Rattle.tabulate.specs.UpperCells.{PassedRecords, after_cells, after_variables, after_cell, upper_of};

use crate::adding::{copy_of, join};
use crate::reading::{code_at, dimension_at, width_of};
use linked_tables::{Book, Mark};
use sdc_base::{Few, Place};

/// Gives what the cells of table t's own were given to those above them, variable after variable.
pub(crate) fn fold_table(book: &mut Book, t: u32, first: u32, past: u32)
    requires even { HaveOneScale book.old.marks }
    ensures { PassedRecords book.old book.new (after_variables book.old first past (dimensions_of book.old t)) }
{
    'variables: for k in 0..width_of(book, t) {
        let Some(dimension) = dimension_at(book, t, k) else {
            return;
        };
        fold_variable(book, dimension.variable, first, past);
    }
}

// Gives what each of the cells from the first one on was given to the one above it for a variable, the last cell first.
fn fold_variable(book: &mut Book, variable: u32, first: u32, past: u32)
    requires even { HaveOneScale book.old.marks }
    ensures { PassedRecords book.old book.new (after_cells book.old variable first past (past - first)) }
{
    'cells: for done in 0..past.saturating_sub(first) {
        fold_cell(book, variable, first, past - (done + 1));
    }
}

// Gives what a cell was given to the one above it for a variable, unless that one is before the first.
fn fold_cell(book: &mut Book, variable: u32, first: u32, cell: u32)
    requires even { HaveOneScale book.old.marks }
    ensures { PassedRecords book.old book.new (after_cell book.old variable first cell) }
{
    let Some(upper) = cell_above(book, variable, cell) else {
        return;
    };
    if upper < first {
        return;
    }
    join_cells(book, upper, cell);
}

// The cell with the parent's code for a variable, and else the same codes.
fn cell_above(book: &Book, variable: u32, cell: u32) -> Option<u32>
    ensures upper { result ≡ upper_of book.now variable cell }
    ensures lower { IfSome result (λ _. cell < length book.now.marks) }
    ensures within { IfSome result (λ upper. upper < length book.now.marks) }
{
    if cell >= book.cells() {
        return None;
    }
    let name = book.name(cell)?;
    let parent = book.parent(variable, code_at(name.as_slice(), variable))?;
    book.number(&with_code_at(name, variable, parent))
}

// The name with another code for a variable.
fn with_code_at(name: &Place, variable: u32, code: u32) -> Place
    ensures { result ≡ slice_set name.now variable code }
{
    let mut other = Few::empty();
    'codes: for k in 0..name.len() {
        other.insert(k, code_or(name.as_slice()[k], k, variable, code));
    }
    other
}

// The code at a place, or the other one where that is the variable's.
fn code_or(here: u32, k: usize, variable: u32, code: u32) -> u32
    ensures { result ≡ (if k == variable then code else here) }
{
    if k == variable as usize { code } else { here }
}

// Gives what the lower cell was given to the upper one.
fn join_cells(book: &mut Book, upper: u32, lower: u32)
    requires even { HaveOneScale book.old.marks }
    requires above { upper < length book.old.marks }
    requires within { lower < length book.old.marks }
    ensures { PassedRecords book.old book.new
        (λ given cell. if upper == cell then given cell ++ given lower else given cell) }
{
    let other = mark_at(book, lower);
    if let Some(mark) = book.mark_mut(upper) {
        join(mark, &other);
    }
}

// A mark that was given what that of a cell was.
fn mark_at(book: &Book, cell: u32) -> Mark
    requires { cell < length book.now.marks }
    ensures given { (given : ℕ → List Record) → MarksHoldRecords book.now.marks given
        → HoldsRecords result (given cell) }
    ensures kept { settings_at book.now.marks cell ≡ Some (settings_of result) }
{
    let marks = book.marks();
    copy_of(&marks[cell as usize])
}
