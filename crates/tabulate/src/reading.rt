ghost use Rattle.std.specs.Prelude.{◌≡◌, length, slice_get, slice_index};
ghost use Rattle.tabulate.specs.RecordsByPlace.{dimensions_of};

use linked_tables::Book;
use sdc_base::{Dimension, Dimensions};

/// The code for a variable, and 0 where there is none.
pub(crate) fn code_at(codes: &[u32], variable: u32) -> u32
    ensures { result ≡ slice_index codes.now variable }
{
    match codes.get(variable as usize) {
        Some(code) => *code,
        // As the definition has it: behind the last code stands 0.
        None => 0,
    }
}

/// How many variables table t spans.
pub(crate) fn width_of(book: &Book, t: u32) -> usize
    ensures { result ≡ length (dimensions_of book.now t) }
{
    match book.spans(t) {
        Some(table) => table.len(),
        // As the definition has it: a table behind the last one spans no variables.
        None => 0,
    }
}

/// The variable that stands at a place in table t, with its depth.
pub(crate) fn dimension_at(book: &Book, t: u32, k: usize) -> Option<Dimension>
    ensures { result ≡ slice_get (dimensions_of book.now t) k }
{
    match book.spans(t) {
        Some(table) => item_at(table, k),
        None => None,
    }
}

// The variable at a place of a table.
fn item_at(table: &Dimensions, k: usize) -> Option<Dimension>
    ensures { result ≡ slice_get table.now k }
{
    if k >= table.len() {
        return None;
    }
    Some(table.as_slice()[k])
}
