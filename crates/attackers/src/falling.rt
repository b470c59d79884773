ghost use Rattle.std.specs.Prelude.{◌≡◌};
ghost use Rattle.sdc_base.specs.Trees as trees;
ghost use Rattle.sdc_base.specs.Records.{falls_in, row_falls};
ghost use Rattle.linked_tables.specs.BookCells.{tree_of};

use linked_tables::Book;
use sdc_base::{Place, Row};

/// Whether a record falls in the cell with this name.
pub(crate) fn falls(book: &Book, name: &Place, row: &Row) -> bool
    ensures { result ≡ row_falls book.now.trees name.now row.now }
{
    are_under(book, name.as_slice(), row.codes.as_slice())
}

// Whether each code is under that of a name, variable by variable.
fn are_under(book: &Book, name: &[u32], codes: &[u32]) -> bool
    ensures { result ≡ falls_in book.now.trees name.now codes.now }
{
    'variables: for variable in 0..book.variables() {
        let k = variable as usize;
        if k >= name.len() {
            return false;
        }
        if k >= codes.len() {
            return false;
        }
        if !is_under(book, variable, codes[k], name[k]) {
            return false;
        }
    }
    true
}

// Whether walking parents from a place of a variable's tree, itself included, meets another.
fn is_under(book: &Book, variable: u32, place: u32, above: u32) -> bool
    ensures { result ≡ trees.is_under (tree_of book.now variable) place above }
{
    let mut met = Some(place);
    'steps: for step in 0..book.size(variable) {
        let _step = step;
        let Some(at) = met else {
            return false;
        };
        if at == above {
            return true;
        }
        met = book.parent(variable, at);
    }
    false
}
