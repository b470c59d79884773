ghost use Rattle.std.specs.Prelude.{◌≡◌, ◌≤◌, ◌<◌, ◌++◌, ◌∷◌, [], length, slice_index_or, OnOk};
ghost use Rattle.sdc_base.specs.Trees.{code_in};
ghost use Rattle.sdc_base.specs.Cells.{trees_of};
ghost use Rattle.sdc_base.specs.TableText.{line_text, codes_of_place};
ghost use Rattle.release_writer.specs.Lines.{IsReadyWriter, AppendsText};

use crate::csv_line::{end_line, put_field};
use csv::Writer;
use linked_tables::Book;
use sdc_base::{Dimension, Memory, Text};

/// Writes the line of a table's names, of which one alone isn't empty.
pub(crate) fn write_names(writer: &mut Writer<Vec<u8>>, names: &[Text]) -> Result<(), Memory>
    requires ready { IsReadyWriter writer.old }
    requires at_least_one_name { 0 < length names.now }
    requires shown { length names.now ≡ 1 → 0 < length (slice_index_or names.now 0 []) }
    ensures ready { OnOk result (IsReadyWriter writer.new) }
    ensures text { OnOk result (AppendsText writer.old writer.new (line_text names.now)) }
{
    'names: for name in names {
        put_field(writer, name.as_slice())?;
    }
    end_line(writer)
}

/// Writes the line of a place: its codes, and the text of its number.
pub(crate) fn write_place(
    writer: &mut Writer<Vec<u8>>,
    book: &Book,
    table: &[Dimension],
    place: &[u32],
    number: &[u8],
) -> Result<(), Memory>
    requires ready { IsReadyWriter writer.old }
    requires code_for_each_variable { length place.now ≡ length table.now }
    requires at_most_8 { length table.now ≤ 8 }
    requires number { 0 < length number.now }
    ensures ready { OnOk result (IsReadyWriter writer.new) }
    ensures text { OnOk result (AppendsText writer.old writer.new
        (line_text (codes_of_place (trees_of book.now.trees table.now) place.now ++ number.now ∷ []))) }
{
    'codes: for (k, dimension) in table.iter().enumerate() {
        put_field(writer, code_at(book, dimension.variable, place[k]))?;
    }
    put_field(writer, number)?;
    end_line(writer)
}

// A code of a variable, and nothing where it has no such code, as the definition reads it.
fn code_at(book: &Book, variable: u32, code: u32) -> &[u8]
    ensures { result.now ≡ code_in (slice_index_or book.now.trees variable []) code }
{
    match book.code(variable, code) {
        Some(bytes) => bytes,
        None => &[],
    }
}
