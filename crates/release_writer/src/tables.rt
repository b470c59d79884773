ghost use Rattle.std.specs.Prelude.{◌≡◌, ◌≤◌, ◌<◌, ◌+◌, ◌∷◌, [], true, false, length, take, slice_index_or, Some, IfOk, OnOk};
ghost use Rattle.sdc_base.specs.Cells.{trees_of};
ghost use Rattle.sdc_base.specs.CellOrder.{is_place_in};
ghost use Rattle.sdc_base.specs.TableText.{line_text};
ghost use Rattle.release_writer.specs.ShownCells.{CanBeShown, release_text};
ghost use Rattle.release_writer.specs.Lines.{IsReadyWriter, bytes_written, AppendsText, lines_below, place_line};
ghost use Rattle.release_writer.specs.Pages.{IsPage};

use crate::lines::{write_names, write_place};
use crate::numbers::number_text;
use crate::shown::Shown;
use csv::{Writer, WriterBuilder};
use linked_tables::Book;
use sdc_base::{Dimensions, Memory, Text, with_code};
use std::alloc::Global;

/// The bytes of table `t` of a release: a line of `names`, and then a line for each place of the table in lexicographic
/// order, with its codes and what its cell shows. Each line ends in LF, its fields have commas between them, and a
/// field stands in quotes exactly where it has a comma, a quote, CR or LF, with each quote inside doubled.
///
/// `t` is a table of the book, numbered from 0. `names` are those of the table's variables and of the response.
/// `decimals` are those of a unit, at most 13. `shown` has a flag for each cell, and truths are from 0, or a number for
/// each cell, from 0 and below `10^37` units. A hidden cell shows `x`, whatever hides it; nothing of its truth enters
/// the text.
///
/// Want of memory is the only refusal, and leaves the book as it is. It takes one look-up for each place.
///
/// The lines are the manual's, quotes, order and `x` are this project's own.
pub fn table_bytes(
    alloc: Global,
    book: &Book,
    t: u32,
    names: &[Text],
    decimals: u8,
    shown: Shown<'_>,
) -> Result<Vec<u8>, Memory>
    requires table { t < length book.now.tables }
    requires names { length names.now ≡ length (slice_index_or book.now.tables t []) + 1 }
    requires decimals { decimals ≤ 13 }
    requires shown { CanBeShown book.now shown }
    ensures text { IfOk result (λ bytes. bytes.items ≡ release_text book.now t names.now decimals shown.entry) }
{
    // There is such a table.
    let Some(table) = book.spans(t) else {
        return Err(Memory);
    };
    let page = Page {
        book,
        table,
        t,
        decimals,
        shown,
    };
    let mut writer = begin(alloc, names)?;
    write_below(alloc, &mut writer, &page, &[])?;
    bytes_of(writer)
}

/// The bytes that a writer has written.
pub(crate) fn bytes_of(writer: Writer<Vec<u8>>) -> Result<Vec<u8>, Memory>
    ensures text { IfOk result (λ bytes. Some bytes.items ≡ bytes_written writer) }
{
    writer.into_inner().map_err(|_| Memory)
}

/// A writer behind the line of a table's names.
pub(crate) fn begin(alloc: Global, names: &[Text]) -> Result<Writer<Vec<u8>>, Memory>
    requires at_least_one_name { 0 < length names.now }
    ensures ready { IfOk result IsReadyWriter }
    ensures text { IfOk result (λ writer. bytes_written writer ≡ Some (line_text names.now)) }
{
    let mut start = Vec::new(alloc);
    if is_empty_line(names) {
        // The csv writer would write two quotes here.
        start.push(b'\n')?;
        return Ok(WriterBuilder::new().from_writer(start));
    }
    let mut writer = WriterBuilder::new().from_writer(start);
    write_names(&mut writer, names)?;
    Ok(writer)
}

// Whether a line has one name alone, which is empty.
fn is_empty_line(names: &[Text]) -> bool
    ensures empty { result ≡ true → line_text names.now ≡ 10 ∷ [] }
    ensures shown { result ≡ false → length names.now ≡ 1 → 0 < length (slice_index_or names.now 0 []) }
{
    names.len() == 1 && names[0].as_slice().is_empty()
}

// What the lines of a table are written from.
#[derive(Clone, Copy)]
struct Page<'a> {
    book: &'a Book,
    table: &'a Dimensions,
    t: u32,
    decimals: u8,
    shown: Shown<'a>,
}

// Writes the lines of the places that begin with this one.
fn write_below(
    alloc: Global,
    writer: &mut Writer<Vec<u8>>,
    page: &Page<'_>,
    place: &[u32],
) -> Result<(), Memory>
    requires ready { IsReadyWriter writer.old }
    requires page { IsPage page.now }
    requires begun { length place.now ≤ length page.now.table.now }
    requires place { is_place_in (trees_of page.now.book.now.trees (take (length place.now) page.now.table.now))
        place.now ≡ true }
    ensures ready { OnOk result (IsReadyWriter writer.new) }
    ensures text { OnOk result (AppendsText writer.old writer.new
        (lines_below page.now.book.now page.now.table.now page.now.decimals page.now.shown place.now)) }
{
    if place.len() >= page.table.len() {
        return write_whole(alloc, writer, page, place);
    }
    let dimension = page.table.as_slice()[place.len()];
    let size = page.book.size(dimension.variable);
    'codes: for code in 0..size {
        if !page.book.has_code(dimension, code as u32) {
            continue 'codes;
        }
        let longer = with_code(place, code as u32);
        write_below(alloc, writer, page, longer.as_slice())?;
    }
    Ok(())
}

// Writes the line of a place.
fn write_whole(
    alloc: Global,
    writer: &mut Writer<Vec<u8>>,
    page: &Page<'_>,
    place: &[u32],
) -> Result<(), Memory>
    requires ready { IsReadyWriter writer.old }
    requires page { IsPage page.now }
    requires at_most_8 { length page.now.table.now ≤ 8 }
    requires code_for_each_variable { length place.now ≡ length page.now.table.now }
    requires place { is_place_in (trees_of page.now.book.now.trees page.now.table.now) place.now ≡ true }
    ensures ready { OnOk result (IsReadyWriter writer.new) }
    ensures text { OnOk result (AppendsText writer.old writer.new
        (place_line page.now.book.now page.now.table.now page.now.decimals page.now.shown place.now)) }
{
    let number = number_text(alloc, page.book, page.t, place, page.decimals, page.shown)?;
    write_place(
        writer,
        page.book,
        page.table.as_slice(),
        place,
        number.as_slice(),
    )
}
