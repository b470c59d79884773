ghost use Rattle.std.specs.Prelude.{◌≡◌, ◌<◌, ◌≤◌, length, map, take, All, IfOk};
ghost use Rattle.sdc_base.specs.Answers.{Gives};
ghost use Rattle.sdc_base.specs.Steps.{map_ok};
ghost use Rattle.sdc_base.specs.TableText.{line_text};
ghost use Rattle.release_writer.specs.ReleaseReading as spec;
ghost use Rattle.release_writer.specs.Sheets.{release_fault_of, form_of, HaveNames, HasTruthsFromZero, IsFromZero, IsTableLayout};

use crate::below::read_all;
use crate::choices::rest_behind;
use crate::reading::bad_line;
use crate::release_fault::ReleaseFault;
use crate::sheet::{Progress, TableLayout};
use crate::tables::{begin, bytes_of};
use linked_tables::Book;
use sdc_base::{Hidden, Items, Memory, Text};
use std::alloc::Global;

/// The hidden set whose texts these bytes are, or the first bad line.
///
/// The line of a place is that of its truth or that of `x`; a cell that several tables have shows the same in each. The
/// first line that isn't so, that isn't a table's line of names, or that is missing or too many, is refused as `At`, by
/// its table from 0 and its line from 1. Nothing is cut into lines: a line is as long as the text that it has to be, so
/// that a name or a code may hold line ends; CRLF is no line's end.
///
/// It takes a list of names and a list of bytes for each table; the names are those of the table's variables and of the
/// response, and truths are from 0. Want of memory is `Memory`. It writes at most two lines for each place. The lines
/// are the manual's, that a table has one spelling is argus's own.
pub fn hidden_of(
    alloc: Global,
    book: &Book,
    names: &[Items<Text>],
    decimals: u8,
    tables: &[Text],
) -> Result<Hidden, ReleaseFault>
    requires decimals { decimals ≤ 13 }
    requires truths { HasTruthsFromZero book.now }
    requires names { HaveNames names.now book.now.tables }
    requires tables { length tables.now ≡ length book.now.tables }
    ensures exact { Gives release_fault_of (λ hidden. hidden.flags) result
        (spec.hidden_read book.now names.now decimals tables.now) }
{
    let shown = release_shown(alloc, book, names, decimals, false, tables)?;
    let flags = flags_of(alloc, shown.as_slice())?;
    Ok(Hidden { flags })
}

/// The numbers whose texts these bytes are, each from 0 and below `10^37`, or the first bad line.
///
/// The line of a place has a number with so many decimals; all else is as for [`hidden_of`], its source too.
pub fn rounded_of(
    alloc: Global,
    book: &Book,
    names: &[Items<Text>],
    decimals: u8,
    tables: &[Text],
) -> Result<Items<i128>, ReleaseFault>
    requires decimals { decimals ≤ 13 }
    requires truths { HasTruthsFromZero book.now }
    requires names { HaveNames names.now book.now.tables }
    requires tables { length tables.now ≡ length book.now.tables }
    ensures exact { Gives release_fault_of (λ numbers. numbers) result
        (spec.rounded_read book.now names.now decimals tables.now) }
{
    let shown = release_shown(alloc, book, names, decimals, true, tables)?;
    let numbers = shown_numbers(alloc, shown.as_slice())?;
    Ok(numbers)
}

// The flags of cells that show this.
fn flags_of(alloc: Global, shown: &[Option<i128>]) -> Result<Items<bool>, Memory>
    ensures { IfOk result (λ flags. flags ≡ spec.flags_of shown.now) }
{
    let mut flags = Items::empty(alloc);
    'values: for value in shown {
        flags.push(value.is_none())?;
    }
    Ok(flags)
}

// The numbers of cells that show this.
fn shown_numbers(alloc: Global, shown: &[Option<i128>]) -> Result<Items<i128>, Memory>
    ensures { IfOk result (λ numbers. numbers ≡ spec.shown_numbers shown.now) }
{
    let mut numbers = Items::empty(alloc);
    'values: for value in shown {
        numbers.push(value.unwrap_or(0))?;
    }
    Ok(numbers)
}

// What the cells of a release show.
fn release_shown(
    alloc: Global,
    book: &Book,
    names: &[Items<Text>],
    decimals: u8,
    rounded: bool,
    tables: &[Text],
) -> Result<Items<Option<i128>>, ReleaseFault>
    requires decimals { decimals ≤ 13 }
    requires truths { HasTruthsFromZero book.now }
    requires names { HaveNames names.now book.now.tables }
    requires tables { length tables.now ≡ length book.now.tables }
    ensures exact { Gives release_fault_of (λ shown. shown) result
        (spec.release_read book.now names.now decimals rounded tables.now) }
{
    let mut shown = Items::empty(alloc);
    'tables: for t in 0..book.tables() {
        let Some(table) = book.spans(t) else {
            return Err(ReleaseFault::Memory);
        };
        let sheet = TableLayout {
            book,
            table,
            t,
            decimals,
            rounded,
        };
        let own = &names[t as usize];
        let bytes = &tables[t as usize];
        shown = read_table(alloc, &sheet, own.as_slice(), bytes.as_slice(), shown)?;
    }
    Ok(shown)
}

// Reads a table.
#[tactic(auto, unfolding(crate::specs::ReleaseReading::read_table))]
fn read_table(
    alloc: Global,
    sheet: &TableLayout<'_>,
    names: &[Text],
    bytes: &[u8],
    shown: Items<Option<i128>>,
) -> Result<Items<Option<i128>>, ReleaseFault>
    requires sheet { IsTableLayout sheet.now }
    requires names { 0 < length names.now }
    requires shown { All IsFromZero shown }
    ensures exact { Gives release_fault_of (λ shown. shown) result
        (spec.read_table (form_of sheet.now) names.now bytes.now shown) }
    ensures shown { IfOk result (λ shown. All IsFromZero shown) }
{
    let line = names_line(alloc, names)?;
    let Some(rest) = rest_behind(line.as_slice(), bytes) else {
        return Err(bad_line(sheet, 1));
    };
    let mut progress = Progress {
        shown,
        rest,
        line: 2,
    };
    read_all(alloc, sheet, &mut progress)?;
    if !progress.rest.is_empty() {
        return Err(bad_line(sheet, progress.line));
    }
    Ok(progress.shown)
}

// The line of a table's names.
fn names_line(alloc: Global, names: &[Text]) -> Result<Vec<u8>, Memory>
    requires at_least_one_name { 0 < length names.now }
    ensures line { IfOk result (λ line. line.items ≡ line_text names.now) }
{
    let writer = begin(alloc, names)?;
    bytes_of(writer)
}
