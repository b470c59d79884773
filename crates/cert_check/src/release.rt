ghost use Rattle.std.specs.Prelude.{◌≡◌, ◌≤◌, ◌<◌, ◌+◌, ◌^◌, ◌==◌, false, slice_get, [], length, slice_index_or, Ok};
ghost use Rattle.std.specs.Option.{option_map_or};
ghost use Rattle.sdc_base.specs.Answers.{Gives};
ghost use Rattle.release_writer.specs.ReadingLaws.{AreTexts};
ghost use Rattle.release_writer.specs.Sheets.{HaveNames, HasTruthsFromZero};
ghost use Rattle.release_writer.specs.ShownCells.{open_truth};
ghost use Rattle.cert_check.specs.Cases.{IsCase};
ghost use Rattle.cert_check.specs.FirstFault.{check_fault_of};
ghost use Rattle.cert_check.specs.OwnTexts.{release_fault};
ghost use Rattle.cert_check.specs.ReleaseLines as spec;

use crate::case::Case;
use crate::faults::CheckFault;
use crate::numbering::number_of;
use linked_tables::Book;
use release_writer::{Shown, table_bytes};
use sdc_base::{Hidden, Items, Text};
use std::alloc::Global;

/// Whether the tables of a release hide exactly the cells of a set: the first line, table by table, that isn't as they
/// say, if there is one.
///
/// The case is as for [`accept`](crate::accept), and the set has a flag for each cell. Any bytes may be given. A missing
/// and a further line differ too. Want of memory is `Memory`. It writes each table once, and compares it byte by byte.
pub fn check_tables(
    alloc: Global,
    case: &Case<'_>,
    hidden: &Hidden,
    release: &[Text],
) -> Result<(), CheckFault>
    requires is_case { IsCase case.now release.now }
    requires flags { length hidden.now.flags ≡ case.now.system.now.cells }
    ensures exact { Gives check_fault_of (λ u. u) result (release_fault case.now hidden.now.flags release.now) }
    ensures texts { result ≡ Ok tt → AreTexts case.now.book.now case.now.decimals
        (open_truth case.now.book.now.marks hidden.now.flags) case.now.book.now.tables case.now.names.now release.now }
{
    check_release(alloc, case.book, hidden, case.names, case.decimals, release)
}

/// Refuses tables that aren't the texts of a hidden set.
pub(crate) fn check_release(
    alloc: Global,
    book: &Book,
    hidden: &Hidden,
    names: &[Items<Text>],
    decimals: u8,
    release: &[Text],
) -> Result<(), CheckFault>
    requires flags { length hidden.now.flags ≡ length book.now.marks }
    requires truths { HasTruthsFromZero book.now }
    requires decimals { decimals ≤ 13 }
    requires names { HaveNames names.now book.now.tables }
    requires release { length release.now ≡ length book.now.tables }
    ensures { Gives check_fault_of (λ u. u) result
        (spec.tables_fault book.now hidden.now.flags decimals 0 book.now.tables names.now release.now) }
{
    let tables = book.tables();
    'tables: for t in 0..tables {
        check_table(
            alloc,
            book,
            hidden,
            names[t as usize].as_slice(),
            decimals,
            t,
            &release[t as usize],
        )?;
    }
    Ok(())
}

// Refuses a table that isn't the text of a hidden set.
fn check_table(
    alloc: Global,
    book: &Book,
    hidden: &Hidden,
    names: &[Text],
    decimals: u8,
    t: u32,
    bytes: &Text,
) -> Result<(), CheckFault>
    requires flags { length hidden.now.flags ≡ length book.now.marks }
    requires truths { HasTruthsFromZero book.now }
    requires decimals { decimals ≤ 13 }
    requires table { t < length book.now.tables }
    requires names { length names.now ≡ length (slice_index_or book.now.tables t []) + 1 }
    ensures { Gives check_fault_of (λ u. u) result
        (spec.table_fault book.now hidden.now.flags decimals t (slice_index_or book.now.tables t []) names.now
        bytes.now) }
{
    let Ok(text) = table_bytes(alloc, book, t, names, decimals, Shown::Hidden(hidden)) else {
        return Err(CheckFault::Memory);
    };
    match differing_line(bytes.as_slice(), &text) {
        Some(line) => Err(CheckFault::Release {
            table: t,
            line: number_of(line),
        }),
        None => Ok(()),
    }
}

// The line, from 1, in which two texts first differ.
fn differing_line(one: &[u8], other: &[u8]) -> Option<usize>
    ensures { result ≡ spec.differing_line 1 one.now other.now }
{
    let mut line = 1;
    for (place, b) in one.iter().enumerate() {
        if !stands_at(other, place, *b) {
            return Some(line);
        }
        line = line_after(*b, line);
    }
    if one.len() < other.len() {
        return Some(line);
    }
    None
}

// The number of the line after a byte.
fn line_after(b: u8, line: usize) -> usize
    requires { line < 2 ^ 63 + 1 }
    ensures { result ≡ spec.line_after b line }
{
    if b == b'\n' { line + 1 } else { line }
}

// Whether this byte stands at a place.
fn stands_at(bytes: &[u8], place: usize, b: u8) -> bool
    ensures { result ≡ option_map_or (λ other. b == other) (slice_get bytes.now place) false }
{
    match bytes.get(place) {
        Some(other) => b == *other,
        None => false,
    }
}
