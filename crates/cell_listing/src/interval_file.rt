ghost use Rattle.std.specs.Prelude.{◌≡◌, ℕ, Err, IfOk};
ghost use Rattle.std.specs.List.{list_any};
ghost use Rattle.sdc_base.specs.Lines.{is_line_feed};
ghost use Rattle.sdc_base.specs.Answers.{Gives};
ghost use Rattle.sdc_base.specs.Steps.{or_fault};
ghost use Rattle.plain_text.specs.Stops.{why_of};
ghost use Rattle.cell_listing.specs.IntervalFiles as spec;

use crate::amounts::number_text;
use crate::cell_range::CellRange;
use crate::interval_ends::{is_fraction, is_upper_end};
use plain_text::{Stop, cut_at};
use sdc_base::{Items, Text};
use std::alloc::Global;

/// The ranges of these hidden cells that the bytes of an interval file say: a line of the columns, and then one for each
/// cell in this order, each ended by LF, and nothing else.
///
/// The refusal is the number of the first line, from 1, that isn't as it must be; want of memory may come at any time.
/// Whether a fraction is in lowest terms isn't looked at. The cost is that of the bytes. The format is argus's own.
#[tactic(auto, unfolding(crate::specs::IntervalFiles::file_read))]
pub(crate) fn read_ranges(
    alloc: Global,
    hidden: &[u32],
    bytes: &[u8],
) -> Result<Items<CellRange>, Stop<u64>>
    ensures read { Gives why_of (λ ranges. ranges) result (spec.file_read hidden.now bytes.now) }
    // What is read is the interval file, and what isn't read is none.
    ensures ranges { IfOk result (λ ranges. spec.IsIntervalFileOf hidden.now ranges bytes.now) }
    ensures none { (line : ℕ) → result ≡ Err (Stop.Fault line) → spec.IsNoIntervalFile hidden.now bytes.now line }
{
    if !has_heading(bytes) {
        return Err(Stop::Fault(1));
    }
    let (_, lines) = cut_at(b'\n', bytes);
    ranges_in(alloc, hidden, lines)
}

// Whether the bytes begin with the line of the columns.
fn has_heading(bytes: &[u8]) -> bool
    ensures { result ≡ spec.has_heading bytes.now }
{
    if !has_line(bytes) {
        return false;
    }
    let (first, _) = cut_at(b'\n', bytes);
    first == b"cell,low,high".as_slice()
}

// Whether LF ends the first line.
fn has_line(bytes: &[u8]) -> bool
    ensures { result ≡ list_any is_line_feed bytes.now }
{
    bytes.contains(&b'\n')
}

// The ranges of the cells in their lines, the first of which is line 2.
fn ranges_in(alloc: Global, hidden: &[u32], lines: &[u8]) -> Result<Items<CellRange>, Stop<u64>>
    ensures { Gives why_of (λ ranges. ranges) result (spec.ranges_read hidden.now lines.now 2) }
{
    let mut ranges = Items::empty(alloc);
    let mut rest = lines;
    let mut number = 2;
    'cells: for cell in hidden {
        if !has_line(rest) {
            return Err(Stop::Fault(number));
        }
        let (line, behind) = cut_at(b'\n', rest);
        let range = range_in(alloc, *cell, line, number)?;
        ranges.push(range)?;
        rest = behind;
        number += 1;
    }
    if !rest.is_empty() {
        return Err(Stop::Fault(number));
    }
    Ok(ranges)
}

// The range of a cell in its line, which has this number.
fn range_in(alloc: Global, cell: u32, line: &[u8], number: u64) -> Result<CellRange, Stop<u64>>
    ensures { Gives why_of (λ range. range) result (or_fault number (spec.range_in cell line.now)) }
{
    let (digits, ends) = cut_at(b',', line);
    let (low, high) = cut_at(b',', ends);
    let own = number_text(alloc, u64::from(cell))?;
    if !is_range(own.as_slice(), digits, low, high) {
        return Err(Stop::Fault(number));
    }
    Ok(CellRange {
        cell,
        low: Text::from_slice(alloc, low)?,
        high: Text::from_slice(alloc, high)?,
    })
}

// Whether the digits are these, and the ends are those of a range.
fn is_range(own: &[u8], digits: &[u8], low: &[u8], high: &[u8]) -> bool
    ensures { result ≡ spec.is_range own.now digits.now low.now high.now }
{
    if digits != own {
        return false;
    }
    if !is_fraction(low) {
        return false;
    }
    is_upper_end(high)
}
