ghost use Rattle.std.specs.Prelude.{◌≡◌, ◌<◌, ◌+◌, ◌++◌, ◌∷◌, [], ℕ, List, IfOk, OnOk, length};
ghost use Rattle.sdc_base.specs.TableText.{line_text};
ghost use Rattle.release_writer.specs.Lines.{IsReadyWriter, AppendsText};
ghost use Rattle.job_check.specs.Accepted.{IsAcceptedAs};
ghost use Rattle.job_check.specs.Reading.{IsReadyRelease};
ghost use Rattle.job_check.specs.ReleaseFiles.{ReleasedFiles};
ghost use Rattle.cell_listing.specs.Columns as columns;
ghost use Rattle.cell_listing.specs.IntervalFiles.{IsIntervalFileOf, hidden_in};
ghost use Rattle.cell_listing.specs.IntervalListings as spec;
ghost use Rattle.cell_listing.specs.ReleasedCells.{amounts_in, AreReleasedIn};
ghost use Rattle.cell_listing.specs.ReleasedListings as outcomes;

use crate::cell_range::CellRange;
use crate::csv_line::{bytes_of, empty_writer, write_line};
use crate::fields::column_names;
use crate::released_cells::{ReleasedCells, released_cells};
use crate::released_listing::{OUTCOME_NAMES, released_fields};
use crate::words::{add_word, add_words};
use csv::Writer;
use job_check::ReadRelease;
use sdc_base::{Items, Memory, Text};
use std::alloc::Global;

// The columns of an interval.
const END_NAMES: &[&[u8]] = &[b"interval_low", b"interval_high"];

/// The bytes of the listing of a release that is accepted, as
/// [`released_listing_for`](crate::released_listing_for) gives them, with two columns more: both ends of a hidden cell's
/// range, as they stand in the interval file, and nothing for another cell.
///
/// The ranges are those of the release's hidden cells, as its interval file has them. Want of memory is the only refusal.
/// Beside the cost of the listing of the release it takes one look at each range.
///
/// That intervals stand beside what a release made of a cell is this project's own.
pub(crate) fn interval_listing_for(
    alloc: Global,
    read: &ReadRelease,
    ranges: &[CellRange],
) -> Result<Vec<u8>, Memory>
    requires ready { IsReadyRelease read.now }
    requires ascending { spec.AscendFrom 0 ranges.now }
    ensures over_records { IfOk result (λ bytes. (released : ReleasedFiles) (file : List ℕ) → IsAcceptedAs released read.now
        → IsIntervalFileOf (hidden_in released) ranges.now file → spec.IsIntervalListingOf released file bytes.items) }
{
    let cells = released_cells(alloc, read)?;
    let mut writer = empty_writer(alloc);
    write_names(alloc, &mut writer, read)?;
    write_cells(alloc, &mut writer, read, &cells, ranges)?;
    bytes_of(writer)
}

// Writes the line of the columns' names.
fn write_names(
    alloc: Global,
    writer: &mut Writer<Vec<u8>>,
    read: &ReadRelease,
) -> Result<(), Memory>
    requires ready { IsReadyWriter writer.old }
    ensures ready { OnOk result (IsReadyWriter writer.new) }
    ensures text { OnOk result (AppendsText writer.old writer.new
        (line_text ((columns.column_names read.now.job.described ++ outcomes.outcome_names) ++ spec.end_names))) }
{
    let mut names = column_names(alloc, &read.job.described)?;
    add_words(alloc, &mut names, OUTCOME_NAMES)?;
    add_words(alloc, &mut names, END_NAMES)?;
    write_line(writer, names.as_slice())
}

// Writes the lines of the cells.
fn write_cells(
    alloc: Global,
    writer: &mut Writer<Vec<u8>>,
    read: &ReadRelease,
    cells: &ReleasedCells,
    ranges: &[CellRange],
) -> Result<(), Memory>
    requires writer { IsReadyWriter writer.old }
    requires ready { IsReadyRelease read.now }
    requires cells { AreReleasedIn read.now cells.now }
    requires ascending { spec.AscendFrom 0 ranges.now }
    ensures ready { OnOk result (IsReadyWriter writer.new) }
    ensures text { OnOk result (AppendsText writer.old writer.new (spec.interval_lines read.now cells.now ranges.now)) }
{
    let mut place = 0;
    'lines: for number in 0..read.job.book.cells() {
        let ends = ends_at(ranges, place, number);
        let fields = interval_fields(alloc, read, cells, number, &ends)?;
        write_line(writer, fields.as_slice())?;
        place = place_behind(ranges, place, number);
    }
    Ok(())
}

// The texts of both ends of a cell's range, empty where it has none.
#[derive(Clone, Copy)]
struct Ends<'a> {
    low: &'a [u8],
    high: &'a [u8],
}

// The ends of the range of the cell with this number, which stands at this place where there is one.
fn ends_at<'a>(ranges: &'a [CellRange], place: usize, number: u32) -> Ends<'a>
    requires next { spec.IsNext ranges.now place number }
    ensures { result.low.now ∷ result.high.now ∷ [] ≡ spec.end_fields (spec.range_of ranges.now number) }
{
    let Some(range) = ranges.get(place) else {
        return Ends {
            low: b"",
            high: b"",
        };
    };
    if range.cell != number {
        return Ends {
            low: b"",
            high: b"",
        };
    }
    Ends {
        low: range.low.as_slice(),
        high: range.high.as_slice(),
    }
}

// The place of the ranges behind the cell with this number.
fn place_behind(ranges: &[CellRange], place: usize, number: u32) -> usize
    requires next { spec.IsNext ranges.now place number }
    ensures { spec.IsNext ranges.now result (number + 1) }
{
    let Some(range) = ranges.get(place) else {
        return place;
    };
    if range.cell != number {
        return place;
    }
    place + 1
}

// All that stands in the line of the cell with this number, whose range has these ends.
fn interval_fields(
    alloc: Global,
    read: &ReadRelease,
    cells: &ReleasedCells,
    number: u32,
    ends: &Ends<'_>,
) -> Result<Items<Text>, Memory>
    requires ready { IsReadyRelease read.now }
    requires cells { AreReleasedIn read.now cells.now }
    ensures at_least_two { IfOk result (λ fields. 1 < length fields) }
    ensures fields { IfOk result (spec.AreIntervalFieldsAt read.now (amounts_in cells.now) number
        (ends.now.low.now ∷ ends.now.high.now ∷ [])) }
{
    let mut fields = released_fields(alloc, read, cells, number)?;
    add_word(alloc, &mut fields, ends.low)?;
    add_word(alloc, &mut fields, ends.high)?;
    Ok(fields)
}
