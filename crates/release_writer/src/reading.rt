ghost use Rattle.std.specs.Prelude.{◌≡◌, ◌≤◌, ◌+◌, [], length, slice_get, take, true, All, IfOk, OnOk};
ghost use Rattle.std.specs.Option.{ForSome};
ghost use Rattle.sdc_base.specs.Answers.{Gives};
ghost use Rattle.sdc_base.specs.Cells.{trees_of};
ghost use Rattle.sdc_base.specs.CellOrder.{is_place_in};
ghost use Rattle.release_writer.specs.ReleaseReading as spec;
ghost use Rattle.release_writer.specs.Sheets.{release_fault_of, form_of, reading_of, IsFromZero, IsTableLayout};

use crate::choices::value_there;
use crate::release_fault::ReleaseFault;
use crate::sheet::{LineMatch, Progress, TableLayout};
use std::alloc::Global;

/// Reads the line of a place.
#[tactic(auto, unfolding(crate::specs::ReleaseReading::read_place))]
pub(crate) fn read_place<'a>(
    alloc: Global,
    sheet: &TableLayout<'_>,
    progress: &mut Progress<'a>,
    place: &[u32],
) -> Result<(), ReleaseFault>
    requires sheet { IsTableLayout sheet.now }
    requires code_for_each_variable { length place.now ≡ length sheet.now.table.now }
    requires place { is_place_in (trees_of sheet.now.book.now.trees sheet.now.table.now) place.now ≡ true }
    requires shown { All IsFromZero progress.old.shown }
    ensures exact { Gives release_fault_of (λ _. reading_of progress.new) result
        (spec.read_place (form_of sheet.now) (reading_of progress.old) place.now) }
    ensures shown { OnOk result (All IsFromZero progress.new.shown) }
{
    let Some(cell) = sheet.book.id(sheet.t, place) else {
        return Err(bad_line(sheet, progress.line));
    };
    let known = value_at(progress.shown.as_slice(), cell as usize);
    let Some(fit) = value_there(alloc, sheet, place, progress.rest, cell, known)? else {
        return Err(bad_line(sheet, progress.line));
    };
    take_in(progress, cell, fit)
}

/// A line is bad.
pub(crate) fn bad_line(sheet: &TableLayout<'_>, line: u32) -> ReleaseFault
    ensures { release_fault_of result ≡ Some (sheet.now.t, line) }
{
    ReleaseFault::At {
        table: sheet.t,
        line,
    }
}

// What a list has at a place.
fn value_at(shown: &[Option<i128>], cell: usize) -> Option<Option<i128>>
    requires from_zero { All IsFromZero shown.now }
    ensures value { result ≡ slice_get shown.now cell }
    ensures from_zero { ForSome result IsFromZero }
{
    let value = shown.get(cell)?;
    Some(*value)
}

// Takes in what a cell shows.
fn take_in<'a>(
    progress: &mut Progress<'a>,
    cell: u32,
    fit: LineMatch<'a>,
) -> Result<(), ReleaseFault>
    requires shown { All IsFromZero progress.old.shown }
    requires fit { IsFromZero fit.value }
    ensures exact { Gives release_fault_of (λ _. reading_of progress.new) result
        (spec.reading_after (reading_of progress.old) cell (fit.entry.value, fit.entry.rest.now)) }
    ensures shown { OnOk result (All IsFromZero progress.new.shown) }
{
    if cell as usize >= progress.shown.as_slice().len() {
        progress.shown.push(fit.value)?;
    }
    progress.rest = fit.rest;
    progress.line = progress.line.saturating_add(1);
    Ok(())
}
