ghost use Rattle.std.specs.Prelude.{◌≡◌, ◌≤◌, length, take, true, All, OnOk};
ghost use Rattle.sdc_base.specs.Answers.{Gives};
ghost use Rattle.sdc_base.specs.Cells.{places, trees_of};
ghost use Rattle.sdc_base.specs.CellOrder.{is_place_in};
ghost use Rattle.release_writer.specs.ReleaseReading as spec;
ghost use Rattle.release_writer.specs.Sheets.{release_fault_of, form_of, reading_of, places_below, IsFromZero, IsTableLayout};

use crate::reading::read_place;
use crate::release_fault::ReleaseFault;
use crate::sheet::{Progress, TableLayout};
use sdc_base::with_code;
use std::alloc::Global;

/// Reads the lines of all places.
pub(crate) fn read_all<'a>(
    alloc: Global,
    sheet: &TableLayout<'_>,
    progress: &mut Progress<'a>,
) -> Result<(), ReleaseFault>
    requires sheet { IsTableLayout sheet.now }
    requires shown { All IsFromZero progress.old.shown }
    ensures exact { Gives release_fault_of (λ _. reading_of progress.new) result
        (spec.read_places (form_of sheet.now) (reading_of progress.old)
        (places (trees_of sheet.now.book.now.trees sheet.now.table.now))) }
    ensures shown { OnOk result (All IsFromZero progress.new.shown) }
{
    read_below(alloc, sheet, progress, &[])
}

// Reads the lines of the places that begin with this one.
fn read_below<'a>(
    alloc: Global,
    sheet: &TableLayout<'_>,
    progress: &mut Progress<'a>,
    place: &[u32],
) -> Result<(), ReleaseFault>
    requires sheet { IsTableLayout sheet.now }
    requires begun { length place.now ≤ length sheet.now.table.now }
    requires place { is_place_in (trees_of sheet.now.book.now.trees (take (length place.now) sheet.now.table.now))
        place.now ≡ true }
    requires shown { All IsFromZero progress.old.shown }
    ensures exact { Gives release_fault_of (λ _. reading_of progress.new) result
        (spec.read_places (form_of sheet.now) (reading_of progress.old) (places_below (form_of sheet.now) place.now)) }
    ensures shown { OnOk result (All IsFromZero progress.new.shown) }
{
    if place.len() >= sheet.table.len() {
        return read_place(alloc, sheet, progress, place);
    }
    let dimension = sheet.table.as_slice()[place.len()];
    let size = sheet.book.size(dimension.variable);
    'codes: for code in 0..size {
        if !sheet.book.has_code(dimension, code as u32) {
            continue 'codes;
        }
        let longer = with_code(place, code as u32);
        read_below(alloc, sheet, progress, longer.as_slice())?;
    }
    Ok(())
}
