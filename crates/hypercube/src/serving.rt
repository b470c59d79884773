ghost use Rattle.std.specs.Prelude.{◌≡◌, ◌&&◌, ◌≤ℤ◌, ◌+ℤ◌, pos, neg_ℤ, false, slice_get};
ghost use Rattle.std.specs.Option.{option_map_or};
ghost use Rattle.sdc_base.specs.Cubes as spec;

use sdc_base::{Cell, Corner, Levels};

/// Whether each corner bears the levels.
pub(crate) fn serve(cells: &[Cell], levels: Levels, corners: &[Corner]) -> bool
    requires up { pos 0 ≤ℤ levels.up }
    requires down { pos 0 ≤ℤ levels.down }
    ensures { result ≡ spec.serve cells.now levels corners.now }
{
    for corner in corners {
        if !bears_at(cells, levels, *corner) {
            return false;
        }
    }
    true
}

/// Whether a corner's cell bears the levels.
pub(crate) fn bears_at(cells: &[Cell], levels: Levels, corner: Corner) -> bool
    requires up { pos 0 ≤ℤ levels.up }
    requires down { pos 0 ≤ℤ levels.down }
    ensures { result ≡ option_map_or (spec.bears levels corner.plus) (slice_get cells.now corner.cell) false }
{
    match cells.get(corner.cell as usize) {
        Some(cell) => bears(levels, corner.plus, cell),
        None => false,
    }
}

// Whether a cell may be hidden, and stays within its bounds along its sign and against it.
fn bears(levels: Levels, plus: bool, cell: &Cell) -> bool
    requires up { pos 0 ≤ℤ levels.up }
    requires down { pos 0 ≤ℤ levels.down }
    ensures { result ≡ spec.bears levels plus cell.now }
{
    if cell.kind.is_fixed() {
        return false;
    }
    if plus {
        return has_room(cell, levels.up, levels.down);
    }
    has_room(cell, levels.down, levels.up)
}

// Whether the cell stays within its bounds where it moves so far upwards or downwards.
fn has_room(cell: &Cell, up: i128, down: i128) -> bool
    requires up { pos 0 ≤ℤ up }
    requires down { pos 0 ≤ℤ down }
    ensures { result ≡ (spec.is_within cell.now (cell.now.truth +ℤ up)
        && spec.is_within cell.now (cell.now.truth +ℤ neg_ℤ down)) }
{
    has_room_above(cell, up) && has_room_below(cell, down)
}

// Whether the cell stays within its bounds where it moves so far upwards.
fn has_room_above(cell: &Cell, up: i128) -> bool
    requires { pos 0 ≤ℤ up }
    ensures { result ≡ spec.is_within cell.now (cell.now.truth +ℤ up) }
{
    match cell.high {
        Some(high) => up <= high - cell.truth,
        None => true,
    }
}

// Whether the cell stays within its bounds where it moves so far downwards.
fn has_room_below(cell: &Cell, down: i128) -> bool
    requires { pos 0 ≤ℤ down }
    ensures { result ≡ spec.is_within cell.now (cell.now.truth +ℤ neg_ℤ down) }
{
    down <= cell.truth - cell.low
}
