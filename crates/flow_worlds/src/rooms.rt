ghost use Rattle.std.specs.Prelude.{◌≡◌, ◌^◌, ◌≤ℤ◌, ◌+ℤ◌, ◌*ℤ◌, pos, true};
ghost use Rattle.sdc_base.specs.Signs.{number_with_sign};
ghost use Rattle.sdc_base.specs.Worlds.{IsWithinBounds};
ghost use Rattle.flow_worlds.specs.Rooms as spec;

use sdc_base::Cell;

// Whether a cell that has moved so far can go further up, or further down.
pub(crate) fn has_room(cell: &Cell, up: bool, by: i128) -> bool
    ensures { result ≡ spec.has_room up cell.now by }
{
    if up {
        return has_rise(cell, by);
    }
    by > cell.low - cell.truth
}

// Whether a cell that has moved so far can go further up.
fn has_rise(cell: &Cell, by: i128) -> bool
    ensures { result ≡ spec.has_room true cell.now by }
{
    let Some(high) = cell.high else { return true };
    by < high - cell.truth
}

// How far a cell that has moved so far can go further up, or further down, but no further than this.
pub(crate) fn room_of(cell: &Cell, up: bool, by: i128, most: i128) -> i128
    requires within { IsWithinBounds cell.now (pos 1) by }
    requires room { spec.has_room up cell.now by ≡ true }
    requires from_one { pos 1 ≤ℤ most }
    requires to_2_110 { most ≤ℤ pos (2 ^ 110) }
    ensures from_one { pos 1 ≤ℤ result }
    ensures at_most { result ≤ℤ most }
    ensures kept { IsWithinBounds cell.now (pos 1) (by +ℤ result *ℤ number_with_sign up (pos 1)) }
{
    if up {
        return rise_of(cell, by, most);
    }
    let fall = cell.truth - cell.low;
    if by >= most - fall { most } else { fall + by }
}

// How far a cell that has moved so far can go further up, but no further than this.
fn rise_of(cell: &Cell, by: i128, most: i128) -> i128
    requires within { IsWithinBounds cell.now (pos 1) by }
    requires room { spec.has_room true cell.now by ≡ true }
    requires from_one { pos 1 ≤ℤ most }
    requires to_2_110 { most ≤ℤ pos (2 ^ 110) }
    ensures from_one { pos 1 ≤ℤ result }
    ensures at_most { result ≤ℤ most }
    ensures kept { IsWithinBounds cell.now (pos 1) (by +ℤ result) }
{
    let Some(high) = cell.high else { return most };
    let rise = high - cell.truth;
    if by <= rise - most { most } else { rise - by }
}
