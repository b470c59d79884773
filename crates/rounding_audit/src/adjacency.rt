ghost use Rattle.std.specs.Prelude.{◌≡◌, ◌≤ℤ◌, ◌↔◌, ◌<◌, ◌^◌, ◌+ℤ◌, ◌-ℤ◌, int_lt, pos, length, All, IfNone, IfSome, IsTrue};
ghost use Rattle.std.specs.Int.RustNames.{int_rem};
ghost use Rattle.std.specs.Ordering.{int_eq};
ghost use Rattle.sdc_base.specs.Roundings.{IsAdjacent};
ghost use Rattle.rounding_audit.specs.ReaderFaults.{AreRoundedBelow, IsFirstUnrounded};

use sdc_base::Cell;

/// The first cell whose value isn't a multiple of the base less than one base from its truth.
pub(crate) fn first_unrounded(cells: &[Cell], values: &[i128], base: &i128) -> Option<u32>
    requires each { length values.now ≡ length cells.now }
    requires fewer_than_2_32 { length cells.now < 2 ^ 32 }
    requires base { pos 1 ≤ℤ base.now }
    requires at_most_10_22 { base.now ≤ℤ pos (10 ^ 22) }
    requires truths { All (λ cell. cell.truth ≤ℤ pos (10 ^ 29)) cells.now }
    ensures first { IfSome result (IsFirstUnrounded cells.now values.now base.now) }
    ensures none { IfNone result (AreRoundedBelow cells.now values.now base.now (length cells.now)) }
{
    'cells: for number in 0..cells.len() {
        if !is_adjacent(&cells[number], base, &values[number]) {
            return Some(number as u32);
        }
    }
    None
}

// Whether a value is a multiple of the base, less than one base from a cell's truth.
fn is_adjacent(cell: &Cell, base: &i128, value: &i128) -> bool
    requires base { pos 1 ≤ℤ base.now }
    requires at_most_10_22 { base.now ≤ℤ pos (10 ^ 22) }
    requires at_most_10_29 { cell.now.truth ≤ℤ pos (10 ^ 29) }
    ensures { IsTrue result ↔ IsAdjacent base.now cell.now.truth value.now }
{
    if !is_multiple(*base, *value) {
        return false;
    }
    is_above_lower(cell.truth, *base, *value) && is_below_upper(cell.truth, *base, *value)
}

// Whether a value is a multiple of the base.
fn is_multiple(base: i128, value: i128) -> bool
    requires base { pos 1 ≤ℤ base }
    ensures { result ≡ int_eq (int_rem value base) (pos 0) }
{
    value % base == 0
}

// Whether a value is less than one base below a truth.
fn is_above_lower(truth: i128, base: i128, value: i128) -> bool
    requires base { pos 1 ≤ℤ base }
    requires at_most_10_22 { base ≤ℤ pos (10 ^ 22) }
    requires from_zero { pos 0 ≤ℤ truth }
    ensures { result ≡ int_lt (truth -ℤ base) value }
{
    let least = truth - base;
    least < value
}

// Whether a value is less than one base above a truth.
fn is_below_upper(truth: i128, base: i128, value: i128) -> bool
    requires base { pos 1 ≤ℤ base }
    requires at_most_10_22 { base ≤ℤ pos (10 ^ 22) }
    requires from_zero { pos 0 ≤ℤ truth }
    requires at_most_10_29 { truth ≤ℤ pos (10 ^ 29) }
    ensures { result ≡ int_lt value (truth +ℤ base) }
{
    let most = truth + base;
    value < most
}
