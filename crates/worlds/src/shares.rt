ghost use Rattle.std.specs.Prelude.{◌≡◌, ◌<◌, ◌^◌, length, pos, ◌+ℤ◌, ◌*ℤ◌};
ghost use Rattle.sdc_base.specs.HiddenSets.{is_hidden};
ghost use Rattle.sdc_base.specs.Worlds.{level};
ghost use Rattle.worlds.specs.BoundedNumbers.{within_128_bits};
ghost use Rattle.sdc_base.specs.Systems.{number_at};
ghost use Rattle.worlds.specs.RefutationFaults.{share_or_fault, summed_from};

use crate::faults::RefutationFault;
use sdc_base::{Cell, Side};

// The shares of all cells added up, by their coefficients.
pub(crate) fn sum_shares(
    cells: &[Cell],
    flags: &[bool],
    coefficients: &[i128],
) -> Result<i128, RefutationFault>
    requires flags { length flags.now ≡ length cells.now }
    requires coefficients { length coefficients.now ≡ length cells.now }
    requires fewer_than_2_32 { length cells.now < 2 ^ 32 }
    ensures { result ≡ summed_from flags.now (number_at coefficients.now) 0 (pos 0) cells.now }
{
    let mut sum = 0;
    for (number, cell) in cells.iter().enumerate() {
        let part = share_of(flags, coefficients, number as u32, cell)?;
        sum = held_sum(number as u32, sum, part)?;
    }
    Ok(sum)
}

// What the cell with a number adds to the bound sum.
fn share_of(
    flags: &[bool],
    coefficients: &[i128],
    number: u32,
    cell: &Cell,
) -> Result<i128, RefutationFault>
    requires flag { number < length flags.now }
    requires coefficient { number < length coefficients.now }
    ensures { result ≡ share_or_fault (is_hidden flags.now number) number (number_at coefficients.now number) cell.now }
{
    let place = number as usize;
    if !flags[place] {
        return Ok(0);
    }
    let coefficient = coefficients[place];
    if coefficient <= 0 {
        let room = cell.low - cell.truth;
        return held_product(number, coefficient, room);
    }
    let Some(high) = cell.high else {
        return Err(RefutationFault::Unbounded(number));
    };
    let room = high - cell.truth;
    held_product(number, coefficient, room)
}

// A sum, or the cell where it leaves 128 bits.
fn held_sum(number: u32, one: i128, other: i128) -> Result<i128, RefutationFault>
    ensures { result ≡ within_128_bits number (one +ℤ other) }
{
    let Some(sum) = one.checked_add(other) else {
        return Err(RefutationFault::Wide(number));
    };
    Ok(sum)
}

// A product, or the cell where it leaves 128 bits.
pub(crate) fn held_product(number: u32, one: i128, other: i128) -> Result<i128, RefutationFault>
    ensures { result ≡ within_128_bits number (one *ℤ other) }
{
    let Some(product) = one.checked_mul(other) else {
        return Err(RefutationFault::Wide(number));
    };
    Ok(product)
}

// How far a cell must be open to a side.
pub(crate) fn level_of(cell: &Cell, side: Side) -> i128
    ensures { result ≡ level side cell.now }
{
    match side {
        Side::Above => cell.up,
        Side::Below => cell.down,
    }
}
