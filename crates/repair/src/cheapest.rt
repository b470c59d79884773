ghost use Rattle.std.specs.Prelude.{◌≡◌, ℕ, ◌<◌, ◌^◌, false, length, IfNone, IfSome};
ghost use Rattle.std.specs.Option.{ForSome};
ghost use Rattle.sdc_base.specs.Systems.{number_at};
ghost use Rattle.worlds.specs.RefutationFaults.{IsGivenRefutation};
ghost use Rattle.repair.specs.HidingOrder.{breaks, breaks_at, coefficients_for, IsCheapest};
ghost use Rattle.repair.specs.Choices.{cheaper_of};

use crate::task::Task;
use sdc_base::{Cell, Hidden, Side};
use worlds::{Multipliers, check_refutation};

// The cheapest cell that would break a refutation.
pub(crate) fn subject_of(
    task: &Task<'_, '_>,
    hidden: &Hidden,
    asked: (u32, Side),
    multipliers: &Multipliers,
    scratch: &mut [i128],
) -> Option<u32>
    requires flags { length hidden.now.flags ≡ task.now.system.now.cells }
    requires scratch { length scratch.old ≡ task.now.system.now.cells }
    requires asked { asked.0 < task.now.system.now.cells }
    requires refutes { IsGivenRefutation task.now.system.now task.now.cells.now hidden.now.flags asked.0 asked.1
        multipliers.now }
    ensures length { length scratch.new ≡ length scratch.old }
    ensures none { IfNone result ((number : ℕ)
        → breaks_at task.now.cells.now hidden.now.flags (coefficients_for task.now.system.now asked multipliers.now)
        number ≡ false) }
    ensures cheapest { IfSome result (λ number. IsCheapest task.now.cells.now task.now.prices.now hidden.now.flags
        (coefficients_for task.now.system.now asked multipliers.now) number) }
{
    let system = task.system.system();
    match check_refutation(
        system,
        task.cells,
        hidden,
        asked.0,
        asked.1,
        multipliers,
        scratch,
    ) {
        Ok(()) => find_cheapest(task.cells, hidden.flags.as_slice(), task.prices, scratch),
        Err(_) => unreachable!(),
    }
}

/// The cell of lowest price, then of lowest number, of those that are free and shown and count; none where there is no
/// such cell.
///
/// There are a flag, a price and a count for each cell, in the order of their numbers from 0. Nothing is refused; it
/// goes once through the cells and takes no memory. That the cheapest cell is hidden is argus's own.
pub fn find_cheapest(cells: &[Cell], flags: &[bool], prices: &[u64], counts: &[i128]) -> Option<u32>
    requires flags { length flags.now ≡ length cells.now }
    requires prices { length prices.now ≡ length cells.now }
    requires counts { length counts.now ≡ length cells.now }
    requires fewer_than_2_32 { length cells.now < 2 ^ 32 }
    ensures none { IfNone result ((number : ℕ) → breaks_at cells.now flags.now (number_at counts.now) number ≡ false) }
    ensures cheapest { IfSome result (λ number. IsCheapest cells.now prices.now flags.now (number_at counts.now) number) }
{
    let mut best = None;
    for (number, cell) in cells.iter().enumerate() {
        if is_breaking(cell, flags[number], counts[number]) {
            best = take_cheaper(prices, best, number as u32);
        }
    }
    best
}

// Whether a cell is free and shown, and counts.
fn is_breaking(cell: &Cell, hidden: bool, count: i128) -> bool
    ensures { result ≡ breaks hidden count cell.now }
{
    cell.kind.is_free() && !hidden && count != 0
}

// Of the best cell so far and one more, the one of lower price; of one price the best so far.
fn take_cheaper(prices: &[u64], best: Option<u32>, number: u32) -> Option<u32>
    requires number { number < length prices.now }
    requires best { ForSome best (λ one. one < length prices.now) }
    ensures { result ≡ cheaper_of prices.now best number }
{
    match best {
        None => Some(number),
        Some(one) => {
            if prices[number as usize] < prices[one as usize] {
                Some(number)
            } else {
                Some(one)
            }
        }
    }
}
