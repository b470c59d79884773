ghost use Rattle.std.specs.Prelude.{◌≡◌, ℕ, ◌+◌, ◌-◌, ◌<◌, ◌≤◌, [], length, map, take, slice_index_or, pos, ◌≤ℤ◌, ◌*ℤ◌, unsigned_abs, true, Err, IfOk, IfSome, IfNone};
ghost use Prim.Native.Nat.{◌∣◌};
ghost use Rattle.sdc_base.specs.Forms.{coefficient};
ghost use Rattle.sdc_base.specs.Systems.{number_at};
ghost use Rattle.tableau.specs.Entries.{IsSparse};
ghost use Rattle.tableau.specs.OwnRows.{own_den, factor_of, row_over, AreWithDens, IsDenOf};
ghost use Rattle.tableau.specs.NewRows.{placed_list, placed_lists};
ghost use Rattle.tableau.specs.Widths.{is_wide};

use crate::dividing::quotient;
use crate::entries::{number_here, past_place};
use crate::faults::{ExchangeFault, RowFault};
use crate::multiples::placed;
use crate::products::narrow_product;
use crate::sparse_rows::{den_of, value_of};
use sdc_base::Items;
use std::alloc::Global;

// How many times a row's own den is a table's.
fn factor(den: i128, width: u32, entries: &[(u32, i128)]) -> i128
    requires above { pos 1 ≤ℤ den }
    requires sparse { IsSparse 0 (width + 1) entries.now }
    requires own { pos 1 ≤ℤ own_den width entries.now }
    requires divides { unsigned_abs (own_den width entries.now) ∣ unsigned_abs den }
    ensures { result ≡ factor_of den width entries.now }
{
    quotient(den, den_of(entries, width))
}

// A number taken so many times, none where that is wide.
pub(crate) fn number_over(number: i128, times: i128) -> Option<i128>
    ensures over { IfSome result (λ over. over ≡ number *ℤ times) }
    ensures none { IfNone result (is_wide (number *ℤ times) ≡ true) }
{
    if times == 1 {
        return Some(number);
    }
    let Some(over) = narrow_product(number, times) else {
        return None;
    };
    Some(over)
}

// The values of the first rows after an exchange, over its den; a wide one is at the value's place of its row.
pub(crate) fn values_over(
    alloc: Global,
    den: i128,
    width: u32,
    count: usize,
    olds: &[Items<(u32, i128)>],
    news: &[Option<Items<(u32, i128)>>],
) -> Result<Vec<i128>, ExchangeFault>
    requires width { 0 < width }
    requires count { count ≤ length news.now }
    requires long { length news.now ≤ length olds.now }
    requires dens { AreWithDens width (placed_lists olds.now news.now) }
    requires den { IsDenOf width (placed_lists olds.now news.now) den }
    ensures ok { IfOk result (λ values. values.items ≡ map (λ row. number_at row (width - 1))
        (map (row_over den width) (take count (placed_lists olds.now news.now)))) }
    ensures wide { (k j : ℕ) → result ≡ Err (ExchangeFault.Wide k j) → (k < count) × (j ≡ width - 1)
        × (is_wide (number_at (row_over den width (slice_index_or (placed_lists olds.now news.now) k [])) j) ≡ true) }
{
    let Ok(mut values) = Vec::with_capacity(alloc, count) else {
        return Err(ExchangeFault::Memory);
    };
    for k in 0..count {
        let own = placed(&olds[k], &news[k]);
        let number = value_of(own, width);
        let Some(over) = number_over(number, factor(den, width, own)) else {
            return Err(ExchangeFault::Wide(k, (width - 1) as usize));
        };
        match values.push(over) {
            Ok(()) => {}
            Err(_) => return Err(ExchangeFault::Memory),
        }
    }
    Ok(values)
}

// The numbers of a row over a table's den.
pub(crate) fn row_numbers(
    alloc: Global,
    den: i128,
    width: u32,
    own: &[(u32, i128)],
) -> Result<Vec<i128>, RowFault>
    requires above { pos 1 ≤ℤ den }
    requires sparse { IsSparse 0 (width + 1) own.now }
    requires own { pos 1 ≤ℤ own_den width own.now }
    requires divides { unsigned_abs (own_den width own.now) ∣ unsigned_abs den }
    ensures ok { IfOk result (λ numbers. numbers.items ≡ row_over den width own.now) }
    ensures wide { (j : ℕ) → result ≡ Err (RowFault.Wide j)
        → (j < width) × (is_wide (number_at (row_over den width own.now) j) ≡ true) }
{
    let times = factor(den, width, own);
    let Ok(mut numbers) = Vec::with_capacity(alloc, width as usize) else {
        return Err(RowFault::Memory);
    };
    let mut i = 0;
    for j in 0..width {
        let number = number_here(own, i, j);
        i = past_place(own, i, j);
        let Some(over) = number_over(number, times) else {
            return Err(RowFault::Wide(j as usize));
        };
        match numbers.push(over) {
            Ok(()) => {}
            Err(_) => return Err(RowFault::Memory),
        }
    }
    Ok(numbers)
}
