ghost use Rattle.std.specs.Prelude.{◌≡◌, ◌≢◌, ℕ, ℤ, ◌+◌, ◌<◌, ◌≤◌, [], ◌∷◌, length, slice_index_or, pos, ◌*ℤ◌, ◌-ℤ◌, ◌<ℤ◌, ◌≤ℤ◌, true, IfOk, OnOk, IfSome, IfNone, Err};
ghost use Rattle.std.specs.List.{list_any};
ghost use Rattle.sdc_base.specs.Forms.{coefficient};
ghost use Rattle.tableau.specs.ProblemForm.{AscendFrom};
ghost use Rattle.tableau.specs.Entries.{IsSparse, AreEntriesFrom, AreEntriesBelow, crossed_value, crossed_products, crossed_at, crossed_products_at};
ghost use Rattle.tableau.specs.OwnRows.{own_den};
ghost use Rattle.tableau.specs.Widths.{is_wide, IsWidePlace};
ghost use Rattle.tableau.specs.SparseTables.{table_of, column_of, IsSoundTable};
ghost use Rattle.tableau.specs.NewRows.{placed_list, IsPivot, IsNewRow};

use crate::common_divisor::gcd;
use crate::dividing::quotient;
use crate::entries::{entry_here, least_place, place_at, put};
use crate::faults::{ExchangeFault, RowFault, at_place};
use crate::lowest_row::lowest_row;
use crate::numbers_over::number_over;
use crate::products::{narrow_difference, narrow_product};
use crate::sparse_rows::{column_number, row_of};
use crate::sparse_table::SparseTable;
use sdc_base::Items;
use std::alloc::Global;

// The difference of two products, none where one of the three is wide.
fn crossed_number(e: i128, p: i128, f: i128, g: i128) -> Option<i128>
    ensures product_difference { IfSome result (λ number. number ≡ e *ℤ p -ℤ f *ℤ g) }
    ensures none { IfNone result (list_any is_wide ((e *ℤ p) ∷ (f *ℤ g) ∷ (e *ℤ p -ℤ f *ℤ g) ∷ []) ≡ true) }
{
    let Some(own) = narrow_product(e, p) else {
        return None;
    };
    let Some(other) = narrow_product(f, g) else {
        return None;
    };
    let Some(number) = narrow_difference(own, other) else {
        return None;
    };
    Some(number)
}

// What a number of a row becomes, none where a product for it is wide: the numbers at the place are the row's own and the
// pivot's.
fn number_outside(
    den: i128,
    p: i128,
    f: i128,
    column: u32,
    place: u32,
    numbers: (i128, i128),
) -> Option<i128>
    ensures crossed_value { IfSome result (λ number. number ≡ crossed_value den p f column place numbers.0 numbers.1) }
    ensures none { IfNone result (list_any is_wide (crossed_products den p f column place numbers.0 numbers.1) ≡ true) }
{
    let (e, g) = numbers;
    if place == column {
        let Some(product) = narrow_product(f, den) else {
            return None;
        };
        return Some(-product);
    }
    if g == 0 {
        let Some(own) = narrow_product(e, p) else {
            return None;
        };
        return Some(own);
    }
    let Some(number) = crossed_number(e, p, f, g) else {
        return None;
    };
    Some(number)
}

// Puts the numbers of a row's own entries before a place, each p times, behind the ones that are made, and tells how
// many entries are passed.
fn put_own(
    made: &mut Vec<(u32, i128)>,
    own: &[(u32, i128)],
    p: i128,
    first: usize,
    from: u32,
    place: u32,
) -> Result<usize, RowFault>
    requires within { from ≤ place }
    requires own { AreEntriesFrom from first own.now }
    ensures past { IfOk result (λ past. AreEntriesFrom place past own.now) }
    ensures made { OnOk result ((numbers : ℕ → ℤ) → AreEntriesBelow from numbers made.old.items
        → ((v : ℕ) → from ≤ v → v < place → numbers v ≡ coefficient own.now v *ℤ p)
        → AreEntriesBelow place numbers made.new.items) }
    ensures wide { (j : ℕ) → result ≡ Err (RowFault.Wide j)
        → (from ≤ j) × (j < place) × (is_wide (coefficient own.now j *ℤ p) ≡ true) }
{
    let mut i = first;
    let mut next = from;
    'run: while next < place {
        let at = place_at(own, i, place);
        if at >= place {
            return Ok(i);
        }
        let here = entry_here(own, i, at);
        let Some(number) = number_over(here.0, p) else {
            return Err(RowFault::Wide(at as usize));
        };
        match put(made, at, number) {
            Ok(()) => {}
            Err(_) => return Err(RowFault::Memory),
        }
        i = here.1;
        next = at + 1;
    }
    Ok(i)
}

// The row and the column at which a table is exchanged, with that row without its den, its den, and its number in the
// column, which is above 0.
#[derive(Drop)]
pub(crate) struct Pivot<'a> {
    pub(crate) row: usize,
    pub(crate) column: usize,
    pub(crate) bare: &'a [(u32, i128)],
    pub(crate) den: i128,
    pub(crate) p: i128,
}

// The entries of a row after the exchange: each number so many times, less so many times the pivot's.
fn crossed_row(
    alloc: Global,
    pivot: &Pivot,
    own: &[(u32, i128)],
    times: i128,
    less: i128,
    width: u32,
) -> Result<Items<(u32, i128)>, RowFault>
    requires pivot { AscendFrom 0 pivot.now.bare.now }
    requires own { AscendFrom 0 own.now }
    requires column { coefficient pivot.now.bare.now pivot.now.column ≢ pos 0 }
    requires narrow { pivot.now.column < width }
    ensures ok { IfOk result (λ made. AreEntriesBelow width
        (crossed_at pivot.now.den times less pivot.now.column pivot.now.bare.now own.now) made) }
    ensures wide { (j : ℕ) → result ≡ Err (RowFault.Wide j)
        → (j < width) × (list_any is_wide (crossed_products_at pivot.now.den times less pivot.now.column
        pivot.now.bare.now own.now j) ≡ true) }
{
    let bare = pivot.bare;
    let column = pivot.column as u32;
    let Ok(mut made) = Vec::with_capacity(alloc, own.len() + bare.len()) else {
        return Err(RowFault::Memory);
    };
    let mut i = 0;
    let mut j = 0;
    let mut next = 0u32;
    'merge: while next < width {
        let place = least_place(place_at(bare, j, width), width);
        i = match put_own(&mut made, own, times, i, next, place) {
            Ok(past) => past,
            Err(fault) => return Err(fault),
        };
        if place >= width {
            return Ok(Items::new(made));
        }
        let here = entry_here(own, i, place);
        let there = entry_here(bare, j, place);
        let numbers = (here.0, there.0);
        let Some(number) = number_outside(pivot.den, times, less, column, place, numbers) else {
            return Err(RowFault::Wide(place as usize));
        };
        match put(&mut made, place, number) {
            Ok(()) => {}
            Err(_) => return Err(RowFault::Memory),
        }
        i = here.1;
        j = there.1;
        next = place + 1;
    }
    Ok(Items::new(made))
}

// The pivot's row after the exchange: its den and its number in the column change places.
fn pivot_row(
    alloc: Global,
    table: &SparseTable,
    pivot: &Pivot,
) -> Result<Items<(u32, i128)>, ExchangeFault>
    requires sound { IsSoundTable table.now }
    requires row { pivot.now.row < length table.now.members.items }
    requires column { pivot.now.column < length table.now.others.items }
    requires pivot { IsPivot table.now pivot.now.row pivot.now.column pivot.now.bare.now pivot.now.den pivot.now.p }
    ensures ok { IfOk result (λ made. IsNewRow table.now pivot.now.row pivot.now.column pivot.now.row made) }
    ensures wide { (i j : ℕ) → result ≡ Err (ExchangeFault.Wide i j)
        → IsWidePlace (table_of table.now) pivot.now.row pivot.now.column i j }
{
    let width = table.others.len() as u32 + 1;
    match crossed_row(alloc, pivot, &[(width, pivot.p)], 1, -1, width + 1) {
        Ok(made) => Ok(made),
        Err(fault) => Err(at_place(
            pivot.row,
            pivot.row,
            pivot.column,
            table.others.len(),
            fault,
        )),
    }
}

// Another row after the exchange, in lowest terms, where its number in the column isn't 0.
fn other_row(
    alloc: Global,
    table: &SparseTable,
    pivot: &Pivot,
    f: i128,
    k: usize,
) -> Result<Items<(u32, i128)>, ExchangeFault>
    requires sound { IsSoundTable table.now }
    requires row { pivot.now.row < length table.now.members.items }
    requires column { pivot.now.column < length table.now.others.items }
    requires pivot { IsPivot table.now pivot.now.row pivot.now.column pivot.now.bare.now pivot.now.den pivot.now.p }
    requires within { k ≤ length table.now.members.items }
    requires other { k ≢ pivot.now.row }
    requires number { f ≡ coefficient (slice_index_or table.now.rows.items k []) pivot.now.column }
    ensures ok { IfOk result (λ made. IsNewRow table.now pivot.now.row pivot.now.column k made) }
    ensures wide { (i j : ℕ) → result ≡ Err (ExchangeFault.Wide i j)
        → IsWidePlace (table_of table.now) pivot.now.row pivot.now.column i j }
{
    let width = table.others.len() as u32 + 1;
    let own = row_of(table, k);
    let common = gcd(f.unsigned_abs(), pivot.p.unsigned_abs()) as i128;
    let times = quotient(pivot.p, common);
    let less = quotient(f, common);
    let whole = match crossed_row(alloc, pivot, own, times, less, width + 1) {
        Ok(whole) => whole,
        Err(fault) => {
            return Err(at_place(k, pivot.row, pivot.column, table.others.len(), fault));
        }
    };
    match lowest_row(alloc, whole, width) {
        Ok(made) => Ok(made),
        Err(_) => Err(ExchangeFault::Memory),
    }
}

// A row of the exchanged table, the objective's being the last; none where the row has no number in the column, so that
// it stays as it is.
pub(crate) fn made_row(
    alloc: Global,
    table: &SparseTable,
    pivot: &Pivot,
    numbers: &[i128],
    k: usize,
) -> Result<Option<Items<(u32, i128)>>, ExchangeFault>
    requires sound { IsSoundTable table.now }
    requires row { pivot.now.row < length table.now.members.items }
    requires column { pivot.now.column < length table.now.others.items }
    requires pivot { IsPivot table.now pivot.now.row pivot.now.column pivot.now.bare.now pivot.now.den pivot.now.p }
    requires numbers { numbers.now ≡ column_of table.now pivot.now.column }
    requires within { k ≤ length table.now.members.items }
    ensures ok { IfOk result (λ new. IsNewRow table.now pivot.now.row pivot.now.column k
        (placed_list (slice_index_or table.now.rows.items k []) new)) }
    ensures wide { (i j : ℕ) → result ≡ Err (ExchangeFault.Wide i j)
        → IsWidePlace (table_of table.now) pivot.now.row pivot.now.column i j }
{
    if k == pivot.row {
        match pivot_row(alloc, table, pivot) {
            Ok(made) => return Ok(Some(made)),
            Err(fault) => return Err(fault),
        }
    }
    let f = column_number(table, numbers, pivot.column, k);
    if f == 0 {
        return Ok(None);
    }
    match other_row(alloc, table, pivot, f, k) {
        Ok(made) => Ok(Some(made)),
        Err(fault) => Err(fault),
    }
}
