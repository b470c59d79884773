ghost use Rattle.std.specs.Prelude.{◌≡◌, ℕ, ℤ, ◌+◌, ◌<◌, ◌≤◌, [], length, slice_index_or, pos, ◌≤ℤ◌, Err, IfOk, OnOk, OnErr};
ghost use Rattle.tableau.specs.Tables.{exchanged_table};
ghost use Rattle.sdc_base.specs.Systems.{number_at};
ghost use Rattle.tableau.specs.Steps.{IsInLowestTerms};
ghost use Rattle.tableau.specs.Widths.{IsWidePlace};
ghost use Rattle.tableau.specs.NewRows.{AreNewRows, AreExchanged, placed_lists};
ghost use Rattle.tableau.specs.SparseTables.{table_of, width_of, column_of, IsSoundTable};

use crate::crossing::{Pivot, made_row};
use crate::faults::{ExchangeFault, at_place};
use crate::multiples::{placed, rows_den};
use crate::numbers_over::{row_numbers, values_over};
use crate::placing::place_rows;
use crate::sparse_rows::{bare_row, column_number, den_of, row_of};
use crate::sparse_table::SparseTable;
use sdc_base::Items;
use std::alloc::Global;

// What an exchange makes: den and rows, none for those that stay as they are, and the values and the objective's numbers
// over the den.
#[derive(Drop)]
struct ExchangedRows {
    den: i128,
    rows: Vec<Option<Items<(u32, i128)>>>,
    values: Vec<i128>,
    objective: Vec<i128>,
}

// The rows of the exchanged table, the objective's being the last; none for those that stay as they are.
fn new_rows(
    alloc: Global,
    table: &SparseTable,
    numbers: &[i128],
    row: usize,
    column: usize,
) -> Result<Vec<Option<Items<(u32, i128)>>>, ExchangeFault>
    requires sound { IsSoundTable table.now }
    requires row { row < length table.now.members.items }
    requires column { column < length table.now.others.items }
    requires numbers { numbers.now ≡ column_of table.now column }
    requires above { pos 1 ≤ℤ number_at (slice_index_or (table_of table.now).rows row []) column }
    ensures long { IfOk result (λ news. length news.items ≡ length table.now.members.items + 1) }
    ensures ok { IfOk result (λ news. AreNewRows table.now row column (placed_lists table.now.rows.items news.items)) }
    ensures wide { (k j : ℕ) → result ≡ Err (ExchangeFault.Wide k j) → IsWidePlace (table_of table.now) row column k j }
{
    let pivot = row_of(table, row);
    let width = table.others.len() as u32 + 1;
    let bare = bare_row(pivot, width);
    let den = den_of(pivot, width);
    let p = column_number(table, numbers, column, row);
    let at = Pivot {
        row,
        column,
        bare,
        den,
        p,
    };
    let Ok(mut news) = Vec::with_capacity(alloc, table.rows.len()) else {
        return Err(ExchangeFault::Memory);
    };
    for k in 0..table.members.len() + 1 {
        let new = match made_row(alloc, table, &at, numbers, k) {
            Ok(new) => new,
            Err(fault) => return Err(fault),
        };
        match news.push(new) {
            Ok(()) => {}
            Err(_) => return Err(ExchangeFault::Memory),
        }
    }
    Ok(news)
}

// Den, rows and readings of the exchanged table.
fn exchanged_rows(
    alloc: Global,
    table: &SparseTable,
    numbers: &[i128],
    row: usize,
    column: usize,
) -> Result<ExchangedRows, ExchangeFault>
    requires sound { IsSoundTable table.now }
    requires row { row < length table.now.members.items }
    requires column { column < length table.now.others.items }
    requires numbers { numbers.now ≡ column_of table.now column }
    requires above { pos 1 ≤ℤ number_at (slice_index_or (table_of table.now).rows row []) column }
    ensures ok { IfOk result (λ made. AreExchanged table.now row column made.den made.rows.items
        made.values.items made.objective.items) }
    ensures wide { (k j : ℕ) → result ≡ Err (ExchangeFault.Wide k j) → IsWidePlace (table_of table.now) row column k j }
{
    let rows = match new_rows(alloc, table, numbers, row, column) {
        Ok(rows) => rows,
        Err(fault) => return Err(fault),
    };
    let width = table.others.len() as u32 + 1;
    let height = table.members.len();
    let olds = table.rows.as_slice();
    let Some(den) = rows_den(olds, rows.as_slice(), width) else {
        return Err(ExchangeFault::Wide(row, column));
    };
    let values = match values_over(alloc, den, width, height, olds, rows.as_slice()) {
        Ok(values) => values,
        Err(fault) => return Err(fault),
    };
    let last = placed(&olds[height], &rows[height]);
    let objective = match row_numbers(alloc, den, width, last) {
        Ok(objective) => objective,
        Err(fault) => return Err(at_place(height, row, column, table.others.len(), fault)),
    };
    Ok(ExchangedRows {
        den,
        rows,
        values,
        objective,
    })
}

// Exchanges the member of a row for the column or slack at a place. After a fault the table is as before.
pub(crate) fn exchange(
    table: &mut SparseTable,
    alloc: Global,
    numbers: &[i128],
    row: usize,
    column: usize,
) -> Result<(), ExchangeFault>
    requires sound { IsSoundTable table.old }
    requires row { row < length table.old.members.items }
    requires column { column < length table.old.others.items }
    requires numbers { numbers.now ≡ column_of table.old column }
    requires above { pos 1 ≤ℤ number_at (slice_index_or (table_of table.old).rows row []) column }
    ensures ok { OnOk result ((d : ℤ) × IsInLowestTerms d (exchanged_table (table_of table.old) row column)
        (table_of table.new)) }
    ensures sound { IsSoundTable table.new }
    ensures err { OnErr result (table.new ≡ table.old) }
    ensures wide { (k j : ℕ) → result ≡ Err (ExchangeFault.Wide k j) → IsWidePlace (table_of table.old) row column k j }
{
    let made = match exchanged_rows(alloc, table, numbers, row, column) {
        Ok(made) => made,
        Err(fault) => return Err(fault),
    };
    let leaving = table.members[row];
    table.members[row] = table.others[column];
    table.others[column] = leaving;
    table.den = made.den;
    table.values = made.values;
    table.objective = made.objective;
    place_rows(&mut table.rows, made.rows);
    Ok(())
}
