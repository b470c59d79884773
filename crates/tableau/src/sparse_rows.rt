ghost use Rattle.std.specs.Prelude.{◌≡◌, ℕ, ◌+◌, ◌-◌, ◌<◌, ◌≤◌, [], length, slice_index_or, ◌*ℤ◌, pos, ◌≤ℤ◌, IfOk};
ghost use Rattle.sdc_base.specs.Forms.{coefficient};
ghost use Rattle.tableau.specs.Entries.{IsSparse};
ghost use Rattle.tableau.specs.OwnRows.{own_den};
ghost use Rattle.sdc_base.specs.Systems.{number_at};
ghost use Rattle.tableau.specs.SparseTables.{table_of, factor_at, column_of, IsSoundTable};

use crate::entries::{entry_at, number_here};
use crate::first_table::numbers_at;
use crate::sparse_table::SparseTable;
use sdc_base::Memory;
use std::alloc::Global;

// The entries of a row, that of the objective being the last.
pub(crate) fn row_of(table: &SparseTable, k: usize) -> &[(u32, i128)]
    requires { k ≤ length table.now.members.items }
    ensures row_at { result.now ≡ slice_index_or table.now.rows.items k [] }
    ensures sparse { IsSparse 0 (length table.now.others.items + 2) result.now }
{
    table.rows[k].as_slice()
}

// The den of a row of so many numbers, which stands behind them.
pub(crate) fn den_of(entries: &[(u32, i128)], width: u32) -> i128
    requires sparse { IsSparse 0 (width + 1) entries.now }
    requires above { pos 1 ≤ℤ own_den width entries.now }
    ensures { result ≡ own_den width entries.now }
{
    number_here(entries, entries.len() - 1, width)
}

// The value of a row of so many numbers, which stands before its den.
pub(crate) fn value_of(entries: &[(u32, i128)], width: u32) -> i128
    requires width { 0 < width }
    requires sparse { IsSparse 0 (width + 1) entries.now }
    requires above { pos 1 ≤ℤ own_den width entries.now }
    ensures { result ≡ coefficient entries.now (width - 1) }
{
    if entries.len() < 2 {
        return 0;
    }
    let i = entries.len() - 2;
    if entries[i].0 < width - 1 {
        return 0;
    }
    number_here(entries, i, width - 1)
}

// A row of so many numbers without its den.
pub(crate) fn bare_row(entries: &[(u32, i128)], width: u32) -> &[(u32, i128)]
    requires sparse { IsSparse 0 (width + 1) entries.now }
    requires above { pos 1 ≤ℤ own_den width entries.now }
    ensures sparse { IsSparse 0 width result.now }
    ensures same { (v : ℕ) → v < width → coefficient result.now v ≡ coefficient entries.now v }
{
    // for the proof: the clauses speak of the width
    let _width = width;
    &entries[..entries.len() - 1]
}

// The number of a member's row at a place, over the row's own den; the value's place is the last.
pub(crate) fn own_number(table: &SparseTable, k: usize, j: usize) -> i128
    requires sound { IsSoundTable table.now }
    requires row { k < length table.now.members.items }
    requires place { j ≤ length table.now.others.items }
    ensures over { result *ℤ factor_at table.now k ≡ number_at (slice_index_or (table_of table.now).rows k []) j }
    ensures above { pos 1 ≤ℤ result → pos 1 ≤ℤ number_at (slice_index_or (table_of table.now).rows k []) j }
    ensures back { pos 1 ≤ℤ number_at (slice_index_or (table_of table.now).rows k []) j → pos 1 ≤ℤ result }
    ensures below { result ≤ℤ pos 0 → number_at (slice_index_or (table_of table.now).rows k []) j ≤ℤ pos 0 }
{
    entry_at(row_of(table, k), j as u32)
}

// The numbers of all rows at a place of the others, each over its row's own den, the objective's being the last.
pub(crate) fn column_numbers(
    alloc: Global,
    table: &SparseTable,
    column: usize,
) -> Result<Vec<i128>, Memory>
    requires { column < length table.now.others.items }
    ensures { IfOk result (λ numbers. numbers.items ≡ column_of table.now column) }
{
    numbers_at(alloc, table.rows.as_slice(), column as u32)
}

// The number of a row at the place where these are the numbers of all rows.
pub(crate) fn column_number(table: &SparseTable, numbers: &[i128], column: usize, k: usize) -> i128
    requires column { column < length table.now.others.items }
    requires numbers { numbers.now ≡ column_of table.now column }
    requires row { k ≤ length table.now.members.items }
    ensures { result ≡ coefficient (slice_index_or table.now.rows.items k []) column }
{
    // for the proof: whose numbers these are
    let _table = table;
    let _column = column;
    numbers[k]
}

// The number of a member's row there, over the row's own den.
pub(crate) fn member_number(table: &SparseTable, numbers: &[i128], column: usize, k: usize) -> i128
    requires sound { IsSoundTable table.now }
    requires column { column < length table.now.others.items }
    requires numbers { numbers.now ≡ column_of table.now column }
    requires row { k < length table.now.members.items }
    ensures over { result *ℤ factor_at table.now k ≡ number_at (slice_index_or (table_of table.now).rows k []) column }
    ensures above { pos 1 ≤ℤ result → pos 1 ≤ℤ number_at (slice_index_or (table_of table.now).rows k []) column }
    ensures back { pos 1 ≤ℤ number_at (slice_index_or (table_of table.now).rows k []) column → pos 1 ≤ℤ result }
    ensures below { result ≤ℤ pos 0 → number_at (slice_index_or (table_of table.now).rows k []) column ≤ℤ pos 0 }
{
    column_number(table, numbers, column, k)
}

// The own den of a member's row.
pub(crate) fn row_den(table: &SparseTable, k: usize) -> i128
    requires sound { IsSoundTable table.now }
    requires row { k < length table.now.members.items }
    ensures { result *ℤ factor_at table.now k ≡ table.now.den }
{
    den_of(row_of(table, k), table.others.len() as u32 + 1)
}

// The value of a member's row.
pub(crate) fn value_at(table: &SparseTable, k: usize) -> i128
    requires sound { IsSoundTable table.now }
    requires row { k < length table.now.members.items }
    ensures { result ≡ number_at (slice_index_or (table_of table.now).rows k []) (length table.now.others.items) }
{
    table.values[k]
}

// The number of the objective's row at a place, the value's being the last.
pub(crate) fn objective_number(table: &SparseTable, j: usize) -> i128
    requires sound { IsSoundTable table.now }
    requires place { j ≤ length table.now.others.items }
    ensures { result ≡ number_at (table_of table.now).objective j }
{
    table.objective[j]
}
