//! The lexicographic ratio test: of the rows that limit how far a column may come in, the one leaves whose value and
//! slacks, divided by its number in the column, are least as a list. No two rows have the same list, so no walk goes in
//! circles.

ghost use Rattle.std.specs.Prelude.{◌≡◌, ◌+◌, ◌<◌, [], length, slice_index_or, ℕ, pos, ◌≤ℤ◌, IfSome, IfNone};
ghost use Rattle.sdc_base.specs.Systems.{number_at};
ghost use Rattle.tableau.specs.RowLists.{Leaves};
ghost use Rattle.tableau.specs.Walks.{IsTableOf};
ghost use Rattle.tableau.specs.Choices.{IsLeaving, AreSlackPlaces};
ghost use Rattle.tableau.specs.Columns.{IsColumn};
ghost use Rattle.tableau.specs.SparseTables.{table_of, column_of, IsSoundTable};

use crate::column::Column;
use crate::lists::compare_lists;
use crate::problem::Problem;
use crate::sparse_rows::member_number;
use crate::sparse_table::SparseTable;
use std::cmp::Ordering;

// The row whose member leaves for a column, none where no number in it is above 0.
pub(crate) fn leaving_row(
    problem: &Problem,
    table: &SparseTable,
    places: &[u32],
    numbers: &[i128],
    column: usize,
) -> Option<usize>
    requires sound { IsSoundTable table.now }
    requires kept { IsTableOf problem.now (table_of table.now) }
    requires places { AreSlackPlaces problem.now (table_of table.now) places.now }
    requires column { column < length table.now.others.items }
    requires numbers { numbers.now ≡ column_of table.now column }
    ensures none { IfNone result ((k : ℕ) → k < length table.now.members.items
        → number_at (slice_index_or (table_of table.now).rows k []) column ≤ℤ pos 0) }
    ensures leaves { IfSome result (λ row. Leaves problem.now (table_of table.now) row column) }
{
    let entering = Column {
        problem,
        table,
        places,
        numbers,
        place: column,
    };
    let mut best = None;
    for k in 0..table.members.len() {
        best = choose_leaving(&entering, best, k);
    }
    best
}

// Which row's member leaves among one row more.
fn choose_leaving(column: &Column, best: Option<usize>, k: usize) -> Option<usize>
    requires column { IsColumn column.now }
    requires row { k < length column.now.table.now.members.items }
    requires best { IsLeaving column.now.problem.now (table_of column.now.table.now) column.now.place k best }
    ensures { IsLeaving column.now.problem.now (table_of column.now.table.now) column.now.place (k + 1) result }
{
    if member_number(column.table, column.numbers, column.place, k) <= 0 {
        return best;
    }
    let Some(row) = best else {
        return Some(k);
    };
    match compare_lists(column, k, row) {
        Ordering::Less => Some(k),
        Ordering::Equal => Some(row),
        Ordering::Greater => Some(row),
    }
}
