ghost use Rattle.std.specs.Prelude.{◌≡◌, ◌+◌, ◌<◌, length, IfSome, IfNone};
ghost use Rattle.tableau.specs.TableLaws.{CannotImprove};
ghost use Rattle.tableau.specs.Steps.{Enters};
ghost use Rattle.tableau.specs.Choices.{IsEntering};
ghost use Rattle.tableau.specs.SparseTables.{table_of, IsSoundTable};

use crate::sparse_rows::objective_number;
use crate::sparse_table::SparseTable;

// The place of the column or slack that comes in, none where no number in the objective's row is below 0.
pub(crate) fn entering_place(table: &SparseTable) -> Option<usize>
    requires { IsSoundTable table.now }
    ensures none { IfNone result (CannotImprove (table_of table.now)) }
    ensures enters { IfSome result (λ column. Enters (table_of table.now) column) }
{
    let mut best = None;
    for k in 0..table.others.len() {
        best = choose_entering(table, best, k);
    }
    best
}

// What comes in among one place more.
fn choose_entering(table: &SparseTable, best: Option<usize>, k: usize) -> Option<usize>
    requires sound { IsSoundTable table.now }
    requires place { k < length table.now.others.items }
    requires best { IsEntering (table_of table.now) k best }
    ensures { IsEntering (table_of table.now) (k + 1) result }
{
    let number = objective_number(table, k);
    if number >= 0 {
        return best;
    }
    let Some(column) = best else {
        return Some(k);
    };
    let least = objective_number(table, column);
    if number < least {
        return Some(k);
    }
    if least < number {
        return Some(column);
    }
    if table.others[k] < table.others[column] {
        return Some(k);
    }
    Some(column)
}
