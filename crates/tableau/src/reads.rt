ghost use Rattle.std.specs.Prelude.{◌≡◌, ◌+◌, ◌<◌, length};
ghost use Rattle.tableau.specs.Problems.{rows_of};
ghost use Rattle.tableau.specs.Walks.{IsTableOf};
ghost use Rattle.tableau.specs.Readings.{values_of, slacks_of};
ghost use Rattle.tableau.specs.SparseTables.{table_of, IsSoundTable};

use crate::problem::Problem;
use crate::sparse_rows::{objective_number, value_at};
use crate::sparse_table::SparseTable;

// Reads the values of the columns.
pub(crate) fn read_values(values: &mut [i128], problem: &Problem, table: &SparseTable)
    requires sound { IsSoundTable table.now }
    requires kept { IsTableOf problem.now (table_of table.now) }
    requires long { length values.old ≡ problem.now.columns }
    ensures { values.new ≡ values_of problem.now (table_of table.now) }
{
    for column in 0..values.len() {
        values[column] = 0;
    }
    for k in 0..table.members.len() {
        let name = table.members[k] as usize;
        if name < values.len() {
            values[name] = value_at(table, k);
        }
    }
}

// Reads the objective's numbers at the slacks.
pub(crate) fn read_slacks(slacks: &mut [i128], problem: &Problem, table: &SparseTable)
    requires sound { IsSoundTable table.now }
    requires kept { IsTableOf problem.now (table_of table.now) }
    requires long { length slacks.old ≡ length (rows_of problem.now) }
    ensures { slacks.new ≡ slacks_of problem.now (table_of table.now) }
{
    for slack in 0..slacks.len() {
        slacks[slack] = 0;
    }
    for j in 0..table.others.len() {
        let number = objective_number(table, j);
        let name = table.others[j];
        if name >= problem.columns {
            slacks[(name - problem.columns) as usize] = number;
        }
    }
}
