ghost use Rattle.std.specs.Prelude.{◌≡◌, ◌≢◌, ◌↔◌, ◌+◌, ◌<◌, ◌≤◌, length, Ok, Err, IsTrue, IfOk, ℕ};
ghost use Rattle.tableau.specs.ProblemForm.{IsWellFormed};
ghost use Rattle.tableau.specs.Walks.{IsTableOf};
ghost use Rattle.tableau.specs.Steps.{IsStepOf, IsReached, IsBlocked};
ghost use Rattle.tableau.specs.Widths.{name_in, IsWideStep};
ghost use Rattle.tableau.specs.SparseTables.{table_of, IsSoundTable, NamesPlace};

use crate::entering::entering_place;
use crate::exchange::exchange;
use crate::faults::ExchangeFault;
use crate::leaving::leaving_row;
use crate::lists::slack_places;
use crate::problem::Problem;
use crate::sparse_rows::{column_numbers, objective_number};
use crate::sparse_table::SparseTable;
use crate::step::Step;
use sdc_base::Memory;
use std::alloc::Global;

// Whether the objective equals the target.
pub(crate) fn is_reached(problem: &Problem, table: &SparseTable) -> bool
    requires { IsSoundTable table.now }
    ensures { IsTrue result ↔ IsReached problem.now (table_of table.now) }
{
    let value = objective_number(table, table.others.len());
    match table.den.checked_mul(problem.target) {
        Some(whole) => value == whole,
        None => false,
    }
}

// The number of a row's member, or of a column or slack; the one behind the last has the number after the last slack.
fn name_at(problem: &Problem, names: &[u32], k: usize) -> u32
    requires well_formed { IsWellFormed problem.now }
    requires within { k ≤ length names.now }
    ensures { result ≡ name_in problem.now names.now k }
{
    if k < names.len() {
        return names[k];
    }
    problem.columns + (problem.rows.as_slice().len() as u32 + 1)
}

// What a fault of the exchange comes to, its place by names.
fn answer(problem: &Problem, table: &SparseTable, fault: ExchangeFault) -> Result<Step, Memory>
    requires well_formed { IsWellFormed problem.now }
    requires within { (k j : ℕ) → fault ≡ ExchangeFault.Wide k j
        → (k ≤ length table.now.members.items) × (j ≤ length table.now.others.items) }
    ensures wide { (row column : ℕ) → result ≡ Ok (Step.Wide row column)
        → (k : ℕ) × (j : ℕ) × (fault ≡ ExchangeFault.Wide k j) × NamesPlace problem.now table.now k j row column }
    ensures improved { result ≢ Ok Step.Improved }
    ensures reached { result ≢ Ok Step.Reached }
    ensures blocked { result ≢ Ok Step.Blocked }
{
    match fault {
        ExchangeFault::Memory => Err(Memory),
        ExchangeFault::Wide(k, j) => Ok(Step::Wide {
            row: name_at(problem, table.members.as_slice(), k),
            column: name_at(problem, table.others.as_slice(), j),
        }),
    }
}

// Makes the step from a table, or says why there is none or why it isn't made.
pub(crate) fn make_step(
    problem: &Problem,
    table: &mut SparseTable,
    alloc: Global,
) -> Result<Step, Memory>
    requires well_formed { IsWellFormed problem.now }
    requires sound { IsSoundTable table.old }
    requires kept { IsTableOf problem.now (table_of table.old) }
    ensures improved { result ≡ Ok Step.Improved → IsStepOf problem.now (table_of table.old) (table_of table.new) }
    ensures same { result ≢ Ok Step.Improved → table.new ≡ table.old }
    ensures sound { IsSoundTable table.new }
    ensures kept { IsTableOf problem.now (table_of table.new) }
    ensures reached { IfOk result (λ step. (step ≡ Step.Reached) ↔ IsReached problem.now (table_of table.old)) }
    ensures blocked { IfOk result (λ step. (step ≡ Step.Blocked) ↔ IsBlocked problem.now (table_of table.old)) }
    ensures wide { (row column : ℕ) → result ≡ Ok (Step.Wide row column)
        → IsWideStep problem.now (table_of table.old) row column }
{
    if is_reached(problem, table) {
        return Ok(Step::Reached);
    }
    let Some(column) = entering_place(table) else {
        return Ok(Step::Blocked);
    };
    let Ok(places) = slack_places(alloc, problem, table) else {
        return Err(Memory);
    };
    let Ok(numbers) = column_numbers(alloc, table, column) else {
        return Err(Memory);
    };
    let column_slice = numbers.as_slice();
    let Some(row) = leaving_row(problem, table, places.as_slice(), column_slice, column) else {
        unreachable!();
    };
    match exchange(table, alloc, column_slice, row, column) {
        Ok(()) => Ok(Step::Improved),
        Err(fault) => answer(problem, table, fault),
    }
}
