// Leaving a cell out: it is driven to 0, where it then stays nonbasic.
use crate::aiming::aim;
use crate::amounts::is_upper;
use crate::entering::{Entering, best_entering};
use crate::entry::Entry;
use crate::pivot::pivot;
use crate::ratio::{crossed_by, sign_of};
use crate::row::Row;
use crate::stepping::step;
use crate::table::Table;
use crate::variable::{State, Variable};
use std::alloc::Global;

// How many steps it may take to drive a cell to 0.
const MOST_STEPS: u32 = 10_000;

// Leaves a cell's variable out. None where a number leaves 64 or 128 bits, memory is wanting or the steps run out, and
// then the table is of no use.
pub(crate) fn drive_out(alloc: Global, table: &mut Table, cell: usize) -> Option<()> {
    table.variables.get_mut(cell)?.left_out = true;
    'steps: for _ in 0..MOST_STEPS {
        if drive_once(alloc, table, cell)? {
            return Some(());
        }
    }
    None
}

// One step towards that: whether it is done.
fn drive_once(alloc: Global, table: &mut Table, cell: usize) -> Option<bool> {
    let variable = table.variable(cell)?;
    match variable.state {
        State::Zero => Some(true),
        State::Basic => drive_basic(alloc, table, cell, variable),
        state => {
            let entering = Entering {
                variable: cell,
                rises: !is_upper(state),
            };
            step(alloc, table, entering)?;
            Some(false)
        }
    }
}

// One step for a basic cell.
fn drive_basic(alloc: Global, table: &mut Table, cell: usize, variable: Variable) -> Option<bool> {
    let sign = sign_of(table, table.rows.get(variable.row)?)?;
    if sign == 0 {
        return leave_at_zero(alloc, table, variable.row);
    }
    aim(alloc, table, cell, sign < 0)?;
    let entering = best_entering(table)?;
    step(alloc, table, entering)?;
    Some(false)
}

// Lets a basic cell that is exactly 0 leave for a variable that stands at 0 and isn't left out. Where there is none the
// cell can't move while those are left out, and stays basic.
fn leave_at_zero(alloc: Global, table: &mut Table, row: usize) -> Option<bool> {
    let Some(entering) = free_variable(table, table.rows.get(row)?) else {
        return Some(true);
    };
    let crossed = crossed_by(alloc, table, entering)?;
    pivot(alloc, table, row, entering, State::Zero, &crossed)?;
    Some(true)
}

// A variable of a row that isn't left out.
fn free_variable(table: &Table, row: &Row) -> Option<usize> {
    for entry in &row.entries {
        if !is_left_out(table, *entry) {
            return Some(entry.variable);
        }
    }
    None
}

// Whether the variable of an entry is left out.
fn is_left_out(table: &Table, entry: Entry) -> bool {
    match table.variables.get(entry.variable) {
        Some(one) => one.left_out,
        None => true,
    }
}
