// A table for worlds alone, made of one that has slacks.
use crate::entry::Entry;
use crate::row::{Row, mask_of};
use crate::start::row_of;
use crate::table::{Slacks, Table};
use crate::variable::{State, Variable};
use std::alloc::Global;

// The same table without the slacks that aren't basic, each variable that isn't basic at 0; none where memory is
// wanting.
pub(crate) fn without_slacks(alloc: Global, table: &Table) -> Option<Table> {
    let mut rows = Vec::new(alloc);
    for row in &table.rows {
        rows.push(row_without(alloc, row, table.cells)?).ok()?;
    }
    let variables = at_truths(alloc, &table.variables)?;
    let room = variables.len();
    Some(Table {
        rows,
        objective: row_of(alloc, &[], usize::MAX)?,
        variables,
        cells: table.cells,
        slacks: Slacks::Go,
        made: Vec::from_elem(alloc, Entry::none(), room).ok()?,
    })
}

// A row with its numbers at cells alone.
fn row_without(alloc: Global, row: &Row, cells: usize) -> Option<Row> {
    let mut entries = Vec::new(alloc);
    for entry in &row.entries {
        if entry.variable < cells {
            entries.push(*entry).ok()?;
        }
    }
    let mask = mask_of(&entries);
    Some(Row {
        basic: row.basic,
        den: row.den,
        value: 0,
        entries,
        mask,
    })
}

// The variables, those that aren't basic at 0.
fn at_truths(alloc: Global, variables: &[Variable]) -> Option<Vec<Variable>> {
    let mut stay = Vec::new(alloc);
    for variable in variables {
        let mut one = *variable;
        if !one.is_basic() {
            one.state = State::Zero;
        }
        stay.push(one).ok()?;
    }
    Some(stay)
}
