// The first table of a component: all cells nonbasic at 0, all slacks basic.
use crate::bounds::Bounds;
use crate::component::Component;
use crate::entry::Entry;
use crate::row::{Row, mask_of};
use crate::table::{Slacks, Table};
use crate::variable::{State, Variable};
use std::alloc::Global;

// That table, with these flags of cells that are left out; none where memory is wanting.
pub(crate) fn first_table(
    alloc: Global,
    component: &Component,
    out: &[bool],
    slacks: Slacks,
) -> Option<Table> {
    let cells = component.cells.len();
    let mut variables = cell_variables(alloc, &component.bounds, out)?;
    let mut rows = Vec::new(alloc);
    for (place, form) in component.forms.iter().enumerate() {
        let row = row_of(alloc, form, cells.checked_add(place)?)?;
        rows.push(row).ok()?;
        variables.push(slack(place)).ok()?;
    }
    let room = variables.len();
    Some(Table {
        rows,
        objective: row_of(alloc, &[], usize::MAX)?,
        variables,
        cells,
        slacks,
        made: Vec::from_elem(alloc, Entry::none(), room).ok()?,
    })
}

// The cells' variables.
fn cell_variables(alloc: Global, bounds: &[Bounds], out: &[bool]) -> Option<Vec<Variable>> {
    let mut variables = Vec::new(alloc);
    for (place, own) in bounds.iter().enumerate() {
        let variable = Variable {
            bounds: *own,
            state: State::Zero,
            row: 0,
            left_out: matches!(out.get(place), Some(true)),
        };
        variables.push(variable).ok()?;
    }
    Some(variables)
}

// The slack that is basic in a row.
fn slack(row: usize) -> Variable {
    Variable {
        bounds: Bounds::still(),
        state: State::Basic,
        row,
        left_out: false,
    }
}

// The row of a slack by its relation's form.
pub(crate) fn row_of(alloc: Global, form: &[Entry], basic: usize) -> Option<Row> {
    let mut entries = Vec::new(alloc);
    for entry in form {
        entries.push(*entry).ok()?;
    }
    let mask = mask_of(&entries);
    Some(Row {
        basic,
        den: 1,
        value: 0,
        entries,
        mask,
    })
}
