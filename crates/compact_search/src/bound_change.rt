// A change of bound: a nonbasic variable goes from where it stands to another of its bounds, or to 0.
use crate::row::Row;
use crate::table::Table;
use crate::variable::State;

// Lets a nonbasic variable, which crosses the rows in these places, stand elsewhere, and adds to the values what that
// changes.
pub(crate) fn change_bound(
    table: &mut Table,
    variable: usize,
    state: State,
    crossed: &[usize],
) -> Option<()> {
    let before = table.variable(variable)?.stand();
    table.put_state(variable, state)?;
    let change = table.variable(variable)?.stand().checked_sub(before)?;
    if change == 0 {
        return Some(());
    }
    add_to_all(&mut table.rows, variable, change, crossed)?;
    add_change(&mut table.objective, variable, change)
}

// Adds a variable's change to the values of the rows in these places.
fn add_to_all(rows: &mut [Row], variable: usize, change: i64, crossed: &[usize]) -> Option<()> {
    for place in crossed {
        add_change(rows.get_mut(*place)?, variable, change)?;
    }
    Some(())
}

// Adds a variable's change to the value of a row.
fn add_change(row: &mut Row, variable: usize, change: i64) -> Option<()> {
    let number = row.number_at(variable);
    let added = i128::from(number).checked_mul(i128::from(change))?;
    row.value = row.value.checked_add(added)?;
    Some(())
}
