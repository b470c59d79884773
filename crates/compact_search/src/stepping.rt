// One step of the simplex.
use crate::bound_change::change_bound;
use crate::entering::Entering;
use crate::pivot::pivot;
use crate::ratio::{Limit, crossed_by, first_limit};
use crate::table::Table;
use std::alloc::Global;

// Lets a variable enter, up to the first bound: whether there is one. None where a number leaves 64 or 128 bits or
// memory is wanting, and then the table is of no use.
pub(crate) fn step(alloc: Global, table: &mut Table, entering: Entering) -> Option<bool> {
    let crossed = crossed_by(alloc, table, entering.variable)?;
    let Some(limit) = first_limit(alloc, table, entering, &crossed)? else {
        return Some(false);
    };
    step_to(alloc, table, entering, limit, &crossed)?;
    Some(true)
}

// Lets a variable, which crosses the rows in these places, enter up to its first bound.
pub(crate) fn step_to(
    alloc: Global,
    table: &mut Table,
    entering: Entering,
    limit: Limit,
    crossed: &[usize],
) -> Option<()> {
    match limit.row {
        None => change_bound(table, entering.variable, limit.state, crossed),
        Some(row) => pivot(alloc, table, row, entering.variable, limit.state, crossed),
    }
}
