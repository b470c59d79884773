// The walk of a question: steps until the objective reaches its target or the table is blocked.
use crate::entering::{Entering, best_entering};
use crate::entry::number_at;
use crate::ratio::{Limit, crossed_by, first_limit};
use crate::stepping::step_to;
use crate::table::Table;
use std::alloc::Global;

// How far a nonbasic variable goes beyond where it stands, in units.
#[derive(Clone, Copy)]
pub(crate) struct Beyond {
    pub(crate) variable: usize,
    pub(crate) by: i128,
}

// Where a walk ends.
#[derive(Clone, Copy)]
pub(crate) enum End {
    // The objective is at its target or past it.
    There,
    // It is once a variable goes so far, which nothing stops before.
    Beyond(Beyond),
    // Nothing takes it further.
    Blocked,
}

// Walks until an end. None where a number leaves 64 or 128 bits, memory is wanting or the steps run out; then the table
// is of no use.
pub(crate) fn walk(alloc: Global, table: &mut Table, target: i128, most_steps: u32) -> Option<End> {
    'steps: for _ in 0..most_steps {
        if let Some(end) = walk_once(alloc, table, target)? {
            return Some(end);
        }
    }
    None
}

// One step, or the end if there is nothing to do.
fn walk_once(alloc: Global, table: &mut Table, target: i128) -> Option<Option<End>> {
    let lack = lack_of(table, target)?;
    if lack <= 0 {
        return Some(Some(End::There));
    }
    let Some(entering) = best_entering(table) else {
        return Some(Some(End::Blocked));
    };
    let beyond = beyond_of(table, entering, lack)?;
    let crossed = crossed_by(alloc, table, entering.variable)?;
    let first = first_limit(alloc, table, entering, &crossed)?;
    let Some(limit) = unless_within(beyond, first) else {
        return Some(Some(End::Beyond(beyond)));
    };
    step_to(alloc, table, entering, limit, &crossed)?;
    Some(None)
}

// The first limit of a variable, unless it lies no nearer than the variable goes.
fn unless_within(beyond: Beyond, first: Option<Limit>) -> Option<Limit> {
    let limit = first?;
    if is_within(beyond, limit) {
        return None;
    }
    Some(limit)
}

// Whether a variable goes no further than to its limit. A product that leaves 128 bits is beyond each limit.
fn is_within(beyond: Beyond, limit: Limit) -> bool {
    match beyond.by.checked_mul(i128::from(limit.per)) {
        Some(far) => far.unsigned_abs() <= limit.gap.unsigned_abs(),
        None => false,
    }
}

// What the objective lacks, times its den; the most that there is where that leaves 128 bits.
fn lack_of(table: &Table, target: i128) -> Option<i128> {
    let Some(whole) = target.checked_mul(i128::from(table.objective.den)) else {
        return Some(i128::MAX);
    };
    whole.checked_sub(table.objective.value)
}

// How far a variable has to go.
fn beyond_of(table: &Table, entering: Entering, lack: i128) -> Option<Beyond> {
    let number = number_at(&table.objective.entries, entering.variable);
    let each = i128::from(number.checked_abs()?);
    let units = lack.checked_sub(1)?.checked_div(each)?.checked_add(1)?;
    let by = if entering.rises {
        units
    } else {
        units.checked_neg()?
    };
    Some(Beyond {
        variable: entering.variable,
        by,
    })
}
