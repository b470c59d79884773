// The small amounts of the bounds, which make ties of the ratio test distinct: each bound has one of its own, a
// variable's upper one before its lower one, variable by variable.
use crate::entering::Entering;
use crate::entry::Entry;
use crate::ratio::Limit;
use crate::row::Row;
use crate::table::Table;
use crate::variable::State;
use std::alloc::Global;

// How often a bound's amount counts.
#[derive(Clone, Copy)]
pub(crate) struct Amount {
    pub(crate) bound: usize,
    pub(crate) number: i64,
}

// The amounts by which an entering variable goes further than to a limit, over the limit's number; none where memory
// is wanting or a number leaves 64 bits.
pub(crate) fn amounts_of(
    alloc: Global,
    table: &Table,
    entering: Entering,
    limit: Limit,
) -> Option<Vec<Amount>> {
    match limit.row {
        Some(place) => row_amounts(alloc, table, table.rows.get(place)?, limit),
        None => own_amounts(alloc, table, entering, limit),
    }
}

// Those of a change of bound: one for each of the two bounds that aren't 0.
fn own_amounts(
    alloc: Global,
    table: &Table,
    entering: Entering,
    limit: Limit,
) -> Option<Vec<Amount>> {
    let before = table.variable(entering.variable)?.state;
    let upper = is_upper(before) || is_upper(limit.state);
    let lower = is_lower(before) || is_lower(limit.state);
    let mut amounts = Vec::new(alloc);
    put_where(&mut amounts, upper, upper_bound(entering.variable)?)?;
    put_where(&mut amounts, lower, lower_bound(entering.variable)?)?;
    Some(amounts)
}

// Puts a bound's amount behind where it counts.
fn put_where(amounts: &mut Vec<Amount>, counts: bool, bound: usize) -> Option<()> {
    if !counts {
        return Some(());
    }
    amounts.push(Amount { bound, number: 1 }).ok()
}

// Those of a row's basic variable: that of the bound that it comes to, and those of the bounds at which the others
// stand.
fn row_amounts(alloc: Global, table: &Table, row: &Row, limit: Limit) -> Option<Vec<Amount>> {
    let own = reached_amount(row, limit.state)?;
    let mut waits = own.is_some();
    let mut amounts = Vec::new(alloc);
    for entry in &row.entries {
        if waits && entry.variable > row.basic {
            put_some(&mut amounts, own)?;
            waits = false;
        }
        let amount = standing_amount(table, *entry, limit.rises)?;
        put_some(&mut amounts, amount)?;
    }
    if waits {
        put_some(&mut amounts, own)?;
    }
    Some(amounts)
}

// Puts an amount behind, if there is one.
fn put_some(amounts: &mut Vec<Amount>, amount: Option<Amount>) -> Option<()> {
    match amount {
        Some(one) => amounts.push(one).ok(),
        None => Some(()),
    }
}

// The amount of the bound that a row's basic variable comes to; none within at 0.
fn reached_amount(row: &Row, state: State) -> Option<Option<Amount>> {
    let bound = match state {
        State::Upper => upper_bound(row.basic)?,
        State::Lower => lower_bound(row.basic)?,
        _ => return Some(None),
    };
    let number = row.den;
    Some(Some(Amount { bound, number }))
}

// The amount of the bound at which a nonbasic variable stands, turned where the basic one is to rise; none within
// at 0.
fn standing_amount(table: &Table, entry: Entry, rises: bool) -> Option<Option<Amount>> {
    let state = table.variable(entry.variable)?.state;
    let bound = match state {
        State::Upper => upper_bound(entry.variable)?,
        State::Lower => lower_bound(entry.variable)?,
        _ => return Some(None),
    };
    let number = if is_upper(state) == rises {
        entry.number.checked_neg()?
    } else {
        entry.number
    };
    Some(Some(Amount { bound, number }))
}

// Whether a state is that at the upper bound.
pub(crate) fn is_upper(state: State) -> bool {
    matches!(&state, State::Upper)
}

// Whether a state is that at the lower bound.
pub(crate) fn is_lower(state: State) -> bool {
    matches!(&state, State::Lower)
}

// The place of a variable's upper bound.
fn upper_bound(variable: usize) -> Option<usize> {
    variable.checked_mul(2)
}

// The place of a variable's lower bound.
fn lower_bound(variable: usize) -> Option<usize> {
    variable.checked_mul(2)?.checked_add(1)
}
