// The ratio test: which variable first comes to a bound while another enters.
use crate::amounts::{Amount, amounts_of, is_lower, is_upper};
use crate::entering::Entering;
use crate::entry::Entry;
use crate::lexical::{Over, comes_before};
use crate::row::Row;
use crate::table::Table;
use crate::variable::{State, Variable};
use std::alloc::Global;

// How far an entering variable can go: by the gap over a number. What stops it is the basic variable of a row, rising
// or falling, or where no row is given itself; that variable then stands in a state.
#[derive(Clone, Copy)]
pub(crate) struct Limit {
    pub(crate) gap: i128,
    pub(crate) per: i64,
    pub(crate) row: Option<usize>,
    pub(crate) rises: bool,
    pub(crate) state: State,
}

// The least limit so far, and its amounts once they were asked for.
#[derive(Drop)]
struct Least {
    limit: Option<Limit>,
    amounts: Option<Vec<Amount>>,
}

// What is compared: limits of an entering variable of a table.
#[derive(Clone, Copy)]
struct Test<'a> {
    alloc: Global,
    table: &'a Table,
    entering: Entering,
}

// The places of the rows that have a number at a variable; none where memory is wanting.
pub(crate) fn crossed_by(alloc: Global, table: &Table, variable: usize) -> Option<Vec<usize>> {
    let mut crossed = Vec::new(alloc);
    for (place, row) in table.rows.iter().enumerate() {
        if row.number_at(variable) != 0 {
            crossed.push(place).ok()?;
        }
    }
    Some(crossed)
}

// The first limit of an entering variable, which crosses the rows in these places; within none where nothing stops it.
// None where a number leaves 64 or 128 bits or memory is wanting.
pub(crate) fn first_limit(
    alloc: Global,
    table: &Table,
    entering: Entering,
    crossed: &[usize],
) -> Option<Option<Limit>> {
    let test = Test {
        alloc,
        table,
        entering,
    };
    let mut least = Least {
        limit: own_limit(table.variable(entering.variable)?, entering.rises)?,
        amounts: None,
    };
    for place in crossed {
        let row = table.rows.get(*place)?;
        if let Some(limit) = row_limit(table, entering, *place, row)? {
            offer(test, &mut least, limit)?;
        }
    }
    Some(least.limit)
}

// How far an entering variable's own bounds let it go: a cell that is left out to 0, others to the next bound.
fn own_limit(variable: Variable, rises: bool) -> Option<Option<Limit>> {
    let target = own_target(variable, rises);
    let Some((state, stand)) = target else {
        return Some(None);
    };
    let way = i128::from(stand).checked_sub(i128::from(variable.stand()))?;
    Some(Some(Limit {
        gap: way.checked_abs()?,
        per: 1,
        row: None,
        rises,
        state,
    }))
}

// Where a moving variable stops by itself, if anywhere.
fn own_target(variable: Variable, rises: bool) -> Option<(State, i64)> {
    if variable.left_out {
        return Some((State::Zero, 0));
    }
    bound_towards(variable, rises)
}

// A variable's bound to a side, if it has one.
fn bound_towards(variable: Variable, rises: bool) -> Option<(State, i64)> {
    if !rises {
        return Some((State::Lower, variable.bounds.least));
    }
    match variable.bounds.most {
        Some(most) => Some((State::Upper, most)),
        None => None,
    }
}

// How far the basic variable of a row lets an entering one go.
fn row_limit(table: &Table, entering: Entering, place: usize, row: &Row) -> Option<Option<Limit>> {
    let number = row.number_at(entering.variable);
    if number == 0 {
        return Some(None);
    }
    let rises = (number > 0) == entering.rises;
    let variable = table.variable(row.basic)?;
    let Some((state, stand)) = row_target(table, row, variable, rises)? else {
        return Some(None);
    };
    let far = i128::from(stand).checked_mul(i128::from(row.den))?;
    Some(Some(Limit {
        gap: far.checked_sub(row.value)?.checked_abs()?,
        per: number.checked_abs()?,
        row: Some(place),
        rises,
        state,
    }))
}

// Where a basic variable stops, if anywhere: one that is left out at 0, unless it moves away from there.
fn row_target(
    table: &Table,
    row: &Row,
    variable: Variable,
    rises: bool,
) -> Option<Option<(State, i64)>> {
    if !variable.left_out {
        return Some(bound_towards(variable, rises));
    }
    let sign = sign_of(table, row)?;
    if (sign > 0 && rises) || (sign < 0 && !rises) {
        return Some(bound_towards(variable, rises));
    }
    Some(Some((State::Zero, 0)))
}

// The sign of a basic variable's value with its amounts: 1, -1, or 0 where it is exactly 0.
pub(crate) fn sign_of(table: &Table, row: &Row) -> Option<i128> {
    if row.value != 0 {
        return Some(row.value.signum());
    }
    for entry in &row.entries {
        let sign = standing_sign(table, *entry)?;
        if sign != 0 {
            return Some(sign);
        }
    }
    Some(0)
}

// The sign of the amount that a nonbasic variable adds to a row: that of its number at an upper bound, the opposite at
// a lower one, 0 at none.
fn standing_sign(table: &Table, entry: Entry) -> Option<i128> {
    let state = table.variable(entry.variable)?.state;
    let sign = i128::from(entry.number.signum());
    if is_upper(state) {
        Some(sign)
    } else if is_lower(state) {
        sign.checked_neg()
    } else {
        Some(0)
    }
}

// Takes a limit in place of the least one so far if it comes first.
fn offer(test: Test<'_>, least: &mut Least, limit: Limit) -> Option<()> {
    let Some(old) = least.limit else {
        least.limit = Some(limit);
        return Some(());
    };
    let own = limit.gap.checked_mul(i128::from(old.per))?;
    let others = old.gap.checked_mul(i128::from(limit.per))?;
    if own < others {
        least.limit = Some(limit);
        least.amounts = None;
    }
    if own == others {
        return offer_tie(test, least, old, limit);
    }
    Some(())
}

// The same of a limit at the same distance, by the amounts.
fn offer_tie(test: Test<'_>, least: &mut Least, old: Limit, limit: Limit) -> Option<()> {
    let amounts = amounts_of(test.alloc, test.table, test.entering, limit)?;
    if least.amounts.is_none() {
        least.amounts = Some(amounts_of(test.alloc, test.table, test.entering, old)?);
    }
    let Some(others) = &least.amounts else {
        return None;
    };
    let one = Over {
        amounts: &amounts,
        per: limit.per,
    };
    let other = Over {
        amounts: others,
        per: old.per,
    };
    if comes_before(one, other) {
        least.limit = Some(limit);
        least.amounts = Some(amounts);
    }
    Some(())
}
