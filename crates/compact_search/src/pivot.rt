// The pivot: a nonbasic variable enters the basis for the basic variable of a row.
use crate::divisor::divisor_of;
use crate::entry::Entry;
use crate::merge::{Pair, merge};
use crate::row::{Row, make_lowest, mask_of, value_of};
use crate::table::Table;
use crate::variable::State;
use std::alloc::Global;

// From which den on a row is brought to lowest terms: small ones leave room for some exchanges more.
const LARGE_DEN: i64 = 1 << 20;
// The same of the objective, whose den is multiplied by a question's target.
const LARGE_OBJECTIVE: i64 = 1 << 8;

// Makes a variable basic in a row, whose basic one is left standing in a state. None where a number leaves 64 or 128
// bits, there is nothing to exchange or no memory; then the table is of no use.
pub(crate) fn pivot(
    alloc: Global,
    table: &mut Table,
    row: usize,
    entering: usize,
    state: State,
    crossed: &[usize],
) -> Option<()> {
    let leaving = table.rows.get(row)?.basic;
    let goes = table.goes(leaving);
    let before = table.variable(entering)?.stand();
    let mut solved = solve(alloc, table.rows.get(row)?, entering, goes)?;
    table.put_state(leaving, state)?;
    table.put_basic(entering, row)?;
    solved.value = value_of(&solved.entries, &table.variables)?;
    substitute_all(table, row, &solved, before, crossed)?;
    substitute(&mut table.objective, &solved, before, &mut table.made)?;
    if table.objective.den >= LARGE_OBJECTIVE {
        make_lowest(&mut table.objective)?;
    }
    let place = table.rows.get_mut(row)?;
    *place = solved;
    Some(())
}

// A row solved for a nonbasic variable of it; its value is still to be taken.
fn solve(alloc: Global, old: &Row, entering: usize, goes: bool) -> Option<Row> {
    let number = old.number_at(entering);
    if number == 0 {
        return None;
    }
    let turn = if number > 0 { 1 } else { -1 };
    let own = Entry {
        variable: old.basic,
        number: old.den.checked_mul(turn)?,
    };
    let mut solved = Row {
        basic: entering,
        den: number.checked_abs()?,
        value: 0,
        entries: if goes {
            entries_without(alloc, &old.entries, entering)?
        } else {
            solved_entries(alloc, &old.entries, own, entering)?
        },
        mask: 0,
    };
    turn_others(&mut solved.entries, old.basic, turn.checked_neg()?)?;
    make_lowest(&mut solved)?;
    solved.mask = mask_of(&solved.entries);
    Some(solved)
}

// The entries of a list without a variable.
fn entries_without(alloc: Global, entries: &[Entry], without: usize) -> Option<Vec<Entry>> {
    let mut others = Vec::new(alloc);
    for entry in entries {
        if entry.variable != without {
            others.push(*entry).ok()?;
        }
    }
    Some(others)
}

// The entries of a list without a variable, and one more entry in its place.
fn solved_entries(
    alloc: Global,
    entries: &[Entry],
    own: Entry,
    without: usize,
) -> Option<Vec<Entry>> {
    let mut solved = Vec::new(alloc);
    let mut is_put = false;
    for entry in entries {
        if !is_put && entry.variable > own.variable {
            solved.push(own).ok()?;
            is_put = true;
        }
        if entry.variable != without {
            solved.push(*entry).ok()?;
        }
    }
    if !is_put {
        solved.push(own).ok()?;
    }
    Some(solved)
}

// Multiplies all numbers but that of one variable.
fn turn_others(entries: &mut [Entry], but: usize, turn: i64) -> Option<()> {
    for entry in entries.iter_mut() {
        if entry.variable != but {
            entry.number = entry.number.checked_mul(turn)?;
        }
    }
    Some(())
}

// Takes the solved variable, which stood somewhere, out of the rows in these places but one.
fn substitute_all(
    table: &mut Table,
    but: usize,
    solved: &Row,
    before: i64,
    crossed: &[usize],
) -> Option<()> {
    for place in crossed {
        if *place != but {
            let row = table.rows.get_mut(*place)?;
            substitute(row, solved, before, &mut table.made)?;
        }
    }
    Some(())
}

// Takes the solved variable, which stood somewhere, out of a row.
fn substitute(row: &mut Row, solved: &Row, before: i64, made: &mut [Entry]) -> Option<()> {
    let number = row.number_at(solved.basic);
    if number == 0 {
        return Some(());
    }
    let common = divisor_of(number.unsigned_abs(), solved.den.unsigned_abs());
    let by = i64::try_from(common).ok()?;
    let times = solved.den.checked_div(by)?;
    let more = number.checked_div(by)?;
    let pair = Pair {
        own: &row.entries,
        times,
        other: &solved.entries,
        more,
        without: solved.basic,
    };
    let length = merge(pair, made)?;
    let others = row.value.checked_sub(product(number, before)?)?;
    row.value = sum_of(others, times, solved.value, more)?;
    row.entries.clear();
    row.entries.extend_from_slice(made.get(..length)?).ok()?;
    row.mask = mask_of(&row.entries);
    row.den = row.den.checked_mul(times)?;
    if row.den < LARGE_DEN {
        return Some(());
    }
    make_lowest(row)
}

// A product of two numbers.
fn product(one: i64, other: i64) -> Option<i128> {
    i128::from(one).checked_mul(i128::from(other))
}

// A sum of values, each so many times.
fn sum_of(one: i128, times: i64, other: i128, more: i64) -> Option<i128> {
    let left = one.checked_mul(i128::from(times))?;
    left.checked_add(other.checked_mul(i128::from(more))?)
}
