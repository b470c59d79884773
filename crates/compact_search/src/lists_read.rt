// The lists of a blocked table: how its cells move with the small amounts of the bounds.
use crate::component::Component;
use crate::divisor::wide_divisor_of;
use crate::entry::Entry;
use crate::lists::{ListPlace, ListTerm, MoveList, MoveLists};
use crate::table::Table;
use crate::variable::State;
use std::alloc::Global;

// The lists of a table's cells, and the weights of its relations; none where a number leaves 128 bits or memory is
// wanting.
pub(crate) fn lists_of(alloc: Global, table: &Table, component: &Component) -> Option<MoveLists> {
    let den = common_den(table, component.cells.len())?;
    let mut moves = Vec::new(alloc);
    for (variable, cell) in component.cells.iter().enumerate() {
        let terms = list_of(alloc, table, component, variable, den)?;
        moves.push(MoveList { cell: *cell, terms }).ok()?;
    }
    let weights = weights_of(alloc, table, component)?;
    Some(MoveLists {
        den,
        moves,
        q: i128::from(table.objective.den),
        weights,
    })
}

// The least number of which the dens of all basic cells' rows are divisors.
fn common_den(table: &Table, cells: usize) -> Option<i128> {
    let mut den: i128 = 1;
    for variable in 0..cells {
        let own = own_den(table, variable)?;
        let common = wide_divisor_of(den, own)?;
        den = den.checked_div(common)?.checked_mul(own)?;
    }
    Some(den)
}

// The den of a variable's row, 1 where it has none.
fn own_den(table: &Table, variable: usize) -> Option<i128> {
    let one = table.variable(variable)?;
    if !one.is_basic() {
        return Some(1);
    }
    let row = table.rows.get(one.row)?;
    Some(i128::from(row.den))
}

// The list of a variable's move over a den: its value, and the amounts of the bounds at which others stand.
fn list_of(
    alloc: Global,
    table: &Table,
    component: &Component,
    variable: usize,
    den: i128,
) -> Option<Vec<ListTerm>> {
    let one = table.variable(variable)?;
    let mut terms = Vec::new(alloc);
    if !one.is_basic() {
        let value = i128::from(one.stand()).checked_mul(den)?;
        put_term(&mut terms, ListPlace::Value, value)?;
        put_standing(&mut terms, component, one.state, variable, den)?;
        return Some(terms);
    }
    let row = table.rows.get(one.row)?;
    let times = den.checked_div(i128::from(row.den))?;
    let value = row.value.checked_mul(times)?;
    put_term(&mut terms, ListPlace::Value, value)?;
    put_entries(&mut terms, table, component, &row.entries, times)?;
    Some(terms)
}

// Puts the amounts of the bounds at which the variables of a row stand, each so many times.
fn put_entries(
    terms: &mut Vec<ListTerm>,
    table: &Table,
    component: &Component,
    entries: &[Entry],
    times: i128,
) -> Option<()> {
    for entry in entries {
        let state = table.variable(entry.variable)?.state;
        let number = i128::from(entry.number).checked_mul(times)?;
        put_standing(terms, component, state, entry.variable, number)?;
    }
    Some(())
}

// Puts the amount of the bound at which a variable stands, so many times; none where it stands at 0.
fn put_standing(
    terms: &mut Vec<ListTerm>,
    component: &Component,
    state: State,
    variable: usize,
    number: i128,
) -> Option<()> {
    match state {
        State::Upper => put_term(terms, upper_place(component, variable)?, number),
        State::Lower => put_term(
            terms,
            lower_place(component, variable)?,
            number.checked_neg()?,
        ),
        _ => Some(()),
    }
}

// Puts a term behind where it isn't 0.
fn put_term(terms: &mut Vec<ListTerm>, place: ListPlace, number: i128) -> Option<()> {
    if number == 0 {
        return Some(());
    }
    terms.push(ListTerm { place, number }).ok()
}

// The place of a variable's upper bound.
fn upper_place(component: &Component, variable: usize) -> Option<ListPlace> {
    match component.cells.get(variable) {
        Some(cell) => Some(ListPlace::CapAbove(*cell)),
        None => Some(ListPlace::Form(relation_of(component, variable)?)),
    }
}

// The place of a variable's lower bound.
fn lower_place(component: &Component, variable: usize) -> Option<ListPlace> {
    match component.cells.get(variable) {
        Some(cell) => Some(ListPlace::CapBelow(*cell)),
        None => Some(ListPlace::Negated(relation_of(component, variable)?)),
    }
}

// The relation of a slack.
fn relation_of(component: &Component, variable: usize) -> Option<u32> {
    let place = variable.checked_sub(component.cells.len())?;
    Some(*component.relations.get(place)?)
}

// How often each relation is added to the objective: the opposite of its number at the slack.
fn weights_of(alloc: Global, table: &Table, component: &Component) -> Option<Vec<(u32, i128)>> {
    let cells = component.cells.len();
    let mut weights = Vec::new(alloc);
    for entry in &table.objective.entries {
        if entry.variable >= cells {
            let number = relation_of(component, entry.variable)?;
            let opposite = i128::from(entry.number).checked_neg()?;
            weights.push((number, opposite)).ok()?;
        }
    }
    Some(weights)
}
