// Rows that are taken over from the table of a smaller component, once more cells are hidden.
use crate::component::{Component, place_of};
use crate::entry::{Entry, number_at};
use crate::row::{Row, mask_of};
use crate::table::Table;
use crate::variable::State;
use std::alloc::Global;

// A cell that a relation of the smaller component counts besides: the relation's slack there, and the number that the
// cell has in its form, at its variable in the larger table.
#[derive(Clone, Copy)]
struct Newcomer {
    slack: usize,
    entry: Entry,
}

// What is taken over: the variables in the larger table of those in the smaller one, and the newcomers.
#[derive(Drop)]
struct Passage {
    variables: Vec<usize>,
    newcomers: Vec<Newcomer>,
}

// Puts the rows of a smaller component's table in place of those of the same relations in a first table, whose cells all
// stand at 0. None where one of its cells or relations isn't of the larger component, a number leaves 64 bits or memory
// is wanting; then the table is of no use.
pub(crate) fn take_rows(
    alloc: Global,
    table: &mut Table,
    larger: &Component,
    smaller: &Component,
    old: &Table,
) -> Option<()> {
    let passage = passage_of(alloc, larger, smaller)?;
    let cells = smaller.cells.len();
    for (variable, one) in old.variables.iter().enumerate() {
        if !one.is_basic() {
            table.put_state(*passage.variables.get(variable)?, State::Zero)?;
        }
    }
    for (place, row) in old.rows.iter().enumerate() {
        let slack = *passage.variables.get(cells.checked_add(place)?)?;
        let taken = taken_row(alloc, row, &passage)?;
        put_row(table, slack.checked_sub(larger.cells.len())?, taken)?;
    }
    Some(())
}

// Puts a row in a place, where its variable is then basic.
fn put_row(table: &mut Table, place: usize, row: Row) -> Option<()> {
    table.put_basic(row.basic, place)?;
    let slot = table.rows.get_mut(place)?;
    *slot = row;
    Some(())
}

// From the variables of a smaller component to those of a larger one.
fn passage_of(alloc: Global, larger: &Component, smaller: &Component) -> Option<Passage> {
    let variables = variables_of(alloc, larger, smaller)?;
    let cells = smaller.cells.len();
    let mut newcomers = Vec::new(alloc);
    for place in 0..smaller.relations.len() {
        let slack = cells.checked_add(place)?;
        let own = variables.get(slack)?.checked_sub(larger.cells.len())?;
        put_newcomers(&mut newcomers, larger, smaller, slack, own)?;
    }
    Some(Passage {
        variables,
        newcomers,
    })
}

// The variables in the larger table of those in the smaller one.
fn variables_of(alloc: Global, larger: &Component, smaller: &Component) -> Option<Vec<usize>> {
    let mut variables = Vec::new(alloc);
    for cell in &smaller.cells {
        variables.push(place_of(&larger.cells, *cell)?).ok()?;
    }
    for relation in &smaller.relations {
        let place = place_of(&larger.relations, *relation)?;
        variables.push(larger.cells.len().checked_add(place)?).ok()?;
    }
    Some(variables)
}

// Puts the cells behind that the larger component counts in a relation, and the smaller one doesn't have.
fn put_newcomers(
    newcomers: &mut Vec<Newcomer>,
    larger: &Component,
    smaller: &Component,
    slack: usize,
    own: usize,
) -> Option<()> {
    for entry in larger.forms.get(own)? {
        let cell = *larger.cells.get(entry.variable)?;
        if place_of(&smaller.cells, cell).is_none() {
            let entry = *entry;
            newcomers.push(Newcomer { slack, entry }).ok()?;
        }
    }
    Some(())
}

// A row with the variables of the larger table. What was a relation's slack is now that slack without what the newcomers
// add to its form.
fn taken_row(alloc: Global, row: &Row, passage: &Passage) -> Option<Row> {
    let mut entries = Vec::new(alloc);
    for entry in &row.entries {
        let variable = *passage.variables.get(entry.variable)?;
        let number = entry.number;
        entries.push(Entry { variable, number }).ok()?;
    }
    let known = entries.len();
    for newcomer in &passage.newcomers {
        let number = added_by(row, *newcomer)?;
        add_entry(&mut entries, known, newcomer.entry.variable, number)?;
    }
    let entries = in_order(alloc, entries)?;
    let mask = mask_of(&entries);
    Some(Row {
        basic: *passage.variables.get(row.basic)?,
        den: row.den,
        value: 0,
        entries,
        mask,
    })
}

// How often a newcomer counts in a row by one of its relations.
fn added_by(row: &Row, newcomer: Newcomer) -> Option<i64> {
    let times = if row.basic == newcomer.slack {
        row.den
    } else {
        number_at(&row.entries, newcomer.slack).checked_neg()?
    };
    times.checked_mul(newcomer.entry.number)
}

// Adds a number at a variable to the entries behind so many.
fn add_entry(entries: &mut Vec<Entry>, known: usize, variable: usize, number: i64) -> Option<()> {
    if number == 0 {
        return Some(());
    }
    for (place, entry) in entries.iter_mut().enumerate() {
        if place >= known && entry.variable == variable {
            entry.number = entry.number.checked_add(number)?;
            return Some(());
        }
    }
    entries.push(Entry { variable, number }).ok()
}

// Entries ascending by their variables, without those of 0.
fn in_order(alloc: Global, mut entries: Vec<Entry>) -> Option<Vec<Entry>> {
    entries.sort_by_key(|entry| entry.variable).ok()?;
    let mut kept = Vec::new(alloc);
    for entry in &entries {
        if entry.number != 0 {
            kept.push(*entry).ok()?;
        }
    }
    Some(kept)
}
