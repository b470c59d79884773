// The objective of a question.
use crate::entry::Entry;
use crate::row::{Row, make_lowest, mask_of, value_of};
use crate::table::Table;
use std::alloc::Global;

// Aims at a variable: makes its rise, or else its fall, the objective.
pub(crate) fn aim(alloc: Global, table: &mut Table, variable: usize, rises: bool) -> Option<()> {
    let one = table.variable(variable)?;
    let turn = if rises { 1 } else { -1 };
    let mut objective = Row {
        basic: usize::MAX,
        den: 1,
        value: 0,
        entries: Vec::new(alloc),
        mask: 0,
    };
    if one.is_basic() {
        let row = table.rows.get(one.row)?;
        objective.den = row.den;
        put_turned(&mut objective.entries, &row.entries, turn)?;
    } else {
        let entry = Entry {
            variable,
            number: turn,
        };
        objective.entries.push(entry).ok()?;
    }
    make_lowest(&mut objective)?;
    objective.mask = mask_of(&objective.entries);
    objective.value = value_of(&objective.entries, &table.variables)?;
    table.objective = objective;
    Some(())
}

// Puts the entries of a list behind, each so many times.
fn put_turned(made: &mut Vec<Entry>, entries: &[Entry], turn: i64) -> Option<()> {
    for entry in entries {
        let number = entry.number.checked_mul(turn)?;
        let variable = entry.variable;
        made.push(Entry { variable, number }).ok()?;
    }
    Some(())
}
