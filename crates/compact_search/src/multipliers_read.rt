// The multipliers of a blocked table.
use crate::divisor::divisor_of;
use crate::entry::Entry;
use crate::table::Table;
use sdc_base::Items;
use std::alloc::Global;
use worlds::Multipliers;

// The multipliers by which the relations with these numbers, whose slacks stand behind so many cells, are added to the
// objective: the opposites of its numbers at the slacks. None where memory is wanting.
pub(crate) fn multipliers_of(
    alloc: Global,
    table: &Table,
    cells: usize,
    relations: &[u32],
) -> Option<Multipliers> {
    let den = table.objective.den;
    let common = i128::from(common_of(den.unsigned_abs(), &table.objective.entries, cells));
    let mut by_relation = Items::empty(alloc);
    for entry in &table.objective.entries {
        if entry.variable >= cells {
            let number = *relations.get(entry.variable.checked_sub(cells)?)?;
            let opposite = i128::from(entry.number).checked_neg()?;
            by_relation
                .push((number, opposite.checked_div(common)?))
                .ok()?;
        }
    }
    Some(Multipliers {
        den: i128::from(den).checked_div(common)?,
        by_relation,
    })
}

// What divides a number and all numbers at slacks.
fn common_of(first: u64, entries: &[Entry], cells: usize) -> u64 {
    let mut common = first;
    for entry in entries {
        if entry.variable >= cells {
            common = divisor_of(common, entry.number.unsigned_abs());
        }
    }
    common
}
