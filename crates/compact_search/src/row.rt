// The rows of a table.
use crate::divisor::divisor_of;
use crate::entry::{Entry, number_at};
use crate::variable::Variable;

// A row: a basic variable times the den, 1 or more, is the sum of the numbers times their nonbasic variables. The value
// is that sum where these stand.
#[derive(Drop)]
pub(crate) struct Row {
    pub(crate) basic: usize,
    pub(crate) den: i64,
    pub(crate) value: i128,
    pub(crate) entries: Vec<Entry>,
    // For which variables there may be a number.
    pub(crate) mask: u64,
}

impl Row {
    // The number at a variable, 0 where there is none.
    pub(crate) fn number_at(&self, variable: usize) -> i64 {
        if self.mask & bit_of(variable) == 0 {
            return 0;
        }
        number_at(&self.entries, variable)
    }
}

// A bit for a variable, which it shares with others.
fn bit_of(variable: usize) -> u64 {
    1 << (variable % 64)
}

// The bits of the variables of a list.
pub(crate) fn mask_of(entries: &[Entry]) -> u64 {
    let mut mask = 0;
    for entry in entries {
        mask |= bit_of(entry.variable);
    }
    mask
}

// The sum of numbers times their variables where these stand; none where it leaves 128 bits.
pub(crate) fn value_of(entries: &[Entry], variables: &[Variable]) -> Option<i128> {
    let mut value: i128 = 0;
    for entry in entries {
        let stand = variables.get(entry.variable)?.stand();
        if stand != 0 {
            let part = i128::from(entry.number).checked_mul(i128::from(stand))?;
            value = value.checked_add(part)?;
        }
    }
    Some(value)
}

// Divides a row's den, numbers and value by what divides them all.
pub(crate) fn make_lowest(row: &mut Row) -> Option<()> {
    let common = divisor_with(row.den.unsigned_abs(), &row.entries);
    if common <= 1 {
        return Some(());
    }
    let by = i64::try_from(common).ok()?;
    row.den = row.den.checked_div(by)?;
    row.value = row.value.checked_div(i128::from(by))?;
    divide(&mut row.entries, by)
}

// The same of all rows of a table.
pub(crate) fn make_all_lowest(rows: &mut [Row]) -> Option<()> {
    for row in rows.iter_mut() {
        make_lowest(row)?;
    }
    Some(())
}

// What divides a number and all numbers of a list.
fn divisor_with(first: u64, entries: &[Entry]) -> u64 {
    let mut common = first;
    for entry in entries {
        if common == 1 {
            return 1;
        }
        common = divisor_of(common, entry.number.unsigned_abs());
    }
    common
}

// Divides the numbers of a list.
fn divide(entries: &mut [Entry], by: i64) -> Option<()> {
    for entry in entries.iter_mut() {
        entry.number = entry.number.checked_div(by)?;
    }
    Some(())
}
