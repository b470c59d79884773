// Sums of two lists of numbers.
use crate::entry::Entry;

// Two lists of which one so many times and the other so many times are to be added, without one variable.
#[derive(Clone, Copy)]
pub(crate) struct Pair<'a> {
    pub(crate) own: &'a [Entry],
    pub(crate) times: i64,
    pub(crate) other: &'a [Entry],
    pub(crate) more: i64,
    pub(crate) without: usize,
}

// How many entries of each are passed, and how many are put.
#[derive(Clone, Copy)]
struct Passed {
    own: usize,
    other: usize,
    put: usize,
}

// Adds them at the front of a list that has room for each variable, and gives how many entries there are; none where a
// number leaves 64 bits.
pub(crate) fn merge(pair: Pair<'_>, made: &mut [Entry]) -> Option<usize> {
    let mut passed = merge_both(pair, made)?;
    let own = pair.own.get(passed.own..)?;
    let other = pair.other.get(passed.other..)?;
    put_all(made, &mut passed, own, pair.times, pair.without)?;
    put_all(made, &mut passed, other, pair.more, pair.without)?;
    Some(passed.put)
}

// Goes through both lists until one is passed.
fn merge_both(pair: Pair<'_>, made: &mut [Entry]) -> Option<Passed> {
    let mut passed = Passed {
        own: 0,
        other: 0,
        put: 0,
    };
    let most = pair.own.len().checked_add(pair.other.len())?;
    'entries: for _ in 0..most {
        if passed.own >= pair.own.len() || passed.other >= pair.other.len() {
            return Some(passed);
        }
        let entry = next_entry(pair, &mut passed)?;
        put(made, &mut passed, entry, pair.without)?;
    }
    Some(passed)
}

// The next entry of two lists that aren't passed.
fn next_entry(pair: Pair<'_>, passed: &mut Passed) -> Option<Entry> {
    let own = *pair.own.get(passed.own)?;
    let other = *pair.other.get(passed.other)?;
    let mut number: i64 = 0;
    let mut variable = other.variable;
    if own.variable <= other.variable {
        number = own.number.checked_mul(pair.times)?;
        passed.own = passed.own.checked_add(1)?;
        variable = own.variable;
    }
    if other.variable <= own.variable {
        number = number.checked_add(other.number.checked_mul(pair.more)?)?;
        passed.other = passed.other.checked_add(1)?;
    }
    Some(Entry { variable, number })
}

// Puts the entries of a list, each so many times.
fn put_all(
    made: &mut [Entry],
    passed: &mut Passed,
    list: &[Entry],
    times: i64,
    without: usize,
) -> Option<()> {
    for entry in list {
        let variable = entry.variable;
        let number = entry.number.checked_mul(times)?;
        put(made, passed, Entry { variable, number }, without)?;
    }
    Some(())
}

// Puts an entry behind those that are put, unless its number is 0 or it stands at the variable that goes.
fn put(made: &mut [Entry], passed: &mut Passed, entry: Entry, without: usize) -> Option<()> {
    if entry.number == 0 || entry.variable == without {
        return Some(());
    }
    let slot = made.get_mut(passed.put)?;
    *slot = entry;
    passed.put = passed.put.checked_add(1)?;
    Some(())
}
