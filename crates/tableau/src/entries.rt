ghost use Rattle.std.specs.Prelude.{◌≡◌, ◌≢◌, ◌++◌, ◌∷◌, ◌+◌, ◌<◌, ◌≤◌, ℕ, [], length, slice_index_or, pos, OnOk};
ghost use Rattle.sdc_base.specs.Forms.{coefficient};
ghost use Rattle.tableau.specs.ProblemForm.{AscendFrom};
ghost use Rattle.tableau.specs.Entries.{AreEntriesFrom, put_entry};

use sdc_base::Memory;

// The number at a place, 0 where there is none.
pub(crate) fn entry_at(entries: &[(u32, i128)], place: u32) -> i128
    requires { AscendFrom 0 entries.now }
    ensures { result ≡ coefficient entries.now place }
{
    number_here(entries, index_of(entries, place), place)
}

// How many entries are before a place, by halves.
fn index_of(entries: &[(u32, i128)], place: u32) -> usize
    requires { AscendFrom 0 entries.now }
    ensures { AreEntriesFrom place result entries.now }
{
    let mut low = 0;
    let mut high = entries.len();
    'halve: while low < high {
        let middle = low + (high - low) / 2;
        if entries[middle].0 < place {
            low = middle + 1;
        } else {
            high = middle;
        }
    }
    low
}

// The place of the entry behind the first i, the limit where there is none.
pub(crate) fn place_at(entries: &[(u32, i128)], i: usize, limit: u32) -> u32
    ensures { result ≡ (slice_index_or entries.now i (limit, pos 0)).0 }
{
    if i < entries.len() {
        return entries[i].0;
    }
    limit
}

// The number at a place, which no entry behind the first i is before.
pub(crate) fn number_here(entries: &[(u32, i128)], i: usize, place: u32) -> i128
    requires { AreEntriesFrom place i entries.now }
    ensures { result ≡ coefficient entries.now place }
{
    if i < entries.len() {
        if entries[i].0 == place {
            return entries[i].1;
        }
    }
    0
}

// How many entries are passed with this place.
pub(crate) fn past_place(entries: &[(u32, i128)], i: usize, place: u32) -> usize
    requires { AreEntriesFrom place i entries.now }
    ensures { AreEntriesFrom (place + 1) result entries.now }
{
    if i < entries.len() {
        if entries[i].0 == place {
            return i + 1;
        }
    }
    i
}

// The number at a place, which no entry behind the first i is before, and how many entries are passed with it.
pub(crate) fn entry_here(entries: &[(u32, i128)], i: usize, place: u32) -> (i128, usize)
    requires { AreEntriesFrom place i entries.now }
    ensures number { result.0 ≡ coefficient entries.now place }
    ensures past { AreEntriesFrom (place + 1) result.1 entries.now }
{
    if i < entries.len() {
        if entries[i].0 == place {
            return (entries[i].1, i + 1);
        }
    }
    (0, i)
}

// The lesser of two places.
pub(crate) fn least_place(one: u32, other: u32) -> u32
    ensures one { result ≤ one }
    ensures other { result ≤ other }
    ensures from { (n : ℕ) → n ≤ one → n ≤ other → n ≤ result }
{
    if one < other {
        return one;
    }
    other
}

// Puts an entry behind the others, unless its number is 0.
pub(crate) fn put(entries: &mut Vec<(u32, i128)>, place: u32, number: i128) -> Result<(), Memory>
    ensures { OnOk result (entries.new.items ≡ put_entry entries.old.items place number) }
{
    if number == 0 {
        return Ok(());
    }
    match entries.push((place, number)) {
        Ok(()) => Ok(()),
        Err(_) => Err(Memory),
    }
}
