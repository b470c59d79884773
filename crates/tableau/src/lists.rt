ghost use Rattle.std.specs.Prelude.{◌≡◌, ◌≢◌, ℕ, ◌+◌, ◌-◌, ◌<◌, ◌≤◌, length, slice_index, pos, ◌*ℤ◌, ◌<ℤ◌, IfOk};
ghost use Rattle.tableau.specs.RowLists.{IsLexPositive, AreZeros, list_of, list_size};
ghost use Rattle.tableau.specs.Walks.{IsTableOf};
ghost use Rattle.tableau.specs.ProblemForm.{IsWellFormed};
ghost use Rattle.tableau.specs.Choices.{AreSlackPlaces};
ghost use Rattle.tableau.specs.Columns.{IsColumn, AreComparable, lead_in};
ghost use Rattle.tableau.specs.SparseTables.{table_of, factor_at, IsSoundTable};

use crate::column::Column;
use crate::entries::{entry_here, least_place, place_at};
use crate::problem::Problem;
use crate::products::compare_products;
use crate::sparse_rows::{member_number, own_number, row_den, row_of};
use crate::sparse_table::SparseTable;
use sdc_base::Memory;
use std::alloc::Global;
use std::cmp::Ordering;

// For each slack its place among the others, or how many others there are where it is a member.
pub(crate) fn slack_places(
    alloc: Global,
    problem: &Problem,
    table: &SparseTable,
) -> Result<Vec<u32>, Memory>
    requires well_formed { IsWellFormed problem.now }
    requires kept { IsTableOf problem.now (table_of table.now) }
    ensures { IfOk result (λ places. AreSlackPlaces problem.now (table_of table.now) places.items) }
{
    let none = table.others.len() as u32;
    let mut places = vec![in alloc; none; table.members.len()]?;
    for (j, name) in table.others.iter().enumerate() {
        if *name >= problem.columns {
            places[(*name - problem.columns) as usize] = j as u32;
        }
    }
    Ok(places)
}

// The number of a row's list at a place, over the row's own den: 0 has the value, and 1 more than a slack's number the
// number there.
fn list_number(
    problem: &Problem,
    table: &SparseTable,
    places: &[u32],
    k: usize,
    place: usize,
) -> i128
    requires sound { IsSoundTable table.now }
    requires kept { IsTableOf problem.now (table_of table.now) }
    requires places { AreSlackPlaces problem.now (table_of table.now) places.now }
    requires row { k < length table.now.members.items }
    requires place { place < list_size problem.now }
    ensures { result *ℤ factor_at table.now k ≡ list_of problem.now (table_of table.now) k place }
{
    if place == 0 {
        return own_number(table, k, table.others.len());
    }
    let slack = place - 1;
    if table.members[k] as usize == problem.columns as usize + slack {
        return row_den(table, k);
    }
    let j = places[slack] as usize;
    if j < table.others.len() {
        return own_number(table, k, j);
    }
    0
}

// How the number of one row's list at a place, divided by the row's number in a column, stands to that of another.
fn compare_places(column: &Column, one: usize, other: usize, place: usize) -> Ordering
    requires column { IsColumn column.now }
    requires rows { AreComparable column.now one other }
    requires place { place < list_size column.now.problem.now }
    ensures less { result ≡ Ordering.Less → pos 0 <ℤ lead_in column.now one other place }
    ensures equal { result ≡ Ordering.Equal → lead_in column.now other one place ≡ pos 0 }
    ensures greater { result ≡ Ordering.Greater → pos 0 <ℤ lead_in column.now other one place }
{
    let own = member_number(column.table, column.numbers, column.place, one);
    let other_own = member_number(column.table, column.numbers, column.place, other);
    let number = list_number(column.problem, column.table, column.places, one, place);
    let other_number = list_number(column.problem, column.table, column.places, other, place);
    compare_products(number, other_own, other_number, own)
}

// The place of a slack's number in the lists by the slack's name, or the one behind their last where it is a column.
fn list_place(problem: &Problem, table: &SparseTable, name: u32) -> usize
    ensures column { name < problem.now.columns → result ≡ length table.now.members.items + 1 }
    ensures slack { problem.now.columns ≤ name → result ≡ name - problem.now.columns + 1 }
{
    if name < problem.columns {
        return table.members.len() + 1;
    }
    (name - problem.columns) as usize + 1
}

// The place of a member's own slack in the lists, or the one behind their last where it is a column.
fn own_place(problem: &Problem, table: &SparseTable, k: usize) -> usize
    requires kept { IsTableOf problem.now (table_of table.now) }
    requires row { k < length table.now.members.items }
    ensures within { result ≤ list_size problem.now }
    ensures slack { problem.now.columns ≤ slice_index table.now.members.items k
        → result ≡ slice_index table.now.members.items k - problem.now.columns + 1 }
{
    list_place(problem, table, table.members[k])
}

// A place as far as which two lists are known to be the same, where they are known to be as far as another, and these are
// the numbers at a place.
fn nearer_place(
    place: usize,
    apart: usize,
    number: i128,
    times: i128,
    other: i128,
    other_times: i128,
) -> usize
    requires times { pos 0 <ℤ times }
    requires other_times { pos 0 <ℤ other_times }
    ensures within { result ≤ apart }
    ensures same { place < result → number *ℤ times ≡ other *ℤ other_times }
{
    if apart <= place {
        return apart;
    }
    match compare_products(number, times, other, other_times) {
        Ordering::Less => place,
        Ordering::Greater => place,
        Ordering::Equal => apart,
    }
}

// A place behind the value's before which the lists of two rows, each divided by its number in a column, are the same
// but perhaps at the value.
fn first_apart(column: &Column, one: usize, other: usize) -> usize
    requires column { IsColumn column.now }
    requires rows { AreComparable column.now one other }
    ensures within { result ≤ list_size column.now.problem.now }
    ensures same { (i : ℕ) → i ≢ 0 → i < result → lead_in column.now other one i ≡ pos 0 }
{
    let problem = column.problem;
    let table = column.table;
    let entries = row_of(table, one);
    let other_entries = row_of(table, other);
    let own = member_number(table, column.numbers, column.place, one);
    let other_own = member_number(table, column.numbers, column.place, other);
    let width = table.others.len() as u32;
    let mut apart = own_place(problem, table, one).min(own_place(problem, table, other));
    let mut i = 0;
    let mut j = 0;
    let mut next = 0u32;
    'merge: while next < width {
        let place = least_place(
            place_at(entries, i, width),
            place_at(other_entries, j, width),
        );
        if place >= width {
            return apart;
        }
        let here = entry_here(entries, i, place);
        let there = entry_here(other_entries, j, place);
        let at = list_place(problem, table, table.others[place as usize]);
        apart = nearer_place(at, apart, here.0, other_own, there.0, own);
        i = here.1;
        j = there.1;
        next = place + 1;
    }
    apart
}

// How the list of one row, divided by its number in a column, stands to that of another.
pub(crate) fn compare_lists(column: &Column, one: usize, other: usize) -> Ordering
    requires column { IsColumn column.now }
    requires rows { AreComparable column.now one other }
    ensures less { result ≡ Ordering.Less
        → IsLexPositive (list_size column.now.problem.now) 0 (lead_in column.now one other) }
    ensures equal { result ≡ Ordering.Equal
        → AreZeros (list_size column.now.problem.now) 0 (lead_in column.now other one) }
    ensures greater { result ≡ Ordering.Greater
        → IsLexPositive (list_size column.now.problem.now) 0 (lead_in column.now other one) }
{
    match compare_places(column, one, other, 0) {
        Ordering::Less => return Ordering::Less,
        Ordering::Greater => return Ordering::Greater,
        Ordering::Equal => {}
    }
    let table = column.table;
    let first = first_apart(column, one, other);
    for place in first..table.members.len() + 1 {
        match compare_places(column, one, other, place) {
            Ordering::Less => return Ordering::Less,
            Ordering::Greater => return Ordering::Greater,
            Ordering::Equal => {}
        }
    }
    Ordering::Equal
}
