ghost use Rattle.std.specs.Prelude.{◌≡◌, ◌+◌, ◌*◌, ◌-◌, ◌<◌, ◌≤◌, ◌^◌, ◌++◌, ◌∷◌, [], map, flat_map, length, take, pos, neg_ℤ, ◌<ℤ◌, All, IfOk, OnOk};
ghost use Rattle.std.specs.List.{range_with_len};
ghost use Rattle.sdc_base.specs.Forms.{coefficient};
ghost use Rattle.tableau.specs.Problems.{first_table, numbers_then_value, rows_of};
ghost use Rattle.tableau.specs.ProblemForm.{AscendFrom, AreEntries, IsWellFormed};
ghost use Rattle.tableau.specs.Entries.{AreEntriesOf, AreListsOf, row_of_entries};
ghost use Rattle.tableau.specs.OwnRows.{with_den};
ghost use Rattle.tableau.specs.SparseTables.{table_of, IsSoundTable};

use crate::entries::{entry_at, number_here, past_place, put};
use crate::problem::{LinRow, Problem};
use crate::sparse_table::SparseTable;
use sdc_base::{Items, Memory};
use std::alloc::Global;

// The row of a slack: the entries, then the bound, and the den 1.
fn slack_row(
    alloc: Global,
    columns: u32,
    entries: &[(u32, i128)],
    bound: i128,
) -> Result<Items<(u32, i128)>, Memory>
    requires entries { AreEntries columns entries.now }
    requires fewer_than_2_32 { columns + 2 < 2 ^ 32 }
    ensures { IfOk result (λ made. AreEntriesOf (columns + 2)
        (with_den (numbers_then_value columns (coefficient entries.now) bound)) made) }
{
    let mut made = Vec::new(alloc);
    for entry in entries {
        match put(&mut made, entry.0, entry.1) {
            Ok(()) => {}
            Err(_) => return Err(Memory),
        }
    }
    match put(&mut made, columns, bound) {
        Ok(()) => {}
        Err(_) => return Err(Memory),
    }
    match put(&mut made, columns + 1, 1) {
        Ok(()) => {}
        Err(_) => return Err(Memory),
    }
    Ok(Items::new(made))
}

// The objective's row: its entries with opposite sign; the value is 0, and the den 1.
fn objective_row(
    alloc: Global,
    columns: u32,
    entries: &[(u32, i128)],
) -> Result<Items<(u32, i128)>, Memory>
    requires entries { AreEntries columns entries.now }
    requires fewer_than_2_32 { columns + 2 < 2 ^ 32 }
    ensures { IfOk result (λ made. AreEntriesOf (columns + 2)
        (with_den (numbers_then_value columns (λ column. neg_ℤ (coefficient entries.now column)) (pos 0))) made) }
{
    let mut made = Vec::new(alloc);
    for entry in entries {
        match put(&mut made, entry.0, -entry.1) {
            Ok(()) => {}
            Err(_) => return Err(Memory),
        }
    }
    match put(&mut made, columns + 1, 1) {
        Ok(()) => {}
        Err(_) => return Err(Memory),
    }
    Ok(Items::new(made))
}

// The rows of some rows' slacks.
fn slack_rows(
    alloc: Global,
    columns: u32,
    rows: &[LinRow],
) -> Result<Vec<Items<(u32, i128)>>, Memory>
    requires rows { All (λ row. AreEntries columns row.entries) rows.now }
    requires fewer_than_2_32 { columns + 2 < 2 ^ 32 }
    ensures { IfOk result (λ lists. AreListsOf (columns + 2)
        (map (λ row. with_den (numbers_then_value columns (coefficient row.entries) row.bound)) rows.now) lists.items) }
{
    let mut lists = Vec::new(alloc);
    for row in rows {
        let made = slack_row(alloc, columns, row.entries.as_slice(), row.bound)?;
        lists.push(made)?;
    }
    Ok(lists)
}

// So many numbers of a row.
fn spread(alloc: Global, entries: &[(u32, i128)], width: u32) -> Result<Vec<i128>, Memory>
    requires { AscendFrom 0 entries.now }
    ensures { IfOk result (λ numbers. numbers.items ≡ row_of_entries width entries.now) }
{
    let mut numbers = Vec::with_capacity(alloc, width as usize)?;
    let mut i = 0;
    for j in 0..width {
        numbers.push(number_here(entries, i, j))?;
        i = past_place(entries, i, j);
    }
    Ok(numbers)
}

// The numbers of rows at a place.
pub(crate) fn numbers_at(
    alloc: Global,
    lists: &[Items<(u32, i128)>],
    place: u32,
) -> Result<Vec<i128>, Memory>
    requires { All (λ entries. AscendFrom 0 entries) lists.now }
    ensures { IfOk result (λ numbers. numbers.items ≡ map (λ entries. coefficient entries place) lists.now) }
{
    let mut numbers = Vec::with_capacity(alloc, lists.len())?;
    for entries in lists {
        numbers.push(entry_at(entries.as_slice(), place))?;
    }
    Ok(numbers)
}

// So many numbers from one on.
fn names_from(alloc: Global, from: u32, count: u32) -> Result<Vec<u32>, Memory>
    requires { from + count < 2 ^ 32 }
    ensures { IfOk result (λ names. names.items ≡ range_with_len from count) }
{
    let mut names = Vec::new(alloc);
    for k in 0..count {
        names.push(from + k)?;
    }
    Ok(names)
}

// The first table: the slacks are the members, over the den 1.
pub(crate) fn make_first_table(alloc: Global, problem: &Problem) -> Result<SparseTable, Memory>
    requires { IsWellFormed problem.now }
    ensures table { IfOk result (λ sparse. table_of sparse ≡ first_table problem.now) }
    ensures sound { IfOk result (λ sparse. IsSoundTable sparse) }
{
    let rows = problem.rows.as_slice();
    let height = rows.len() as u32 + 1;
    let members = names_from(alloc, problem.columns, height)?;
    let others = names_from(alloc, 0, problem.columns)?;
    let mut lists = slack_rows(alloc, problem.columns, rows)?;
    let target = slack_row(
        alloc,
        problem.columns,
        problem.objective.as_slice(),
        problem.target,
    )?;
    lists.push(target)?;
    let objective = objective_row(alloc, problem.columns, problem.objective.as_slice())?;
    let numbers = spread(alloc, objective.as_slice(), problem.columns + 1)?;
    let values = numbers_at(alloc, lists.as_slice(), problem.columns)?;
    lists.push(objective)?;
    Ok(SparseTable {
        den: 1,
        members,
        others,
        rows: lists,
        values,
        objective: numbers,
    })
}
