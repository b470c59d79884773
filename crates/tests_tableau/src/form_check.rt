//! Whether a problem is well formed, for tests, which know no other way to say so.

ghost use Rattle.std.specs.Prelude.{◌≡◌, ◌<◌, IsTrue, pos, ◌<ℤ◌, neg_ℤ, ◌≤ℤ◌, ◌^◌, All};
ghost use Rattle.tableau.specs.ProblemForm.{AreEntries, IsWellFormed};

use tableau::{LinRow, Problem};

// Whether entries name columns in ascending order, with numbers above -2^127.
fn are_entries(columns: u32, entries: &[(u32, i128)]) -> bool
    ensures { IsTrue result → AreEntries columns entries.now }
{
    let mut next = 0u64;
    for entry in entries {
        if u64::from(entry.0) < next {
            return false;
        }
        if entry.0 >= columns {
            return false;
        }
        if entry.1 == i128::MIN {
            return false;
        }
        next = u64::from(entry.0) + 1;
    }
    true
}

// Whether a row's entries name columns and its bound is 0 or more.
fn is_row(columns: u32, row: &LinRow) -> bool
    ensures entries { IsTrue result → AreEntries columns row.now.entries }
    ensures bound { IsTrue result → pos 0 ≤ℤ row.now.bound }
{
    if !are_entries(columns, row.entries.as_slice()) {
        return false;
    }
    row.bound >= 0
}

// Whether all rows are such.
fn are_rows(columns: u32, rows: &[LinRow]) -> bool
    ensures entries { IsTrue result → All (λ row. AreEntries columns row.entries) rows.now }
    ensures bounds { IsTrue result → All (λ row. pos 0 ≤ℤ row.bound) rows.now }
{
    for row in rows {
        if !is_row(columns, row) {
            return false;
        }
    }
    true
}

// Whether a problem is well formed.
pub(crate) fn is_well_formed(problem: &Problem) -> bool
    ensures { IsTrue result → IsWellFormed problem.now }
{
    if !are_rows(problem.columns, problem.rows.as_slice()) {
        return false;
    }
    if !are_entries(problem.columns, problem.objective.as_slice()) {
        return false;
    }
    if problem.target < 0 {
        return false;
    }
    problem.columns as u64 + (problem.rows.as_slice().len() as u64) < 4294967294
}
