ghost use Rattle.std.specs.Prelude.{◌≡◌, ◌≤◌, ◌≤ℤ◌, ◌^◌, All, Bool, IfErr, IfOk, IfSome, List, pos, true, ℕ};
ghost use Rattle.sdc_base.specs.Patterns.{IsPattern};
ghost use Rattle.sdc_base.specs.HiddenSets as sets;
ghost use Rattle.sdc_base.specs.Signs.{AreSigns, HasNone};
ghost use Rattle.interval_audit.specs.Ends.{IsIntervalCause};
ghost use Rattle.interval_audit.specs.WalkLimits.{HasNoWalk};
ghost use Rattle.cell_intervals.specs.IntervalFaults.{HasBothEnds, HasSmallComponent, IsFaultOf};
ghost use Rattle.cell_intervals.specs.Intervals.{AreIntervals, HasWholeEnds, IsIntervalOf};

use crate::ends::interval_from;
use crate::interval::CellInterval;
use crate::search::EndSearch;
use interval_audit::{AskFault, SignedSystem, signed_interval};
use sdc_base::{Cell, Hidden, Items, System};
use std::alloc::Global;

/// What a reader of the tables can find out of each hidden cell, in ascending order of the cells' numbers: the least
/// and the greatest value that a complete table gives it, of all that agree with the shown cells, the relations and the
/// bounds. The upper end is open where some complete table gives the cell 2^110 units more than its truth. Where the
/// system has signs all ends are whole numbers of units, and complete tables in whole units attain them.
///
/// There are a cell and a flag for each cell of the system, no truth is above 10^29 units, and `limit`, 1 or more, says
/// how many improvements each question may make.
///
/// Each hidden cell has two questions, below first ([`interval`]). Where the system has no signs, and no component has
/// more than 4,000 hidden cells, searches that are kept from cell to cell answer them ([`EndSearch`]), and a walk those
/// that these don't. Else, or where a question has no answer then, all are asked one by one. The refusals are those of
/// the first question that has no answer: `Size` where the component of its cell has more than 4,000 hidden cells,
/// `Work` and `Wide` where its walk stops short, which never happens where the system has signs. Want of memory may come
/// at any time. What is lent stays as it was.
///
/// The signs are looked for once. By searches a cell costs a few steps and two walks through the relations and the
/// cells, else as much as two questions.
///
/// The interval is the feasibility interval in Hundepool et al., Statistical Disclosure Control, chapter on magnitude
/// tables; that an end is open from 2^110 on is own.
pub fn intervals_of(
    alloc: Global,
    system: &System,
    cells: &[Cell],
    hidden: &Hidden,
    limit: u64,
) -> Result<Items<CellInterval>, AskFault>
    requires ground { IsPattern system.now cells.now hidden.now.flags }
    requires truths { All (λ cell. cell.truth ≤ℤ pos (10 ^ 29)) cells.now }
    requires limit { 1 ≤ limit }
    ensures intervals { IfOk result (AreIntervals system.now cells.now hidden.now.flags) }
    ensures whole { (signs : List Bool) → AreSigns system.now.relations signs
        → IfOk result (All (HasWholeEnds system.now cells.now hidden.now.flags)) }
    ensures small { IfOk result (λ _. (cell : ℕ) → sets.is_hidden hidden.now.flags cell ≡ true
        → HasSmallComponent system.now hidden.now.flags cell) }
    ensures cause { IfErr result (IsFaultOf system.now cells.now hidden.now.flags limit) }
    ensures signed { (signs : List Bool) → AreSigns system.now.relations signs
        → IfErr result (λ fault. HasNoWalk fault) }
{
    let signed = SignedSystem::of(alloc, system)?;
    if let Some(found) = found_intervals(alloc, &signed, cells, hidden, limit) {
        return Ok(found);
    }
    asked_intervals(alloc, &signed, cells, hidden, limit)
}

// The intervals of the hidden cells by searches that are kept from cell to cell; none where there are no searches, or
// where a cell has no interval.
fn found_intervals(
    alloc: Global,
    system: &SignedSystem<'_>,
    cells: &[Cell],
    hidden: &Hidden,
    limit: u64,
) -> Option<Items<CellInterval>>
    requires ground { IsPattern system.now cells.now hidden.now.flags }
    requires truths { All (λ cell. cell.truth ≤ℤ pos (10 ^ 29)) cells.now }
    requires limit { 1 ≤ limit }
    ensures intervals { IfSome result (AreIntervals system.now cells.now hidden.now.flags) }
    ensures no_signs { IfSome result (λ _. HasNone system.now.relations) }
    ensures small { IfSome result (λ _. (cell : ℕ) → sets.is_hidden hidden.now.flags cell ≡ true
        → HasSmallComponent system.now hidden.now.flags cell) }
{
    let mut search = EndSearch::of(alloc, system, cells, hidden)?;
    let mut intervals = Items::empty(alloc);
    'cells: for cell in 0..system.system().cells {
        if hidden.flags.as_slice()[cell as usize] {
            let one = found_interval(alloc, &mut search, system, cells, hidden, cell, limit)?;
            let Ok(()) = intervals.push(one) else {
                return None;
            };
        }
    }
    Some(intervals)
}

// The interval of a hidden cell by a search, if there is one.
fn found_interval(
    alloc: Global,
    search: &mut EndSearch,
    system: &SignedSystem<'_>,
    cells: &[Cell],
    hidden: &Hidden,
    cell: u32,
    limit: u64,
) -> Option<CellInterval>
    requires ground { IsPattern system.now cells.now hidden.now.flags }
    requires truths { All (λ cell. cell.truth ≤ℤ pos (10 ^ 29)) cells.now }
    requires hidden { sets.is_hidden hidden.now.flags cell ≡ true }
    requires limit { 1 ≤ limit }
    ensures number { IfSome result (λ one. one.cell ≡ cell) }
    ensures right { IfSome result (IsIntervalOf system.now cells.now hidden.now.flags) }
{
    let ends = search.ends_of(alloc, system, cells, hidden, cell, limit)?;
    Some(interval_from(system.system(), cells, hidden, cell, &ends))
}

// The intervals of the hidden cells by two questions for each.
fn asked_intervals(
    alloc: Global,
    system: &SignedSystem<'_>,
    cells: &[Cell],
    hidden: &Hidden,
    limit: u64,
) -> Result<Items<CellInterval>, AskFault>
    requires ground { IsPattern system.now cells.now hidden.now.flags }
    requires truths { All (λ cell. cell.truth ≤ℤ pos (10 ^ 29)) cells.now }
    requires limit { 1 ≤ limit }
    ensures intervals { IfOk result (AreIntervals system.now cells.now hidden.now.flags) }
    ensures whole { (signs : List Bool) → AreSigns system.now.relations signs
        → IfOk result (All (HasWholeEnds system.now cells.now hidden.now.flags)) }
    ensures small { IfOk result (λ _. (cell : ℕ) → sets.is_hidden hidden.now.flags cell ≡ true
        → HasSmallComponent system.now hidden.now.flags cell) }
    ensures cause { IfErr result (IsFaultOf system.now cells.now hidden.now.flags limit) }
    ensures signed { (signs : List Bool) → AreSigns system.now.relations signs
        → IfErr result (λ fault. HasNoWalk fault) }
{
    let mut intervals = Items::empty(alloc);
    'cells: for cell in 0..system.system().cells {
        if hidden.flags.as_slice()[cell as usize] {
            let one = interval_of(alloc, system, cells, hidden, cell, limit)?;
            intervals.push(one)?;
        }
    }
    Ok(intervals)
}

// The interval of a hidden cell.
fn interval_of(
    alloc: Global,
    system: &SignedSystem<'_>,
    cells: &[Cell],
    hidden: &Hidden,
    cell: u32,
    limit: u64,
) -> Result<CellInterval, AskFault>
    requires ground { IsPattern system.now cells.now hidden.now.flags }
    requires truths { All (λ cell. cell.truth ≤ℤ pos (10 ^ 29)) cells.now }
    requires hidden { sets.is_hidden hidden.now.flags cell ≡ true }
    requires limit { 1 ≤ limit }
    ensures number { IfOk result (λ one. one.cell ≡ cell) }
    ensures right { IfOk result (IsIntervalOf system.now cells.now hidden.now.flags) }
    ensures whole { (signs : List Bool) → AreSigns system.now.relations signs
        → IfOk result (HasWholeEnds system.now cells.now hidden.now.flags) }
    ensures ended { IfOk result (λ _. HasBothEnds system.now cells.now hidden.now.flags cell) }
    ensures cause { IfErr result (IsIntervalCause system.now cells.now hidden.now.flags cell limit) }
    ensures signed { (signs : List Bool) → AreSigns system.now.relations signs
        → IfErr result (λ fault. HasNoWalk fault) }
{
    let ends = signed_interval(alloc, system, cells, hidden, cell, limit)?;
    Ok(interval_from(system.system(), cells, hidden, cell, &ends))
}
