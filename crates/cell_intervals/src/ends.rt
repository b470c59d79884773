ghost use Rattle.std.specs.Prelude.{◌≡◌, ◌≤ℤ◌, ◌^◌, All, IfNone, IfSome, pos, slice_get, Some, true};
ghost use Rattle.sdc_base.specs.Patterns.{IsPattern};
ghost use Rattle.sdc_base.specs.HiddenSets.{is_hidden};
ghost use Rattle.sdc_base.specs.declared.cell.Cell.{Cell as AnyCell};
ghost use Rattle.sdc_base.specs.declared.side.Side.TheVariants.{Above, Below};
ghost use Rattle.interval_audit.specs.Ends.{IsTrueEnd, IsWholeEnd};
ghost use Rattle.cell_intervals.specs.Farthest.{IsFarthest, IsOpenTo, IsWholeDistance, IsWholeFar};
ghost use Rattle.cell_intervals.specs.Intervals.{IsIntervalOf, IsLeastValue, IsUpperEnd, IsWholeUpperEndAt, IsWholeValueAt, KeepsWholeEnds};

use crate::interval::{CellInterval, UpperEnd};
use crate::ratio::{Ratio, lowest_terms_of, minus, plus};
use interval_audit::{Answer, TwoEnds};
use sdc_base::{Cell, Hidden, Side, System};

/// The interval of a hidden cell whose two questions have these answers ([`interval_audit::interval`]).
///
/// There are a cell and a flag for each cell of the system, the cell is hidden, and no truth is above 10^29 units. It
/// takes no memory, and divides once for each end.
///
/// The interval is the feasibility interval in Hundepool et al., Statistical Disclosure Control, chapter on magnitude
/// tables.
pub fn interval_from(
    system: &System,
    cells: &[Cell],
    hidden: &Hidden,
    cell: u32,
    ends: &TwoEnds,
) -> CellInterval
    requires ground { IsPattern system.now cells.now hidden.now.flags }
    requires truths { All (λ cell. cell.truth ≤ℤ pos (10 ^ 29)) cells.now }
    requires hidden { is_hidden hidden.now.flags cell ≡ true }
    requires below { IsTrueEnd system.now cells.now hidden.now.flags cell Below ends.now.below }
    requires above { IsTrueEnd system.now cells.now hidden.now.flags cell Above ends.now.above }
    ensures number { result.cell ≡ cell }
    ensures interval { IsIntervalOf system.now cells.now hidden.now.flags result }
    ensures whole { KeepsWholeEnds system.now cells.now hidden.now.flags cell ends.now result }
{
    let low = low_end(system, cells, hidden, cell, &ends.below);
    let high = high_end(system, cells, hidden, cell, &ends.above);
    CellInterval { cell, low, high }
}

// The lower end of a cell's interval. No world takes a cell as far below its truth as is asked, since a truth is less
// than that.
fn low_end(system: &System, cells: &[Cell], hidden: &Hidden, cell: u32, below: &Answer) -> Ratio
    requires ground { IsPattern system.now cells.now hidden.now.flags }
    requires truths { All (λ cell. cell.truth ≤ℤ pos (10 ^ 29)) cells.now }
    requires hidden { is_hidden hidden.now.flags cell ≡ true }
    requires below { IsTrueEnd system.now cells.now hidden.now.flags cell Below below.now }
    ensures least { (known : AnyCell) → slice_get cells.now cell ≡ Some known
        → IsLeastValue system.now cells.now hidden.now.flags cell known result }
    ensures whole { IsWholeEnd system.now cells.now hidden.now.flags cell Below below.now
        → IsWholeValueAt system.now cells.now hidden.now.flags cell result }
{
    let truth = cells[cell as usize].truth.unsigned_abs();
    let Some(far) = farthest(system, cells, hidden, cell, Side::Below, below) else {
        unreachable!();
    };
    minus(truth, far)
}

// The upper end of a cell's interval.
fn high_end(system: &System, cells: &[Cell], hidden: &Hidden, cell: u32, above: &Answer) -> UpperEnd
    requires ground { IsPattern system.now cells.now hidden.now.flags }
    requires truths { All (λ cell. cell.truth ≤ℤ pos (10 ^ 29)) cells.now }
    requires hidden { is_hidden hidden.now.flags cell ≡ true }
    requires above { IsTrueEnd system.now cells.now hidden.now.flags cell Above above.now }
    ensures upper { (known : AnyCell) → slice_get cells.now cell ≡ Some known
        → IsUpperEnd system.now cells.now hidden.now.flags cell known result }
    ensures whole { IsWholeEnd system.now cells.now hidden.now.flags cell Above above.now
        → IsWholeUpperEndAt system.now cells.now hidden.now.flags cell result }
{
    let truth = cells[cell as usize].truth.unsigned_abs();
    let Some(far) = farthest(system, cells, hidden, cell, Side::Above, above) else {
        return UpperEnd::Open;
    };
    UpperEnd::At(plus(truth, far))
}

// How far worlds take a cell to a side, in lowest terms, by the answer of its question; none where one takes it 2^110
// there.
fn farthest(
    system: &System,
    cells: &[Cell],
    hidden: &Hidden,
    cell: u32,
    side: Side,
    answer: &Answer,
) -> Option<Ratio>
    requires end { IsTrueEnd system.now cells.now hidden.now.flags cell side answer.now }
    ensures stops { IfSome result (IsFarthest system.now cells.now hidden.now.flags cell side) }
    ensures reaches { IfNone result (IsOpenTo system.now cells.now hidden.now.flags cell side) }
    ensures whole { IsWholeEnd system.now cells.now hidden.now.flags cell side answer.now
        → IfSome result (IsWholeFar system.now cells.now hidden.now.flags cell side) }
    ensures whole_open { IsWholeEnd system.now cells.now hidden.now.flags cell side answer.now
        → IfNone result (IsWholeDistance system.now cells.now hidden.now.flags cell side (pos (2 ^ 110))) }
{
    match answer {
        Answer::Stops { best, .. } => Some(lowest_terms_of(
            best.num.unsigned_abs(),
            best.den.unsigned_abs(),
        )),
        Answer::Reaches(_) => None,
    }
}
