ghost use Rattle.std.specs.Prelude.{◌≡◌, ◌≤ℤ◌, ◌^◌, pos, length, All, IfErr, IfOk, IsOk};
ghost use Rattle.sdc_base.specs.Roundings.{IsAdjacent, IsRounding};
ghost use Rattle.rounding_audit.specs.ReaderFaults.{AreRoundedBelow, IsReaderFault, truths_of};
ghost use Rattle.rounding_audit.specs.Readers.{AreReaderCells, CanBeAudited, IsReaderCell};
ghost use Rattle.rounding_audit.specs.Readers as readers;

use crate::adjacency::first_unrounded;
use crate::holding::first_broken;
use crate::reader_fault::ReaderFault;
use sdc_base::{Cell, Items, Kind, Memory, System};
use std::alloc::Global;

/// The greatest truth, in units.
const GREATEST_TRUTH: i128 = 100_000_000_000_000_000_000_000_000_000;

/// The cells as a reader of a rounded release knows them: each with the bounds that follow from its shown value, from
/// the base and from its stated bounds, all in units.
///
/// There are a cell and a value for each cell of the system, no truth is above 10^29 units, and the base is from 1 to
/// 10^22 units. The reader's lower bound is the greater of the stated one and `value - base + 1`; the upper one is the
/// least of the stated one, where there is one, `value + base - 1` and 10^29. A fixed cell becomes a free one, since in
/// a rounded release every cell may be other than it is shown; all else stays.
///
/// The refusals, in this order: `Rounded` with the first cell whose value isn't a multiple of the base less than one
/// base from its truth; `Relation` with the first relation that doesn't hold on the values. Want of memory may come at
/// any time. It goes once through the cells and the parts of all relations.
///
/// The rounding is zero-restricted controlled rounding; what its reader knows is argus's own.
pub fn reader_cells(
    alloc: Global,
    system: &System,
    cells: &[Cell],
    values: &[i128],
    base: i128,
) -> Result<Items<Cell>, ReaderFault>
    requires { CanBeAudited system.now cells.now values.now base }
    ensures known { IfOk result (AreReaderCells cells.now values.now base) }
    ensures rounded { IsOk result → IsRounding system.now (truths_of cells.now) base values.now }
    ensures fault { IfErr result (IsReaderFault system.now cells.now values.now base) }
{
    if let Some(number) = first_unrounded(cells, values, &base) {
        return Err(ReaderFault::Rounded(number));
    }
    if let Some(number) = first_broken(system.relations.as_slice(), values) {
        return Err(ReaderFault::Relation(number));
    }
    let known = cells_known(alloc, cells, values, &base)?;
    Ok(known)
}

// The cells with the reader's bounds, where each is rounded.
fn cells_known(
    alloc: Global,
    cells: &[Cell],
    values: &[i128],
    base: &i128,
) -> Result<Items<Cell>, Memory>
    requires each { length values.now ≡ length cells.now }
    requires truths { All (λ cell. cell.truth ≤ℤ pos (10 ^ 29)) cells.now }
    requires base { pos 1 ≤ℤ base.now }
    requires at_most_10_22 { base.now ≤ℤ pos (10 ^ 22) }
    requires rounded { AreRoundedBelow cells.now values.now base.now (length cells.now) }
    ensures { IfOk result (AreReaderCells cells.now values.now base.now) }
{
    let mut known = Items::empty(alloc);
    'cells: for number in 0..cells.len() {
        let one = cell_known(&cells[number], &values[number], base);
        known.push(one)?;
    }
    Ok(known)
}

// The cell with the reader's bounds, where it is rounded.
fn cell_known(cell: &Cell, shown: &i128, base: &i128) -> Cell
    requires base { pos 1 ≤ℤ base.now }
    requires at_most_10_22 { base.now ≤ℤ pos (10 ^ 22) }
    requires at_most_10_29 { cell.now.truth ≤ℤ pos (10 ^ 29) }
    requires rounded { IsAdjacent base.now cell.now.truth shown.now }
    ensures { IsReaderCell base.now shown.now cell.now result }
{
    let low = low_known(cell, *shown, *base);
    let high = high_known(cell, *shown, *base);
    Cell {
        truth: cell.truth,
        low,
        high: Some(high),
        up: cell.up,
        down: cell.down,
        kind: kind_known(cell.kind),
        price: cell.price,
    }
}

// The reader's lower bound of a cell.
fn low_known(cell: &Cell, shown: i128, base: i128) -> i128
    requires base { pos 1 ≤ℤ base }
    requires at_most_10_22 { base ≤ℤ pos (10 ^ 22) }
    requires at_most_10_29 { cell.now.truth ≤ℤ pos (10 ^ 29) }
    requires rounded { IsAdjacent base cell.now.truth shown }
    ensures bound { result ≡ readers.reader_low base shown cell.now }
    ensures from_zero { pos 0 ≤ℤ result }
    ensures within { result ≤ℤ cell.now.truth }
{
    let least = shown - base + 1;
    cell.low.max(least)
}

// The reader's upper bound of a cell.
fn high_known(cell: &Cell, shown: i128, base: i128) -> i128
    requires base { pos 1 ≤ℤ base }
    requires at_most_10_22 { base ≤ℤ pos (10 ^ 22) }
    requires at_most_10_29 { cell.now.truth ≤ℤ pos (10 ^ 29) }
    requires rounded { IsAdjacent base cell.now.truth shown }
    ensures bound { result ≡ readers.reader_high base shown cell.now }
    ensures beyond { cell.now.truth ≤ℤ result }
{
    let most = shown + base - 1;
    stated_high(cell).min(most)
}

// The stated upper bound of a cell, where there is one, or the greatest truth.
fn stated_high(cell: &Cell) -> i128
    ensures { result ≡ readers.stated_high cell.now }
{
    match cell.high {
        Some(high) => GREATEST_TRUTH.min(high),
        None => GREATEST_TRUTH,
    }
}

// What a cell is to the reader: one that was always shown may move as well.
fn kind_known(kind: Kind) -> Kind
    ensures { result ≡ readers.reader_kind kind }
{
    match kind {
        Kind::Primary => Kind::Primary,
        Kind::Free => Kind::Free,
        Kind::Fixed => Kind::Free,
    }
}
