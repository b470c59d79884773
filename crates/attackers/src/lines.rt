ghost use Rattle.std.specs.Prelude.{◌≡◌, ◌<◌, ◌==◌, ◌++◌, ◌∷◌, [], IsTrue, true, length, filter, OnOk};
ghost use Rattle.std.specs.List.{list_any};
ghost use Rattle.attackers.specs.KnownCells as spec;
ghost use Rattle.attackers.specs.Dropping as dropping;

use crate::attack::Attack;
use crate::known::serves;
use certificate::WorldLine;
use sdc_base::{Cell, Items, Memory};
use std::alloc::Global;
use std::mem;
use worlds::Move;

/// Whether a world kept for the cell and side of an attack serves against it.
pub(crate) fn is_served(
    cells: &[Cell],
    soles: &[Option<u32>],
    attack: Attack,
    lines: &[WorldLine],
) -> bool
    requires { attack.cell < length cells.now }
    ensures { IsTrue result → spec.is_served cells.now soles.now attack lines.now ≡ true }
{
    'lines: for line in lines {
        if is_serving(cells, soles, attack, line) {
            return true;
        }
    }
    false
}

// Whether a world is kept for the cell and side of an attack, and serves against it.
fn is_serving(cells: &[Cell], soles: &[Option<u32>], attack: Attack, line: &WorldLine) -> bool
    requires { attack.cell < length cells.now }
    ensures { IsTrue result → spec.serves cells.now soles.now attack line.now.world ≡ true }
{
    line.cell == attack.cell
        && line.side == attack.side
        && serves(cells, soles, attack, &line.world)
}

/// Whether a world kept for the cell and side of an attack serves against it, and doesn't move a cell.
pub(crate) fn is_still_served(
    cells: &[Cell],
    soles: &[Option<u32>],
    attack: Attack,
    cell: u32,
    lines: &[WorldLine],
) -> bool
    requires { attack.cell < length cells.now }
    ensures { IsTrue result
        → spec.is_served cells.now soles.now attack (filter (dropping.stays cell) lines.now) ≡ true }
{
    'lines: for line in lines {
        if is_still_serving(cells, soles, attack, cell, line) {
            return true;
        }
    }
    false
}

// Whether a world is kept for the cell and side of an attack, serves against it, and doesn't move a cell.
fn is_still_serving(
    cells: &[Cell],
    soles: &[Option<u32>],
    attack: Attack,
    cell: u32,
    line: &WorldLine,
) -> bool
    requires { attack.cell < length cells.now }
    ensures serves { IsTrue result → spec.serves cells.now soles.now attack line.now.world ≡ true }
    ensures stays { IsTrue result → dropping.stays cell line.now ≡ true }
{
    is_serving(cells, soles, attack, line) && stays(line, cell)
}

// Whether a world doesn't move a cell.
fn stays(line: &WorldLine, cell: u32) -> bool
    ensures { result ≡ dropping.stays cell line.now }
{
    !is_moved(line.world.moves.as_slice(), cell)
}

// Whether a cell is among those that move.
fn is_moved(moves: &[Move], cell: u32) -> bool
    ensures { result ≡ list_any (λ one. one.cell == cell) moves.now }
{
    moves.iter().any(|one| one.cell == cell)
}

/// Lets go of the worlds that move a cell.
pub(crate) fn drop_moved(
    alloc: Global,
    lines: &mut Items<WorldLine>,
    cell: u32,
) -> Result<(), Memory>
    ensures { OnOk result (lines.new ≡ filter (dropping.stays cell) lines.old) }
{
    let old = mem::replace(lines, Items::empty(alloc));
    'old: for line in old.into_vec() {
        keep_still(lines, cell, line)?;
    }
    Ok(())
}

// Keeps a world behind others where it doesn't move a cell.
fn keep_still(lines: &mut Items<WorldLine>, cell: u32, line: WorldLine) -> Result<(), Memory>
    ensures { OnOk result (lines.new ≡ lines.old ++ filter (dropping.stays cell) (line ∷ [])) }
{
    if stays(&line, cell) {
        lines.push(line)?;
    }
    Ok(())
}
