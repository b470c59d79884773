ghost use Rattle.std.specs.Prelude.{◌≡◌, ◌<◌, length, slice_index_or, None, IfOk};
ghost use Rattle.std.specs.List.{list_any};
ghost use Rattle.sdc_base.specs.Kinds as kinds;
ghost use Rattle.attackers.specs.Alone as alone;
ghost use Rattle.attackers.specs.KnownCells as spec;

use crate::attack::Attack;
use sdc_base::{Cell, Hidden, Items, Memory, is_hidden};
use std::alloc::Global;
use worlds::{Move, World, reaches};

/// Whether the contributor at this row alone makes up a cell.
pub(crate) fn is_known(soles: &[Option<u32>], row: u32, cell: u32) -> bool
    ensures { result ≡ spec.is_known soles.now row cell }
{
    is_known_at(soles, row, cell as usize)
}

// The same, by the cell's place.
fn is_known_at(soles: &[Option<u32>], row: u32, cell: usize) -> bool
    ensures { result ≡ spec.is_known soles.now row cell }
{
    is_sole(row, sole_at(soles, cell))
}

// The row that alone makes up a cell, if there is one.
fn sole_at(soles: &[Option<u32>], cell: usize) -> Option<u32>
    ensures { result ≡ slice_index_or soles.now cell None }
{
    match soles.get(cell) {
        Some(sole) => *sole,
        None => None,
    }
}

// Whether this is the row.
fn is_sole(row: u32, sole: Option<u32>) -> bool
    ensures { result ≡ alone.is_sole row sole }
{
    match sole {
        Some(one) => one == row,
        None => false,
    }
}

/// The hidden set without what a contributor knows.
pub(crate) fn without_known(
    alloc: Global,
    soles: &[Option<u32>],
    row: u32,
    flags: &[bool],
) -> Result<Hidden, Memory>
    ensures { IfOk result (λ hidden. hidden.flags ≡ spec.without_known soles.now row flags.now) }
{
    let mut left = Vec::new(alloc);
    'cells: for cell in 0..flags.len() {
        left.push(is_left(soles, row, flags, cell))?;
    }
    Ok(Hidden {
        flags: Items::new(left),
    })
}

// Whether a cell is hidden, and the contributor doesn't know it.
fn is_left(soles: &[Option<u32>], row: u32, flags: &[bool], cell: usize) -> bool
    ensures { result ≡ spec.is_left soles.now row flags.now cell }
{
    is_hidden(flags, cell) && !is_known_at(soles, row, cell)
}

// Whether a cell is hidden, or the contributor knows it.
fn is_hidden_or_known(soles: &[Option<u32>], row: u32, flags: &[bool], cell: usize) -> bool
    ensures { result ≡ spec.is_hidden_or_known soles.now row flags.now cell }
{
    is_hidden(flags, cell) || is_known_at(soles, row, cell)
}

/// The hidden set with what a contributor knows.
pub(crate) fn with_known(
    alloc: Global,
    soles: &[Option<u32>],
    row: u32,
    flags: &[bool],
) -> Result<Hidden, Memory>
    ensures { IfOk result (λ hidden. hidden.flags ≡ spec.with_known soles.now row flags.now) }
{
    let mut more = Vec::new(alloc);
    'cells: for cell in 0..flags.len() {
        more.push(is_hidden_or_known(soles, row, flags, cell))?;
    }
    Ok(Hidden {
        flags: Items::new(more),
    })
}

// Whether some move is one of a cell that the contributor knows.
fn moves_known(soles: &[Option<u32>], row: u32, moves: &[Move]) -> bool
    ensures { result ≡ spec.moves_known soles.now row moves.now }
{
    moves.iter().any(|one| is_known(soles, row, one.cell))
}

/// Whether a world serves against an attack: it takes the cell as far as its level, and moves no cell that the
/// contributor knows.
pub(crate) fn serves(cells: &[Cell], soles: &[Option<u32>], attack: Attack, world: &World) -> bool
    requires { attack.cell < length cells.now }
    ensures { result ≡ spec.serves cells.now soles.now attack world.now }
{
    reaches(
        &cells[attack.cell as usize],
        attack.side,
        attack.cell,
        world,
    ) && !moves_known(soles, attack.row, world.moves.as_slice())
}

/// Whether the cell with this number is primary.
pub(crate) fn is_primary_at(cells: &[Cell], cell: u32) -> bool
    ensures { result ≡ kinds.is_primary_at cells.now cell }
{
    match cells.get(cell as usize) {
        Some(one) => one.kind.is_primary(),
        None => false,
    }
}

// Whether a row alone makes up some cell.
fn makes_up(soles: &[Option<u32>], row: u32) -> bool
    ensures { result ≡ list_any (alone.is_sole row) soles.now }
{
    soles.iter().any(|sole| is_sole(row, *sole))
}

/// Whether an attack is by a contributor that alone makes up some cell, on a primary cell that it doesn't know.
pub(crate) fn is_attack(cells: &[Cell], soles: &[Option<u32>], attack: Attack) -> bool
    ensures { result ≡ spec.is_attack cells.now soles.now attack }
{
    is_primary_at(cells, attack.cell)
        && !is_known(soles, attack.row, attack.cell)
        && makes_up(soles, attack.row)
}
