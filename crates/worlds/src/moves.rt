ghost use Rattle.std.specs.Prelude.{◌≡◌, ◌<◌, ℕ, length, All, true, pos, ◌*ℤ◌, int_le};
ghost use Rattle.std.specs.Option.{option_map_or};
ghost use Rattle.sdc_base.specs.Worlds.{value_over};
ghost use Rattle.sdc_base.specs.Systems.{number_at};
ghost use Rattle.worlds.specs.NumberLists.{terms_of, number_given};
ghost use Rattle.worlds.specs.WorldFaults.{move_fault, moves_fault};
ghost use Rattle.worlds.specs.WorldFaults as spec;

use crate::faults::WorldFault;
use crate::pattern::Pattern;
use crate::products::{is_at_least, is_at_most};
use crate::world::Move;
use sdc_base::Cell;

// The first fault of moves: one of a shown cell, or one that takes a cell beyond its bounds.
pub(crate) fn check_moves(
    pattern: &Pattern<'_>,
    den: i128,
    moves: &[Move],
) -> Result<(), WorldFault>
    requires { All (λ one. one.cell < length pattern.now.cells.now) moves.now }
    ensures { result ≡ moves_fault pattern.now.cells.now pattern.now.hidden.now.flags den (terms_of moves.now) }
{
    let flags = pattern.hidden.flags.as_slice();
    for one in moves {
        check_move(pattern.cells, flags, den, *one)?;
    }
    Ok(())
}

// The fault of one move.
fn check_move(cells: &[Cell], flags: &[bool], den: i128, one: Move) -> Result<(), WorldFault>
    requires one_each { length flags.now ≡ length cells.now }
    requires named { one.cell < length cells.now }
    ensures { result ≡ move_fault cells.now flags.now den (one.cell, one.by) }
{
    let place = one.cell as usize;
    if !flags[place] {
        return Err(WorldFault::Shown(one.cell));
    }
    if !is_within(&cells[place], den, one.by) {
        return Err(WorldFault::Bound(one.cell));
    }
    Ok(())
}

// Whether a move keeps a cell's value within its bounds.
fn is_within(cell: &Cell, den: i128, by: i128) -> bool
    ensures { result ≡ spec.is_within den by cell.now }
{
    is_low_kept(cell, den, by) && is_high_kept(cell, den, by)
}

// Whether a move keeps a cell's value at or above its lower bound.
fn is_low_kept(cell: &Cell, den: i128, by: i128) -> bool
    ensures { result ≡ int_le (den *ℤ cell.now.low) (value_over den cell.now by) }
{
    let room = cell.low - cell.truth;
    is_at_least(by, den, room)
}

// Whether a move keeps a cell's value at or below its upper bound, where there is one.
fn is_high_kept(cell: &Cell, den: i128, by: i128) -> bool
    ensures { result ≡ option_map_or (λ high. int_le (value_over den cell.now by) (den *ℤ high)) cell.now.high true }
{
    let Some(high) = cell.high else { return true };
    let room = high - cell.truth;
    is_at_most(by, den, room)
}

// Writes each cell's move among the numbers of the cells, 0 where none is given.
pub(crate) fn write_moves(moves: &[Move], numbers: &mut [i128])
    requires { All (λ one. one.cell < length numbers.old) moves.now }
    ensures length { length numbers.new ≡ length numbers.old }
    ensures each { (cell : ℕ) → number_at numbers.new cell ≡ number_given (terms_of moves.now) cell }
{
    clear(numbers);
    for one in moves {
        numbers[one.cell as usize] = one.by;
    }
}

// Makes all numbers 0.
pub(crate) fn clear(numbers: &mut [i128])
    ensures length { length numbers.new ≡ length numbers.old }
    ensures none { (cell : ℕ) → number_at numbers.new cell ≡ pos 0 }
{
    'cells: for cell in 0..numbers.len() {
        numbers[cell] = 0;
    }
}

// The move that is given for a cell, of several the last; 0 where none is given.
pub(crate) fn move_of(moves: &[Move], cell: u32) -> i128
    ensures { result ≡ number_given (terms_of moves.now) cell }
{
    let mut by = 0;
    for one in moves {
        if one.cell == cell {
            by = one.by;
        }
    }
    by
}
