ghost use Rattle.std.specs.Prelude.{◌≡◌, ◌↔◌, length, IsOk, IsTrue};
ghost use Rattle.sdc_base.specs.Patterns.{IsPattern};
ghost use Rattle.sdc_base.specs.Worlds.{Reaches};
ghost use Rattle.worlds.specs.NumberLists.{terms_of, number_given};
ghost use Rattle.worlds.specs.WorldFaults.{world_fault, IsGivenWorld};

use crate::faults::WorldFault;
use crate::listed::misplaced_move;
use crate::moves::{check_moves, move_of, write_moves};
use crate::pattern::Pattern;
use crate::products::{is_at_least, is_at_most};
use crate::relations::check_relations;
use crate::world::World;
use sdc_base::{Cell, Hidden, Side, System};

/// Whether a world is one for a hidden set: a complete table in which no shown cell moves, every relation holds and
/// every value is within the attacker's bounds.
///
/// There are a cell, a flag and a number of the scratch for each cell of the system; afterwards the scratch may hold
/// any numbers. The fault is the first in this order: the denominator; the first move that isn't ascending, names no
/// cell or is 0; move by move, that its cell is shown, or else is outside its bounds; the first relation that doesn't
/// hold. It goes once through the moves and the parts of all relations, and takes no memory.
///
/// Worlds are the tables of the feasibility interval in Hundepool et al., Statistical Disclosure Control, chapter on
/// magnitude tables.
pub fn check_world(
    system: &System,
    cells: &[Cell],
    hidden: &Hidden,
    world: &World,
    scratch: &mut [i128],
) -> Result<(), WorldFault>
    requires ground { IsPattern system.now cells.now hidden.now.flags }
    requires scratch { length scratch.old ≡ system.now.cells }
    ensures exact { result ≡ world_fault system.now cells.now hidden.now.flags world.now }
    ensures world { IsOk result ↔ IsGivenWorld system.now cells.now hidden.now.flags world.now }
    ensures length { length scratch.new ≡ length scratch.old }
{
    let pattern = Pattern {
        system,
        cells,
        hidden,
    };
    first_world_fault(&pattern, world, scratch)
}

// The first fault of a world.
pub(crate) fn first_world_fault(
    pattern: &Pattern<'_>,
    world: &World,
    scratch: &mut [i128],
) -> Result<(), WorldFault>
    requires scratch { length scratch.old ≡ pattern.now.system.now.cells }
    ensures exact { result ≡ world_fault pattern.now.system.now pattern.now.cells.now pattern.now.hidden.now.flags
        world.now }
    ensures length { length scratch.new ≡ length scratch.old }
{
    if world.den < 1 {
        return Err(WorldFault::Den);
    }
    let moves = world.moves.as_slice();
    if let Some(place) = misplaced_move(moves, pattern.system.cells) {
        return Err(WorldFault::Order(place));
    }
    check_moves(pattern, world.den, moves)?;
    write_moves(moves, scratch);
    check_relations(pattern.system.relations.as_slice(), scratch)
}

/// Whether a cell lies in a world at least its level to a side, the level of its upper or its lower side.
///
/// The number is that of the cell. It goes once through the moves, and takes no memory. Levels are the handbook's
/// (protection levels).
pub fn reaches(cell: &Cell, side: Side, number: u32, world: &World) -> bool
    ensures { IsTrue result ↔ Reaches side cell.now world.now.den (number_given (terms_of world.now.moves) number) }
{
    let by = move_of(world.moves.as_slice(), number);
    match side {
        Side::Above => is_at_least(by, world.den, cell.up),
        Side::Below => is_at_most(by, world.den, -cell.down),
    }
}
