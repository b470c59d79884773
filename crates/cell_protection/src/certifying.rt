ghost use Rattle.std.specs.Prelude.{◌≡◌, ◌++◌, ◌∷◌, ◌<◌, ◌^◌, [], drop, if◌then◌else◌, length, IfOk, OnOk};
ghost use Rattle.sdc_base.specs.HiddenSets as sets;
ghost use Rattle.worlds.specs.ProtectFaults.{asked_of};
ghost use Rattle.cell_protection.specs.Certifying as spec;
ghost use Rattle.cell_protection.specs.Certifying.{hidden_numbers, world_line};

use certificate::WorldLine;
use sdc_base::{Cell, Items, Memory, Side, is_hidden};
use std::alloc::Global;
use worlds::World;

/// The numbers of the hidden cells among so many, ascending.
pub(crate) fn hidden_cells(alloc: Global, count: u32, flags: &[bool]) -> Result<Items<u32>, Memory>
    ensures { IfOk result (λ numbers. numbers ≡ hidden_numbers count flags.now) }
{
    let mut numbers = Items::empty(alloc);
    'cells: for cell in 0..count {
        add_hidden(&mut numbers, flags, cell)?;
    }
    Ok(numbers)
}

// Adds the number of a cell, where it is hidden.
fn add_hidden(numbers: &mut Items<u32>, flags: &[bool], cell: u32) -> Result<(), Memory>
    ensures { OnOk result (numbers.new ≡
        (if sets.is_hidden flags.now cell then numbers.old ++ cell ∷ [] else numbers.old)) }
{
    if is_hidden(flags, cell as usize) {
        numbers.push(cell)?;
    }
    Ok(())
}

/// The complete tables of a protection, each with the primary cell and the side for which it stands.
pub(crate) fn world_lines(
    alloc: Global,
    cells: &[Cell],
    worlds: &[World],
) -> Result<Items<WorldLine>, Memory>
    requires { length cells.now < 2 ^ 32 }
    ensures { IfOk result (λ lines. lines ≡ spec.world_lines (asked_of 0 cells.now) worlds.now) }
{
    let mut lines = Items::empty(alloc);
    'cells: for (number, cell) in cells.iter().enumerate() {
        add_lines(alloc, &mut lines, worlds, number as u32, cell)?;
    }
    Ok(lines)
}

// Adds the lines of a cell from the next complete table on: two where it is primary, above and then below.
fn add_lines(
    alloc: Global,
    lines: &mut Items<WorldLine>,
    worlds: &[World],
    number: u32,
    cell: &Cell,
) -> Result<(), Memory>
    ensures { OnOk result (lines.new ≡ lines.old
        ++ spec.world_lines (asked_of number (cell.now ∷ [])) (drop (length lines.old) worlds.now)) }
{
    if !cell.kind.is_primary() {
        return Ok(());
    }
    add_line(alloc, lines, worlds, (number, Side::Above))?;
    add_line(alloc, lines, worlds, (number, Side::Below))?;
    Ok(())
}

// Adds the line of the next complete table, if there is one, with the question for which it stands.
fn add_line(
    alloc: Global,
    lines: &mut Items<WorldLine>,
    worlds: &[World],
    question: (u32, Side),
) -> Result<(), Memory>
    ensures { OnOk result (lines.new ≡ lines.old
        ++ spec.world_lines (question ∷ []) (drop (length lines.old) worlds.now)) }
{
    let next = lines.as_slice().len();
    if next >= worlds.len() {
        return Ok(());
    }
    let line = line_of(alloc, question, &worlds[next])?;
    lines.push(line)?;
    Ok(())
}

// The line of a complete table with the question for which it stands.
fn line_of(alloc: Global, question: (u32, Side), world: &World) -> Result<WorldLine, Memory>
    ensures { IfOk result (λ line. line ≡ world_line question world.now) }
{
    Ok(WorldLine {
        cell: question.0,
        side: question.1,
        world: copy_of(alloc, world)?,
    })
}

// The same complete table.
fn copy_of(alloc: Global, world: &World) -> Result<World, Memory>
    ensures { IfOk result (λ copy. copy ≡ world.now) }
{
    Ok(World {
        den: world.den,
        moves: Items::new(world.moves.as_slice().to_vec(alloc)?),
    })
}
