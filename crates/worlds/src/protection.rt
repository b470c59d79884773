ghost use Rattle.std.specs.Prelude.{◌≡◌, ◌+◌, ◌∷◌, [], ◌<◌, ◌≤◌, ℕ, length, drop, Err, IfOk, IfErr};
ghost use Rattle.worlds.specs.ProtectFaults.{line_number, asked_of, line_fault, lines_fault, fault_from, protect_fault};

use crate::faults::ProtectFault;
use crate::pattern::Pattern;
use crate::permitted::{hidden_fixed, shown_primary};
use crate::world::World;
use crate::world_check::{first_world_fault, reaches};
use sdc_base::{Cell, Side};

// The first fault of a hidden set with worlds for its primary cells.
pub(crate) fn check_protection(
    pattern: &Pattern<'_>,
    worlds: &[World],
    scratch: &mut [i128],
) -> Result<(), ProtectFault>
    requires scratch { length scratch.old ≡ pattern.now.system.now.cells }
    ensures { result ≡ protect_fault pattern.now.system.now pattern.now.cells.now pattern.now.hidden.now.flags
        worlds.now }
{
    let flags = pattern.hidden.flags.as_slice();
    if let Some(number) = shown_primary(pattern.cells, flags) {
        return Err(ProtectFault::PrimaryShown(number));
    }
    if let Some(number) = hidden_fixed(pattern.cells, flags) {
        return Err(ProtectFault::FixedHidden(number));
    }
    if worlds.len() != count_asked(pattern) {
        return Err(ProtectFault::Count);
    }
    check_lines(pattern, worlds, scratch)
}

// How many worlds there are to be: two for each primary cell.
fn count_asked(pattern: &Pattern<'_>) -> usize
    ensures { result ≡ length (asked_of 0 pattern.now.cells.now) }
{
    let mut count = 0;
    for cell in pattern.cells {
        count += asked_for(cell);
    }
    count
}

// How many worlds there are to be for one cell.
fn asked_for(cell: &Cell) -> usize
    ensures worlds { (number : ℕ) → result ≡ length (asked_of number (cell.now ∷ [])) }
    ensures at_most_2 { result ≤ 2 }
{
    if cell.kind.is_primary() { 2 } else { 0 }
}

// The first fault of the worlds, two for each primary cell.
fn check_lines(
    pattern: &Pattern<'_>,
    worlds: &[World],
    scratch: &mut [i128],
) -> Result<(), ProtectFault>
    requires scratch { length scratch.old ≡ pattern.now.system.now.cells }
    requires count { length worlds.now ≡ length (asked_of 0 pattern.now.cells.now) }
    ensures { result ≡ lines_fault pattern.now.system.now pattern.now.cells.now pattern.now.hidden.now.flags 0
        (asked_of 0 pattern.now.cells.now) worlds.now }
{
    let mut line = 0;
    'cells: for number in 0..pattern.cells.len() {
        line = check_cell(pattern, worlds, scratch, number, line)?;
    }
    Ok(())
}

// The worlds of one cell from a line on, two where it is primary: the line behind them.
fn check_cell(
    pattern: &Pattern<'_>,
    worlds: &[World],
    scratch: &mut [i128],
    number: usize,
    line: usize,
) -> Result<usize, ProtectFault>
    requires scratch { length scratch.old ≡ pattern.now.system.now.cells }
    requires number { number < length pattern.now.cells.now }
    requires count { line + length (asked_of number (drop number pattern.now.cells.now)) ≡ length worlds.now }
    ensures length { length scratch.new ≡ length scratch.old }
    ensures ok { IfOk result (λ next. fault_from pattern.now worlds.now number line
        ≡ fault_from pattern.now worlds.now (number + 1) next) }
    ensures count { IfOk result (λ next. next + length (asked_of (number + 1) (drop (number + 1) pattern.now.cells.now))
        ≡ length worlds.now) }
    ensures err { IfErr result (λ fault. fault_from pattern.now worlds.now number line ≡ Err fault) }
{
    if !pattern.cells[number].kind.is_primary() {
        return Ok(line);
    }
    let cell = number as u32;
    check_line(pattern, &worlds[line], scratch, cell, Side::Above, line)?;
    let next = line + 1;
    check_line(pattern, &worlds[next], scratch, cell, Side::Below, next)?;
    Ok(line + 2)
}

// The fault of the world on a line, for a cell and a side.
fn check_line(
    pattern: &Pattern<'_>,
    world: &World,
    scratch: &mut [i128],
    cell: u32,
    side: Side,
    line: usize,
) -> Result<(), ProtectFault>
    requires scratch { length scratch.old ≡ pattern.now.system.now.cells }
    requires cell { cell < length pattern.now.cells.now }
    ensures length { length scratch.new ≡ length scratch.old }
    ensures exact { result ≡ line_fault pattern.now.system.now pattern.now.cells.now pattern.now.hidden.now.flags line
        (cell, side) world.now }
{
    if let Err(fault) = first_world_fault(pattern, world, scratch) {
        return Err(ProtectFault::World(number_of(line), fault));
    }
    if !reaches(&pattern.cells[cell as usize], side, cell, world) {
        return Err(ProtectFault::NotReached(cell, side));
    }
    Ok(())
}

// The number of a line in 32 bits, the greatest one for all beyond.
fn number_of(line: usize) -> u32
    ensures { result ≡ line_number line }
{
    line.min(4294967295) as u32
}
