ghost use Rattle.std.specs.Prelude.{◌≡◌, ◌<◌, ◌≤◌, ◌+◌, length, slice_get, Err, IfOk, IfErr, OnOk};
ghost use Rattle.sdc_base.specs.Patterns.{IsPattern};
ghost use Rattle.cert_check.specs.WorldList as spec;

use crate::case::Case;
use crate::faults::CheckFault;
use crate::numbering::number_of;
use certificate::WorldLine;
use sdc_base::{Hidden, Side};
use worlds::{check_world, reaches};

/// Refuses worlds that aren't two for each primary cell by which the set protects it.
pub(crate) fn check_worlds(
    case: &Case<'_>,
    hidden: &Hidden,
    lines: &[WorldLine],
    scratch: &mut [i128],
) -> Result<(), CheckFault>
    requires ground { IsPattern case.now.system.now case.now.cells.now hidden.now.flags }
    requires scratch { length scratch.old ≡ case.now.system.now.cells }
    ensures exact { result ≡
        spec.worlds_fault case.now.system.now case.now.cells.now hidden.now.flags lines.now }
    ensures length { length scratch.new ≡ length scratch.old }
{
    let mut place = 0;
    'cells: for number in 0..case.cells.len() {
        place = check_cell(case, hidden, number, place, lines, scratch)?;
    }
    if place < lines.len() {
        return Err(CheckFault::WorldCell(number_of(place)));
    }
    Ok(())
}

// The lines of one cell from a place on, two where it is primary: the place behind them.
fn check_cell(
    case: &Case<'_>,
    hidden: &Hidden,
    number: usize,
    place: usize,
    lines: &[WorldLine],
    scratch: &mut [i128],
) -> Result<usize, CheckFault>
    requires ground { IsPattern case.now.system.now case.now.cells.now hidden.now.flags }
    requires scratch { length scratch.old ≡ case.now.system.now.cells }
    requires number { number < length case.now.cells.now }
    requires place { place ≤ length lines.now }
    ensures ok { IfOk result (λ next. spec.fault_of_rest case.now hidden.now.flags lines.now number place
        ≡ spec.fault_of_rest case.now hidden.now.flags lines.now (number + 1) next) }
    ensures next { IfOk result (λ next. next ≤ length lines.now) }
    ensures err { IfErr result (λ fault.
        spec.fault_of_rest case.now hidden.now.flags lines.now number place ≡ Err fault) }
    ensures length { length scratch.new ≡ length scratch.old }
{
    if !case.cells[number].kind.is_primary() {
        return Ok(place);
    }
    let cell = number as u32;
    check_place(case, hidden, place, (cell, Side::Above), lines, scratch)?;
    let next = place + 1;
    check_place(case, hidden, next, (cell, Side::Below), lines, scratch)?;
    Ok(place + 2)
}

// The fault of the line at a place for what is asked.
fn check_place(
    case: &Case<'_>,
    hidden: &Hidden,
    place: usize,
    asked: (u32, Side),
    lines: &[WorldLine],
    scratch: &mut [i128],
) -> Result<(), CheckFault>
    requires ground { IsPattern case.now.system.now case.now.cells.now hidden.now.flags }
    requires scratch { length scratch.old ≡ case.now.system.now.cells }
    requires asked { asked.0 < case.now.system.now.cells }
    ensures exact { result ≡
        spec.place_fault case.now.system.now case.now.cells.now hidden.now.flags place asked
        (slice_get lines.now place) }
    ensures within { OnOk result (place < length lines.now) }
    ensures length { length scratch.new ≡ length scratch.old }
{
    match lines.get(place) {
        Some(line) => check_line(case, hidden, number_of(place), asked, line, scratch),
        None => Err(CheckFault::WorldCell(number_of(place))),
    }
}

// The fault of a line for what is asked.
fn check_line(
    case: &Case<'_>,
    hidden: &Hidden,
    number: u32,
    asked: (u32, Side),
    line: &WorldLine,
    scratch: &mut [i128],
) -> Result<(), CheckFault>
    requires ground { IsPattern case.now.system.now case.now.cells.now hidden.now.flags }
    requires scratch { length scratch.old ≡ case.now.system.now.cells }
    requires asked { asked.0 < case.now.system.now.cells }
    ensures exact { result ≡
        spec.line_fault case.now.system.now case.now.cells.now hidden.now.flags number asked line.now }
    ensures length { length scratch.new ≡ length scratch.old }
{
    let (cell, side) = asked;
    if !is_for(cell, side, line) {
        return Err(CheckFault::WorldCell(number));
    }
    if let Err(fault) = check_world(case.system, case.cells, hidden, &line.world, scratch) {
        return Err(CheckFault::World(number, fault));
    }
    if !reaches(&case.cells[cell as usize], side, cell, &line.world) {
        return Err(CheckFault::NotReached(cell, side));
    }
    Ok(())
}

// Whether a line is for this cell and side.
fn is_for(cell: u32, side: Side, line: &WorldLine) -> bool
    ensures { result ≡ spec.is_for (cell, side) line.now }
{
    line.cell == cell && is_side(line.side, side)
}

// Whether both sides are one.
fn is_side(one: Side, other: Side) -> bool
    ensures { result ≡ spec.same_side one other }
{
    match one {
        Side::Above => match other {
            Side::Above => true,
            Side::Below => false,
        },
        Side::Below => match other {
            Side::Above => false,
            Side::Below => true,
        },
    }
}
