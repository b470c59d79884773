ghost use Rattle.std.specs.Prelude.{◌≡◌, ◌<◌, length, All, OnOk};
ghost use Rattle.sdc_base.specs.Patterns.{IsPattern};
ghost use Rattle.repair.specs.HidingOrder.{hide_subjects};
ghost use Rattle.cert_check.specs.RepairList as spec;

use crate::faults::CheckFault;
use crate::numbering::number_of;
use sdc_base::{Cell, Hidden, System};
use worlds::{Refuted, check_refutation};

/// Refuses repairs of which one isn't justified, and hides the subjects of the others.
pub(crate) fn check_repairs(
    system: &System,
    cells: &[Cell],
    hidden: &mut Hidden,
    repairs: &[Refuted],
    scratch: &mut [i128],
) -> Result<(), CheckFault>
    requires ground { IsPattern system.now cells.now hidden.old.flags }
    requires scratch { length scratch.old ≡ system.now.cells }
    requires subjects { All (λ repair. repair.subject < system.now.cells) repairs.now }
    requires asked { All (λ repair. repair.cell < system.now.cells) repairs.now }
    ensures exact { result ≡ spec.repairs_fault system.now cells.now hidden.old.flags 0 repairs.now }
    ensures repaired { OnOk result (hidden.new.flags ≡ hide_subjects hidden.old.flags repairs.now) }
    ensures length { length scratch.new ≡ length scratch.old }
{
    for (place, repair) in repairs.iter().enumerate() {
        check_repair(system, cells, hidden, number_of(place), repair, scratch)?;
        hidden.hide(repair.subject);
    }
    Ok(())
}

// Refuses a repair that isn't justified for a set.
fn check_repair(
    system: &System,
    cells: &[Cell],
    hidden: &Hidden,
    number: u32,
    repair: &Refuted,
    scratch: &mut [i128],
) -> Result<(), CheckFault>
    requires ground { IsPattern system.now cells.now hidden.now.flags }
    requires scratch { length scratch.old ≡ system.now.cells }
    requires subject { repair.now.subject < system.now.cells }
    requires asked { repair.now.cell < system.now.cells }
    ensures exact { result ≡ spec.repair_fault system.now cells.now hidden.now.flags number repair.now }
    ensures length { length scratch.new ≡ length scratch.old }
{
    if !may_repair(cells, hidden.flags.as_slice(), repair.subject) {
        return Err(CheckFault::RepairCell(number));
    }
    if let Err(fault) = check_refutation(
        system,
        cells,
        hidden,
        repair.cell,
        repair.side,
        &repair.multipliers,
        scratch,
    ) {
        return Err(CheckFault::Repair(number, fault));
    }
    if scratch[repair.subject as usize] == 0 {
        return Err(CheckFault::RepairCell(number));
    }
    Ok(())
}

// Whether a cell is free, and shown.
fn may_repair(cells: &[Cell], flags: &[bool], number: u32) -> bool
    requires cells { number < length cells.now }
    requires flags { number < length flags.now }
    ensures { result ≡ spec.may_repair cells.now flags.now number }
{
    cells[number as usize].kind.is_free() && !flags[number as usize]
}
