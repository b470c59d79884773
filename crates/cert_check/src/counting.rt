ghost use Rattle.std.specs.Prelude.{◌≡◌};
ghost use Rattle.std.specs.List.{list_all};
ghost use Rattle.cert_check.specs.Counts as spec;

use crate::faults::CheckFault;
use certificate::{Certificate, WorldLine};
use sdc_base::System;
use worlds::Refuted;

/// Refuses a certificate whose counts are others, or a number of which names no cell.
pub(crate) fn check_counts(system: &System, certificate: &Certificate) -> Result<(), CheckFault>
    ensures { result ≡ spec.counts_fault system.now certificate.now }
{
    if !counts_fit(system, certificate) {
        return Err(CheckFault::Counts);
    }
    Ok(())
}

// Whether the counts are the system's, and each number names a cell.
fn counts_fit(system: &System, certificate: &Certificate) -> bool
    ensures { result ≡ spec.counts_fit system.now certificate.now }
{
    let cells = system.cells;
    certificate.cells == cells
        && certificate.relations as usize == system.relations.as_slice().len()
        && are_cells(certificate.hidden.as_slice(), cells)
        && name_cells(certificate.repairs.as_slice(), cells)
        && name_cells(certificate.needs.as_slice(), cells)
        && stand_for_cells(certificate.worlds.as_slice(), cells)
}

// Whether all numbers are of cells.
fn are_cells(numbers: &[u32], cells: u32) -> bool
    ensures { result ≡ list_all (spec.is_cell_number cells) numbers.now }
{
    numbers.iter().all(|number| *number < cells)
}

// Whether all subjects and cells are cells.
fn name_cells(refuted: &[Refuted], cells: u32) -> bool
    ensures { result ≡ list_all (spec.names_cells cells) refuted.now }
{
    refuted
        .iter()
        .all(|one| one.subject < cells && one.cell < cells)
}

// Whether all lines are for cells.
fn stand_for_cells(lines: &[WorldLine], cells: u32) -> bool
    ensures { result ≡ list_all (spec.stands_for_cell cells) lines.now }
{
    lines.iter().all(|line| line.cell < cells)
}
