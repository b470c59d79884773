ghost use Rattle.std.specs.Prelude.{◌≡◌, ◌++◌, ◌∷◌, [], if◌then◌else◌, length, IfOk, OnOk};
ghost use Rattle.attackers.specs.Dropping.{cells_beside, is_beside};
ghost use Rattle.repair.specs.HidingOrder.{protected_case};
ghost use Rattle.contributor_protection.specs.ShownAgain as spec;

use certificate::Certificate;
use repair::hide_subjects;
use sdc_base::{Cell, Hidden, Items, Memory, System, is_hidden};
use std::alloc::Global;

/// The cells that were hidden on the way to a certificate and aren't of its hidden set, ascending.
pub(crate) fn shown_again(
    alloc: Global,
    system: &System,
    cells: &[Cell],
    certificate: &Certificate,
    hidden: &Hidden,
) -> Result<Items<u32>, Memory>
    requires { length cells.now ≡ system.now.cells }
    ensures { IfOk result (λ shown. shown
        ≡ spec.shown_again (protected_case system.now cells.now) certificate.now hidden.now.flags) }
{
    let mut all = Hidden::of_primary(alloc, cells)?;
    all.hide_corners(certificate.steps.as_slice());
    hide_subjects(&mut all, certificate.repairs.as_slice());
    list_beside(
        alloc,
        system.cells,
        hidden.flags.as_slice(),
        all.flags.as_slice(),
    )
}

// The cells among so many that are hidden in the larger set alone, ascending.
fn list_beside(
    alloc: Global,
    count: u32,
    first: &[bool],
    larger: &[bool],
) -> Result<Items<u32>, Memory>
    ensures { IfOk result (λ cells. cells ≡ cells_beside first.now larger.now count) }
{
    let mut found = Items::empty(alloc);
    'cells: for cell in 0..count {
        add_beside(&mut found, first, larger, cell)?;
    }
    Ok(found)
}

// Adds a cell, where it is hidden in the larger set alone.
fn add_beside(
    found: &mut Items<u32>,
    first: &[bool],
    larger: &[bool],
    cell: u32,
) -> Result<(), Memory>
    ensures { OnOk result (found.new ≡
        (if is_beside first.now larger.now cell then found.old ++ cell ∷ [] else found.old)) }
{
    let place = cell as usize;
    if is_hidden(larger, place) && !is_hidden(first, place) {
        found.push(cell)?;
    }
    Ok(())
}
