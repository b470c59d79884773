ghost use Rattle.std.specs.Prelude.{◌≡◌, ◌<◌, ◌^◌, length, IfOk};
ghost use Rattle.cert_check.specs.HiddenSet as spec;

use crate::faults::CheckFault;
use sdc_base::{Cell, Hidden, Memory};
use std::alloc::Global;
use worlds::{hidden_fixed, shown_primary};

/// The set in which exactly these cells are hidden.
pub(crate) fn hidden_set(alloc: Global, cells: u32, numbers: &[u32]) -> Result<Hidden, Memory>
    ensures { IfOk result (λ hidden. hidden.flags ≡ spec.hidden_set cells numbers.now) }
{
    let mut hidden = Hidden::of_none(alloc, cells)?;
    hidden.hide_all(numbers);
    Ok(hidden)
}

/// Refuses a hidden set in which a primary cell is shown or a fixed one hidden.
pub(crate) fn check_permitted(cells: &[Cell], flags: &[bool]) -> Result<(), CheckFault>
    requires flags { length flags.now ≡ length cells.now }
    requires fewer_than_2_32 { length cells.now < 2 ^ 32 }
    ensures { result ≡ spec.permitted_fault cells.now flags.now }
{
    if let Some(number) = shown_primary(cells, flags) {
        return Err(CheckFault::PrimaryShown(number));
    }
    if let Some(number) = hidden_fixed(cells, flags) {
        return Err(CheckFault::FixedHidden(number));
    }
    Ok(())
}
