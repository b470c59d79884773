ghost use Rattle.std.specs.Prelude.{◌≡◌, IfOk};
ghost use Rattle.sdc_base.specs.Trails.{corners_of};
ghost use Rattle.repair.specs.HidingOrder as spec;
ghost use Rattle.repair.specs.HidingOrder.{planned_set};

use sdc_base::{Cell, Hidden, Memory, PlanStep};
use std::alloc::Global;
use worlds::Refuted;

/// The hidden set of a plan, with which repairing begins: the primary cells and the corners of the steps, of which a
/// number of no cell hides nothing. Its one refusal is want of memory, and it takes one look at each. That a plan hides
/// the primary cells and the corners is the handbook's hypercube method.
pub fn planned_hidden(alloc: Global, cells: &[Cell], steps: &[PlanStep]) -> Result<Hidden, Memory>
    ensures { IfOk result (λ hidden. hidden.flags ≡ planned_set cells.now (corners_of steps.now)) }
{
    let mut hidden = Hidden::of_primary(alloc, cells)?;
    hidden.hide_corners(steps);
    Ok(hidden)
}

/// Hides the subjects of repairs; a number of no cell hides nothing. Nothing is refused. The rule is argus's own.
pub fn hide_subjects(hidden: &mut Hidden, repairs: &[Refuted])
    ensures { hidden.new.flags ≡ spec.hide_subjects hidden.old.flags repairs.now }
{
    for repair in repairs {
        hidden.hide(repair.subject);
    }
}
