ghost use Rattle.std.specs.Prelude.{◌≡◌, false, slice_get};
ghost use Rattle.std.specs.Option.{option_map_or};
ghost use Rattle.cert_check.specs.FirstDifference as spec;
ghost use Rattle.cert_check.specs.TrailSteps.{same_step, steps_fault};

use crate::faults::CheckFault;
use crate::numbering::number_of;
use sdc_base::PlanStep;

/// Refuses steps that aren't those of the trail.
pub(crate) fn check_steps(trail: &[PlanStep], steps: &[PlanStep]) -> Result<(), CheckFault>
    ensures { result ≡ steps_fault trail.now steps.now }
{
    match first_difference(steps, trail) {
        Some(place) => Err(CheckFault::Step(number_of(place))),
        None => Ok(()),
    }
}

// The first place in which steps differ.
fn first_difference(steps: &[PlanStep], trail: &[PlanStep]) -> Option<usize>
    ensures { result ≡ spec.first_difference same_step 0 steps.now trail.now }
{
    for (place, step) in steps.iter().enumerate() {
        if !stands_at(trail, place, step) {
            return Some(place);
        }
    }
    if steps.len() < trail.len() {
        return Some(steps.len());
    }
    None
}

// Whether this step stands at a place.
fn stands_at(trail: &[PlanStep], place: usize, step: &PlanStep) -> bool
    ensures { result ≡ option_map_or (same_step step.now) (slice_get trail.now place) false }
{
    match trail.get(place) {
        Some(other) => is_same(step, other),
        None => false,
    }
}

// Whether both steps are one.
fn is_same(one: &PlanStep, other: &PlanStep) -> bool
    ensures { result ≡ same_step one.now other.now }
{
    one.table == other.table
        && one.cell == other.cell
        && are_same(one.parents.as_slice(), other.parents.as_slice())
        && are_same(one.corners.as_slice(), other.corners.as_slice())
}

// Whether both lists have the same numbers.
fn are_same(one: &[u32], other: &[u32]) -> bool
    ensures { result ≡ spec.same_numbers one.now other.now }
{
    one == other
}
