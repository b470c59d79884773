ghost use Rattle.std.specs.Prelude.{◌≡◌, ◌≢◌, ◌<◌, All, length, IfSome, IfNone};
ghost use Rattle.signed_network.specs.Networks.{Touches};
ghost use Rattle.rounding.specs.Circuits.{IsAlong, start_at};

use signed_network::Arc;

// A step over a cell from one point to another: its number goes up by one along its arc, or down by one against it.
#[derive(Clone, Copy)]
pub(crate) struct Step {
    pub(crate) cell: u32,
    // 1 for up, -1 for down.
    pub(crate) turn: i128,
    pub(crate) start: u32,
    pub(crate) end: u32,
}

// The step over a cell from a point that its arc touches.
pub(crate) fn step_from(start: u32, cell: u32, arc: Arc) -> Step
    requires { Touches arc start }
    ensures cell { result.cell ≡ cell }
    ensures start { result.start ≡ start }
    ensures along { IsAlong arc result }
{
    if arc.from == start {
        Step {
            cell,
            turn: 1,
            start,
            end: arc.to,
        }
    } else {
        Step {
            cell,
            turn: -1,
            start,
            end: arc.from,
        }
    }
}

// Where the first step stands that starts at a point.
pub(crate) fn place_of_start(steps: &[Step], point: u32) -> Option<usize>
    ensures starts_there { IfSome result (λ place. (place < length steps.now) × (start_at steps.now place ≡ point)) }
    ensures none { IfNone result (All (λ step. step.start ≢ point) steps.now) }
{
    'steps: for (place, step) in steps.iter().enumerate() {
        if step.start == point {
            return Some(place);
        }
    }
    None
}
