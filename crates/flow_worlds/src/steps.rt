ghost use Rattle.std.specs.Prelude.{◌≡◌};
ghost use Rattle.flow_worlds.specs.Steps as spec;

use sdc_base::Side;
use signed_network::Arc;

// A step over a cell from one point to another: the cell goes up along its arc, or down against it.
#[derive(Clone, Copy)]
pub(crate) struct Step {
    pub(crate) cell: u32,
    pub(crate) up: bool,
    pub(crate) start: u32,
    pub(crate) end: u32,
}

// The step over a cell, up or down.
pub(crate) fn step_of(cell: u32, arc: Arc, up: bool) -> Step
    ensures { result ≡ spec.step_of cell arc up }
{
    if up {
        Step {
            cell,
            up,
            start: arc.from,
            end: arc.to,
        }
    } else {
        Step {
            cell,
            up,
            start: arc.to,
            end: arc.from,
        }
    }
}

// The step over a cell from a point that its arc touches.
pub(crate) fn step_from(point: u32, cell: u32, arc: Arc) -> Step
    ensures { result ≡ spec.step_from point cell arc }
{
    step_of(cell, arc, arc.from == point)
}

// Whether a cell that moves to a side goes up.
pub(crate) fn is_up(side: Side) -> bool
    ensures { result ≡ spec.is_up side }
{
    match side {
        Side::Above => true,
        Side::Below => false,
    }
}
