ghost use Rattle.std.specs.Prelude.{◌≡◌, ◌≢◌, ◌⊎◌, ◌<◌, ◌≤◌, All, true, false, length, drop, take, IfOk, IfSome, IfNone};
ghost use Rattle.std.specs.List.{Contains};
ghost use Rattle.std.specs.List.Sorted.{IsNonDecreasing};
ghost use Rattle.sdc_base.specs.Systems.{number_at};
ghost use Rattle.rounding.specs.Neighbours as spec;
ghost use Rattle.signed_network.specs.Arcs.{arc_at};
ghost use Rattle.rounding.specs.Rings.{AreBeside, AreWholeBelow, IsBalancedBeside};
ghost use Rattle.rounding.specs.Circuits.{IsMove, IsAlong, GoesRound};

use crate::steps::{Step, place_of_start, step_from};
use crate::underway::{Task, is_whole};
use sdc_base::Memory;
use signed_network::Network;
use std::alloc::Global;

// A walk over cells that aren't multiples, which goes round from one of its steps on.
#[derive(Drop)]
pub(crate) struct Walk {
    pub(crate) steps: Vec<Step>,
    pub(crate) place: usize,
}

// The steps that go round.
pub(crate) fn circuit(walk: &Walk) -> &[Step]
    requires { walk.now.place ≤ length walk.now.steps.items }
    ensures { result.now ≡ drop walk.now.place walk.now.steps.items }
{
    &walk.steps[walk.place..]
}

// Walks from the first cell that isn't a multiple over others, until a point is met again.
pub(crate) fn walk_from(
    alloc: Global,
    network: &Network,
    task: &Task<'_>,
    numbers: &[i128],
    cell: u32,
) -> Result<Walk, Memory>
    requires balanced { IsBalancedBeside network.now.arcs.items network.now.touching.items task.now.truths.now
        task.now.base numbers.now }
    requires cell { cell < length numbers.now }
    requires first { AreWholeBelow task.now.base numbers.now cell }
    requires partly { spec.is_multiple task.now.base (number_at numbers.now cell) ≡ false }
    ensures { IfOk result (λ walk. GoesRound network.now.arcs.items task.now.base numbers.now walk.steps.items
        walk.place) }
{
    let mut steps = Vec::new(alloc);
    let arc = network.arcs[cell as usize];
    let mut step = step_from(arc.from, cell, arc);
    'steps: loop {
        steps.push(step)?;
        if let Some(place) = place_of_start(steps.as_slice(), step.end) {
            return Ok(Walk { steps, place });
        }
        step = next_step(network, task, numbers, cell, step);
    }
}

// The step behind one that ends at another point than it starts from: over another cell that isn't a multiple.
fn next_step(network: &Network, task: &Task<'_>, numbers: &[i128], first: u32, step: Step) -> Step
    requires balanced { IsBalancedBeside network.now.arcs.items network.now.touching.items task.now.truths.now
        task.now.base numbers.now }
    requires first { AreWholeBelow task.now.base numbers.now first }
    requires moves { IsMove task.now.base numbers.now step }
    requires along { IsAlong (arc_at network.now.arcs.items step.cell) step }
    requires apart { step.start ≢ step.end }
    ensures start { result.start ≡ step.end }
    ensures other { result.cell ≢ step.cell }
    ensures moves { IsMove task.now.base numbers.now result }
    ensures along { IsAlong (arc_at network.now.arcs.items result.cell) result }
{
    let cells = network.touching[step.end as usize].as_slice();
    let left = cells_behind(cells, place_from(cells, first));
    let Some(cell) = other_cell(task, numbers, left, step.cell) else {
        // For the proof: what comes in here goes out, and multiples alone don't make up for one that is none.
        unreachable!()
    };
    step_from(step.end, cell, network.arcs[cell as usize])
}

// Another cell among these that isn't a multiple.
fn other_cell(task: &Task<'_>, numbers: &[i128], cells: &[u32], last: u32) -> Option<u32>
    requires beside { AreBeside task.now.truths.now task.now.base numbers.now }
    requires within { All (λ cell. cell < length numbers.now) cells.now }
    ensures another_cell { IfSome result (λ cell. Contains cells.now cell × (cell ≢ last)
        × (spec.is_multiple task.now.base (number_at numbers.now cell) ≡ false)) }
    ensures none { IfNone result (All (λ cell. (cell ≡ last)
        ⊎ (spec.is_multiple task.now.base (number_at numbers.now cell) ≡ true)) cells.now) }
{
    'cells: for cell in cells {
        if *cell == last {
            continue;
        }
        if is_whole(task, numbers, *cell) {
            continue;
        }
        return Some(*cell);
    }
    None
}

// The cells from a place on.
fn cells_behind(cells: &[u32], place: usize) -> &[u32]
    requires { place ≤ length cells.now }
    ensures { result.now ≡ drop place cells.now }
{
    &cells[place..]
}

// A place in ascending numbers before which all are below this one, found by halving.
fn place_from(cells: &[u32], first: u32) -> usize
    requires { IsNonDecreasing cells.now }
    ensures within { result ≤ length cells.now }
    ensures below { All (λ cell. cell < first) (take result cells.now) }
{
    let mut low = 0;
    let mut high = cells.len();
    'halves: while low < high {
        let middle = low + (high - low) / 2;
        if cells[middle] < first {
            low = middle + 1;
            continue;
        }
        high = middle;
    }
    low
}
