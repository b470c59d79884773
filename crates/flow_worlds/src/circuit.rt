ghost use Rattle.std.specs.Prelude.{◌≡◌, ◌≢◌, ◌<◌, ◌≤◌, ℕ, List, All, length, true, IfOk};
ghost use Rattle.std.specs.List.{AllPairs};
ghost use Rattle.signed_network.specs.declared.arcs.Arc.{Arc as AnyArc};
ghost use Rattle.flow_worlds.specs.declared.steps.Step.{Step as AnyStep};
ghost use Rattle.flow_worlds.specs.Searches.{AreVisits, IsSearchOf, is_reached, visited};
ghost use Rattle.flow_worlds.specs.Circuits.{AreAlong, Carries, IsCircuit, IsVisited, step_at};
ghost use Rattle.flow_worlds.specs.Tasks.{IsTask};

use crate::search::{Search, Visit};
use crate::steps::Step;
use crate::task::Task;
use sdc_base::Memory;
use std::alloc::Global;

// The steps that a search has gone round by.
pub(crate) fn circuit_of(
    alloc: Global,
    task: &Task<'_>,
    moves: &[i128],
    search: &Search,
) -> Result<Vec<Step>, Memory>
    requires task { IsTask task.now }
    requires search { IsSearchOf task.now moves.now true task.now.asked search.now }
    requires round { is_reached search.now.reached.items task.now.asked.start ≡ true }
    ensures { IfOk result (λ steps. IsCircuit task.now moves.now steps.items) }
{
    let visits = search.visits.as_slice();
    let place = place_of_end(visits, task.asked.start);
    let steps = steps_to(alloc, visits, place)?;
    Ok(steps)
}

// The steps that lead to the step at a place, from that one back to the first.
fn steps_to(alloc: Global, visits: &[Visit], place: usize) -> Result<Vec<Step>, Memory>
    requires visits { AreVisits visits.now }
    requires place { place < length visits.now }
    ensures each { IfOk result (λ steps. All (IsVisited visits.now) steps.items) }
    ensures apart { IfOk result (λ steps. AllPairs (λ (one other : AnyStep). one.cell ≢ other.cell) steps.items) }
    ensures first { IfOk result (λ steps. (k : ℕ) × (k < length steps.items) × (step_at steps.items k ≡ visited visits.now 0)) }
    ensures carries { IfOk result (λ steps. (arcs : List AnyArc) → AreAlong arcs visits.now
        → Carries arcs steps.items (visited visits.now 0).start (visited visits.now place).end) }
{
    let mut steps = Vec::new(alloc);
    let mut at = place;
    'steps: while at > 0 {
        let visit = visits[at];
        steps.push(visit.step)?;
        at = visit.before;
    }
    steps.push(visits[0].step)?;
    Ok(steps)
}

// The place of a step that ends at a point, the last one.
fn place_of_end(visits: &[Visit], point: u32) -> usize
    requires { (k : ℕ) × (k < length visits.now) × ((visited visits.now k).end ≡ point) }
    ensures within { result < length visits.now }
    ensures ends_there { (visited visits.now result).end ≡ point }
{
    let mut place = visits.len() - 1;
    'places: while visits[place].step.end != point {
        place -= 1;
    }
    place
}
