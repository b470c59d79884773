ghost use Rattle.std.specs.Prelude.{◌≡◌, ◌^◌, ◌≤ℤ◌, pos, true, IfOk, length};
ghost use Rattle.sdc_base.specs.Patterns.{IsPattern};
ghost use Rattle.sdc_base.specs.HiddenSets.{is_hidden};
ghost use Rattle.sdc_base.specs.Signs.{AreSigns};
ghost use Rattle.flow_worlds.specs.Flows.{IsFlow, IsFlowOf};
ghost use Rattle.flow_worlds.specs.FlowAnswers.{IsFlowAnswer, IsAnswerFor};
ghost use Rattle.flow_worlds.specs.Finds.{IsFound};
ghost use Rattle.flow_worlds.specs.Tasks.{IsTask};

use crate::answer::FlowAnswer;
use crate::circuit::circuit_of;
use crate::cut::{cut_of, no_multipliers};
use crate::going::go_round;
use crate::search::{is_open, search_from};
use crate::steps::{Step, is_up, step_of};
use crate::task::Task;
use crate::whole_world::world_of;
use sdc_base::{Cell, Hidden, Memory, Side, System};
use signed_network::network_of;
use std::alloc::Global;
use worlds::Multipliers;

/// How far a hidden cell can go in whole worlds to a side, up to a target, where the system has signs: hidden cells are
/// arcs between relations and one outside point, and what can go round through the asked cell's arc is how far it can go.
///
/// There are a cell and a flag for each cell of the system, the asked cell is hidden, the signs are signs for the
/// system's relations ([`sdc_base::signs`]), and the target is in units, from 0 to 2^110.
///
/// `Reaches` has a world over the denominator 1 in which the cell lies exactly at the target. `Stops` comes where no
/// world of any denominator takes it so far: it has the best value, a world over the denominator 1 that attains it, and
/// multipliers over the denominator 1, each 1 or -1, whose bound sum is that value. They belong to the relations that
/// the last search reached.
///
/// Its one refusal is want of memory. It looks once at each part of each relation and at each cell, and then for each
/// circuit that it goes round at the hidden cells at the points that a search reaches, breadth first, so that its
/// circuits are shortest ones. Each circuit raises the amount by at least a unit.
///
/// The question is that of the feasibility interval in Hundepool et al., Statistical Disclosure Control, chapter on
/// magnitude tables; augmenting along shortest paths is the rule of network flows.
pub fn flow(
    alloc: Global,
    system: &System,
    cells: &[Cell],
    hidden: &Hidden,
    signs: &[bool],
    cell: u32,
    side: Side,
    target: i128,
) -> Result<FlowAnswer, Memory>
    requires ground { IsPattern system.now cells.now hidden.now.flags }
    requires hidden { is_hidden hidden.now.flags cell ≡ true }
    requires signs { AreSigns system.now.relations signs.now }
    requires from_zero { pos 0 ≤ℤ target }
    requires to_2_110 { target ≤ℤ pos (2 ^ 110) }
    ensures { IfOk result (λ answer. IsFlowAnswer system.now cells.now hidden.now.flags cell side target answer) }
{
    let flags = hidden.flags.as_slice();
    let network = network_of(alloc, system, signs, flags)?;
    let task = Task {
        system,
        cells,
        flags,
        signs,
        arcs: network.arcs.as_slice(),
        touching: network.touching.as_slice(),
        asked: step_of(cell, network.arcs[cell as usize], is_up(side)),
    };
    raise(alloc, &task, target)
}

// What there is to do next: steps to go round, or multipliers that show that there are none.
#[derive(Drop)]
pub(crate) enum Found {
    Circuit(Vec<Step>),
    Cut(Multipliers),
}

// Raises the asked cell's move to its side from 0, up to the target.
fn raise(alloc: Global, task: &Task<'_>, target: i128) -> Result<FlowAnswer, Memory>
    requires task { IsTask task.now }
    requires from_zero { pos 0 ≤ℤ target }
    requires to_2_110 { target ≤ℤ pos (2 ^ 110) }
    ensures { IfOk result (λ answer. IsAnswerFor task.now target answer) }
{
    let mut moves = Vec::from_elem(alloc, 0, task.cells.len())?;
    raise_moves(alloc, task, moves.as_mut_slice(), target)
}

// Goes round until the asked cell's move comes to the target, or there is a cut.
fn raise_moves(
    alloc: Global,
    task: &Task<'_>,
    moves: &mut [i128],
    target: i128,
) -> Result<FlowAnswer, Memory>
    requires task { IsTask task.now }
    requires flow { IsFlowOf task.now (pos 0) moves.old }
    requires from_zero { pos 0 ≤ℤ target }
    requires to_2_110 { target ≤ℤ pos (2 ^ 110) }
    ensures { IfOk result (λ answer. IsAnswerFor task.now target answer) }
{
    let mut amount = 0;
    'rounds: while amount < target {
        let found = find(alloc, task, moves)?;
        match found {
            Found::Circuit(steps) => {
                amount = go_round(task, moves, steps.as_slice(), amount, target);
            }
            Found::Cut(multipliers) => {
                let world = world_of(alloc, moves)?;
                return Ok(FlowAnswer::Stops {
                    best: amount,
                    world,
                    multipliers,
                });
            }
        }
    }
    let world = world_of(alloc, moves)?;
    Ok(FlowAnswer::Reaches(world))
}

// Steps to go round through the asked cell, or multipliers that show that there are none.
fn find(alloc: Global, task: &Task<'_>, moves: &[i128]) -> Result<Found, Memory>
    requires task { IsTask task.now }
    requires flow { IsFlow task.now moves.now }
    ensures { IfOk result (λ found. IsFound task.now moves.now found) }
{
    let asked = task.asked;
    if !is_open(task, moves, true, asked) {
        return Ok(Found::Cut(no_multipliers(alloc)));
    }
    let search = search_from(alloc, task, moves, true, asked)?;
    if search.reached[asked.start as usize] {
        let steps = circuit_of(alloc, task, moves, &search)?;
        return Ok(Found::Circuit(steps));
    }
    let multipliers = cut_of(alloc, task, moves, &search)?;
    Ok(Found::Cut(multipliers))
}
