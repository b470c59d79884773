ghost use Rattle.std.specs.Prelude.{◌≡◌, ◌≢◌, ◌<◌, ◌^◌, ◌≤ℤ◌, ◌<ℤ◌, ◌+ℤ◌, ◌*ℤ◌, ℕ, All, FitsSigned, length, pos, true};
ghost use Rattle.std.specs.Int.{w128};
ghost use Rattle.std.specs.List.{AllPairs};
ghost use Rattle.sdc_base.specs.Forms.{coefficient};
ghost use Rattle.sdc_base.specs.Signs.{number_with_sign};
ghost use Rattle.sdc_base.specs.Systems.{number_at};
ghost use Rattle.flow_worlds.specs.declared.steps.Step.{Step as AnyStep};
ghost use Rattle.flow_worlds.specs.Steps.{turn_of, turns_of};
ghost use Rattle.signed_network.specs.Balances.{numbers_after_turns};
ghost use Rattle.flow_worlds.specs.Flows.{IsFlow, IsFlowOf};
ghost use Rattle.flow_worlds.specs.Searches.{IsOpenStep};
ghost use Rattle.flow_worlds.specs.Circuits.{CanGo, IsCircuit};
ghost use Rattle.flow_worlds.specs.Tasks.{IsTask};

use crate::rooms::room_of;
use crate::steps::Step;
use crate::task::Task;

// Goes round: moves the cells of steps together, as far as the first of them can go, and until the asked one comes to
// the target. It gives how far the asked cell has then moved in all.
pub(crate) fn go_round(
    task: &Task<'_>,
    moves: &mut [i128],
    steps: &[Step],
    amount: i128,
    target: i128,
) -> i128
    requires task { IsTask task.now }
    requires flow { IsFlowOf task.now amount moves.old }
    requires circuit { IsCircuit task.now moves.old steps.now }
    requires from_zero { pos 0 ≤ℤ amount }
    requires below { amount <ℤ target }
    requires to_2_110 { target ≤ℤ pos (2 ^ 110) }
    ensures more { amount <ℤ result }
    ensures at_most { result ≤ℤ target }
    ensures flow { IsFlowOf task.now result moves.new }
{
    let by = least_room(task, moves, steps, target - amount);
    move_cells(moves, steps, by);
    amount + by
}

// How far the cells of all steps can go, but no further than this.
fn least_room(task: &Task<'_>, moves: &[i128], steps: &[Step], most: i128) -> i128
    requires task { IsTask task.now }
    requires flow { IsFlow task.now moves.now }
    requires steps { All (λ step. IsOpenStep task.now moves.now true step) steps.now }
    requires from_one { pos 1 ≤ℤ most }
    requires to_2_110 { most ≤ℤ pos (2 ^ 110) }
    ensures from_one { pos 1 ≤ℤ result }
    ensures at_most { result ≤ℤ most }
    ensures each { All (CanGo task.now.cells.now moves.now result) steps.now }
{
    let mut least = most;
    'steps: for step in steps {
        let cell = step.cell as usize;
        least = room_of(&task.cells[cell], step.up, moves[cell], least);
    }
    least
}

// Moves the cells of steps by so much, each its way.
fn move_cells(moves: &mut [i128], steps: &[Step], by: i128)
    requires known { All (λ step. step.cell < length moves.old) steps.now }
    requires apart { AllPairs (λ (one other : AnyStep). one.cell ≢ other.cell) steps.now }
    requires fits { All (λ step. FitsSigned w128 (number_at moves.old step.cell +ℤ by *ℤ turn_of step)) steps.now }
    ensures { (cell : ℕ) → number_at moves.new cell
        ≡ numbers_after_turns by (number_at moves.old) (coefficient (turns_of steps.now)) cell }
{
    'steps: for step in steps {
        let cell = step.cell as usize;
        let moved = moved_by(moves[cell], step.up, by);
        moves[cell] = moved;
    }
}

// A move, so much further up or down.
fn moved_by(moved: i128, up: bool, by: i128) -> i128
    requires { FitsSigned w128 (moved +ℤ by *ℤ number_with_sign up (pos 1)) }
    ensures { result ≡ moved +ℤ by *ℤ number_with_sign up (pos 1) }
{
    if up { moved + by } else { moved - by }
}
