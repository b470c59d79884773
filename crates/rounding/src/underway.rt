ghost use Rattle.std.specs.Prelude.{◌≡◌, ◌⊎◌, ◌<◌, ◌≤◌, ◌^◌, ◌≤ℤ◌, ◌*ℤ◌, ℕ, List, All, pos, negsuc, length};
ghost use Rattle.sdc_base.specs.Forms.{coefficient};
ghost use Rattle.sdc_base.specs.Systems.{number_at};
ghost use Rattle.signed_network.specs.declared.arcs.Arc.{Arc as AnyArc};
ghost use Rattle.rounding.specs.Neighbours as spec;
ghost use Rattle.rounding.specs.Choices.{unrounded_cells};
ghost use Rattle.signed_network.specs.Balances.{IsBalanced, numbers_after_turns};
ghost use Rattle.rounding.specs.Rings.{AreBeside, KeepMultiples};
ghost use Rattle.rounding.specs.Circuits.{AreMoves, IsMove, IsWalk, room_of, step_at, turns_of};

use crate::neighbours::{is_multiple, room};
use crate::steps::Step;

// Truths, and the base to which they are rounded.
#[derive(Clone, Copy)]
pub(crate) struct Task<'a> {
    // For the proof: what the numbers of the cells are to be near.
    pub(crate) truths: &'a [i128],
    pub(crate) base: i128,
}

// Whether the number of a cell is a multiple of the base.
pub(crate) fn is_whole(task: &Task<'_>, numbers: &[i128], cell: u32) -> bool
    requires beside { AreBeside task.now.truths.now task.now.base numbers.now }
    requires cell { cell < length numbers.now }
    ensures { result ≡ spec.is_multiple task.now.base (number_at numbers.now cell) }
{
    is_multiple(task.base, numbers[cell as usize])
}

// Goes round: moves the cells of these steps together, as far as the first of them comes to a multiple.
pub(crate) fn go_round(task: &Task<'_>, numbers: &mut [i128], steps: &[Step])
    requires beside { AreBeside task.now.truths.now task.now.base numbers.old }
    requires moves { AreMoves task.now.base numbers.old steps.now }
    requires at_least_one_step { 1 ≤ length steps.now }
    requires at_most_2_32 { length steps.now ≤ 2 ^ 32 }
    ensures beside { AreBeside task.now.truths.now task.now.base numbers.new }
    ensures balanced { (arcs : List AnyArc) (points point : ℕ) → IsWalk arcs point steps.now point
        → IsBalanced arcs points (number_at numbers.old) → IsBalanced arcs points (number_at numbers.new) }
    ensures multiples { KeepMultiples task.now.base numbers.old numbers.new }
    ensures fewer { length (unrounded_cells task.now.base 0 numbers.new)
        < length (unrounded_cells task.now.base 0 numbers.old) }
{
    let tightest = tightest(task, numbers, steps);
    let by = room_for(task, numbers, steps[tightest]);
    move_cells(numbers, steps, by);
}

// The place of the step whose cell has the least room.
fn tightest(task: &Task<'_>, numbers: &[i128], steps: &[Step]) -> usize
    requires beside { AreBeside task.now.truths.now task.now.base numbers.now }
    requires moves { All (IsMove task.now.base numbers.now) steps.now }
    requires at_least_one_step { 1 ≤ length steps.now }
    ensures place { result < length steps.now }
    ensures least { All (λ step. room_of task.now.base numbers.now (step_at steps.now result)
        ≤ℤ room_of task.now.base numbers.now step) steps.now }
{
    let mut least = 0;
    'places: for place in 0..steps.len() {
        least = tighter(task, numbers, steps, least, place);
    }
    least
}

// Of two places the one of the step whose cell has less room.
fn tighter(task: &Task<'_>, numbers: &[i128], steps: &[Step], one: usize, other: usize) -> usize
    requires beside { AreBeside task.now.truths.now task.now.base numbers.now }
    requires moves { All (IsMove task.now.base numbers.now) steps.now }
    requires places { (one < length steps.now) × (other < length steps.now) }
    ensures inside { result < length steps.now }
    ensures one { room_of task.now.base numbers.now (step_at steps.now result)
        ≤ℤ room_of task.now.base numbers.now (step_at steps.now one) }
    ensures other { room_of task.now.base numbers.now (step_at steps.now result)
        ≤ℤ room_of task.now.base numbers.now (step_at steps.now other) }
{
    if room_for(task, numbers, steps[other]) < room_for(task, numbers, steps[one]) {
        other
    } else {
        one
    }
}

// How far the cell of a step can go to its next multiple.
fn room_for(task: &Task<'_>, numbers: &[i128], step: Step) -> i128
    requires beside { AreBeside task.now.truths.now task.now.base numbers.now }
    requires moves { IsMove task.now.base numbers.now step }
    ensures value { result ≡ room_of task.now.base numbers.now step }
    ensures low { pos 0 ≤ℤ result }
    ensures high { result ≤ℤ pos (10 ^ 22) }
{
    room(task.base, numbers[step.cell as usize], step.turn)
}

// Moves the cells of steps by so much, each its way.
fn move_cells(numbers: &mut [i128], steps: &[Step], by: i128)
    requires each { All (λ step. (step.cell < length numbers.old) × ((step.turn ≡ pos 1) ⊎ (step.turn ≡ negsuc 0)))
        steps.now }
    requires at_most_2_32 { length steps.now ≤ 2 ^ 32 }
    requires by { (pos 0 ≤ℤ by) × (by ≤ℤ pos (10 ^ 22)) }
    requires numbers { (cell : ℕ) → (pos 0 ≤ℤ number_at numbers.old cell)
        × (number_at numbers.old cell ≤ℤ pos (2 ^ 100)) }
    ensures { (cell : ℕ) → number_at numbers.new cell
        ≡ numbers_after_turns by (number_at numbers.old) (coefficient (turns_of steps.now)) cell }
{
    'steps: for step in steps {
        numbers[step.cell as usize] += turn_after(step.turn, by);
    }
}

// So much up or down.
fn turn_after(turn: i128, by: i128) -> i128
    requires turn { (turn ≡ pos 1) ⊎ (turn ≡ negsuc 0) }
    requires by { (pos 0 ≤ℤ by) × (by ≤ℤ pos (10 ^ 22)) }
    ensures { result ≡ by *ℤ turn }
{
    by * turn
}
