ghost use Rattle.std.specs.Prelude.{◌≡◌, ◌<◌, ℕ, length, true, false, IfOk, OnOk};
ghost use Rattle.flow_worlds.specs.Steps as steps_specs;
ghost use Rattle.flow_worlds.specs.Searches as spec;
ghost use Rattle.flow_worlds.specs.Searches.{IsHiddenCellAt, IsOpenStep, IsSearchOf, IsGone, Grows, StaysAt, StaysOver, first_step, is_reached, visited};
ghost use Rattle.flow_worlds.specs.Tasks.{IsTask};

use crate::rooms::has_room;
use crate::steps::{Step, step_from};
use crate::task::Task;
use sdc_base::Memory;
use signed_network::is_same;
use std::alloc::Global;

// A step that a search has gone, and the place of the one before it.
#[derive(Clone, Copy)]
pub(crate) struct Visit {
    pub(crate) step: Step,
    pub(crate) before: usize,
}

// The steps that a search has gone, and the points that it has reached.
#[derive(Drop)]
pub(crate) struct Search {
    pub(crate) visits: Vec<Visit>,
    pub(crate) reached: Vec<bool>,
}

// Searches breadth first over open steps, from the end of a step until its start is reached, or there is no step more.
// Forward it goes where the cells can move as the steps go, and backward where they can move the other way.
pub(crate) fn search_from(
    alloc: Global,
    task: &Task<'_>,
    moves: &[i128],
    forward: bool,
    first: Step,
) -> Result<Search, Memory>
    requires task { IsTask task.now }
    requires each { length moves.now ≡ length task.now.cells.now }
    requires first { IsOpenStep task.now moves.now forward first }
    requires asked { first.cell ≡ task.now.asked.cell }
    ensures search { IfOk result (λ search. IsSearchOf task.now moves.now forward first search) }
    ensures gone { IfOk result (λ search. is_reached search.reached.items first.start ≡ false
        → IsGone task.now moves.now forward search) }
{
    let mut search = begin(alloc, task, moves, forward, first)?;
    let mut place = 0;
    'places: while place < search.visits.len() {
        if search.reached[first.start as usize] {
            return Ok(search);
        }
        go_on(task, moves, forward, &mut search, place)?;
        place += 1;
    }
    Ok(search)
}

// A search that has gone its first step alone.
fn begin(
    alloc: Global,
    task: &Task<'_>,
    moves: &[i128],
    forward: bool,
    first: Step,
) -> Result<Search, Memory>
    requires task { IsTask task.now }
    requires each { length moves.now ≡ length task.now.cells.now }
    requires first { IsOpenStep task.now moves.now forward first }
    ensures search { IfOk result (λ search. IsSearchOf task.now moves.now forward first search) }
{
    let mut visits = Vec::new(alloc);
    visits.push(Visit {
        step: first,
        before: 0,
    })?;
    let mut reached = Vec::from_elem(alloc, false, task.touching.len())?;
    reached[first.end as usize] = true;
    Ok(Search { visits, reached })
}

// Goes on from the end of the step at a place, over all cells there.
fn go_on(
    task: &Task<'_>,
    moves: &[i128],
    forward: bool,
    search: &mut Search,
    place: usize,
) -> Result<(), Memory>
    requires task { IsTask task.now }
    requires each { length moves.now ≡ length task.now.cells.now }
    requires asked { (first_step search.old).cell ≡ task.now.asked.cell }
    requires search { IsSearchOf task.now moves.now forward (first_step search.old) search.old }
    requires place { place < length search.old.visits.items }
    ensures search { OnOk result (IsSearchOf task.now moves.now forward (first_step search.old) search.new) }
    ensures grows { OnOk result (Grows search.old search.new) }
    ensures stays { OnOk result (StaysAt task.now moves.now forward (is_reached search.new.reached.items)
        (visited search.old.visits.items place).end) }
{
    let point = search.visits[place].step.end;
    'cells: for cell in task.touching[point as usize].as_slice() {
        go_over(task, moves, forward, search, place, *cell)?;
    }
    Ok(())
}

// Goes on from the end of the step at a place over one cell, where the step over it is open and reaches a further point.
fn go_over(
    task: &Task<'_>,
    moves: &[i128],
    forward: bool,
    search: &mut Search,
    place: usize,
    cell: u32,
) -> Result<(), Memory>
    requires task { IsTask task.now }
    requires each { length moves.now ≡ length task.now.cells.now }
    requires asked { (first_step search.old).cell ≡ task.now.asked.cell }
    requires search { IsSearchOf task.now moves.now forward (first_step search.old) search.old }
    requires place { place < length search.old.visits.items }
    requires at_point { IsHiddenCellAt task.now (visited search.old.visits.items place).end cell }
    ensures search { OnOk result (IsSearchOf task.now moves.now forward (first_step search.old) search.new) }
    ensures grows { OnOk result (Grows search.old search.new) }
    ensures stays { OnOk result (StaysOver task.now moves.now forward (is_reached search.new.reached.items)
        (visited search.old.visits.items place).end cell) }
{
    if cell == task.asked.cell {
        return Ok(());
    }
    let point = search.visits[place].step.end;
    let step = step_from(point, cell, task.arcs[cell as usize]);
    if search.reached[step.end as usize] {
        return Ok(());
    }
    if !is_open(task, moves, forward, step) {
        return Ok(());
    }
    search.visits.push(Visit {
        step,
        before: place,
    })?;
    search.reached[step.end as usize] = true;
    Ok(())
}

// Whether the cell of a step can move as the step goes, or, backward, the other way.
pub(crate) fn is_open(task: &Task<'_>, moves: &[i128], forward: bool, step: Step) -> bool
    requires task { IsTask task.now }
    requires each { length moves.now ≡ length task.now.cells.now }
    requires known { step.cell < length task.now.cells.now }
    ensures { result ≡ spec.is_open forward task.now.cells.now moves.now step }
{
    let cell = step.cell as usize;
    has_room(&task.cells[cell], is_same(step.up, forward), moves[cell])
}
