ghost use Rattle.std.specs.Prelude.{◌≡◌, ◌<◌, ◌≤◌, ◌^◌, ℕ, [], not, List, pos, ◌≤ℤ◌, length, map, fold, take, All, IfOk, IfErr, OnOk, OnErr};
ghost use Rattle.std.specs.List.{AllByRecursion, list_any};
ghost use Rattle.sdc_base.specs.Trails as spec;
ghost use Rattle.cost_rule.specs.Costs.{AreCosted};
ghost use Rattle.linked_tables.specs.BookCells as book_cells;
ghost use Rattle.hypercube.specs.LeastCubes.{is_marked};
ghost use Rattle.modular_plan.specs.Beginnings.{AreMarkedInPart, Begins};
ghost use Rattle.modular_plan.specs.StepLaws.{IsWholeStep};
ghost use Rattle.modular_plan.specs.Plans.{AreMarked, IsSameButHidden, trail_of, with_cell, with_subtable};

use crate::entry::{hidden_in, is_hidden};
use crate::marking::{hide, mark_primary};
use crate::ordering::in_order;
use crate::subtables::all_subtables;
use cost_rule::{CostRule, TellsCosts};
use hypercube::cheapest;
use linked_tables::Book;
use sdc_base::{Cell, Corner, Items, Levels, Memory, PlanStep, Subtable, Trail};
use std::alloc::Global;

/// Plans which cells are hidden beside the primary ones, in so many passes through all subtables of all tables. One
/// pass takes them by the summed depth of their parents, then by table, then by the places of the parents. In each
/// subtable every cell that was hidden on entry takes its least cube, in ascending number, and the corners of that
/// become hidden at once. The trail has those steps that hide a new cell.
///
/// A primary cell's step is for its levels; another's for a unit above, and a unit below where it has one. There is
/// one cell for each mark, and the facts of each mark are in the range of the rule. At first exactly the primary
/// cells are marked as hidden, and then the corners of each step; the facts, the trees and the tables stay. Its one
/// refusal is want of memory, after which the primary cells and the corners of some first steps are marked.
///
/// The method is the handbook's, the order of the steps argus's own.
pub fn plan<F: TellsCosts>(
    alloc: Global,
    book: &mut Book,
    cells: &[Cell],
    rule: &CostRule<F>,
    passes: u32,
) -> Result<Trail, Memory>
    requires one_each { length cells.now ≡ length book.old.marks }
    requires costed { All (λ mark. AreCosted mark.facts) book.old.marks }
    ensures trail { IfOk result (λ trail. trail.steps ≡ trail_of book.old cells.now rule.now passes) }
    ensures hidden { IfOk result (λ trail. AreMarked book.new cells.now trail.steps) }
    ensures stopped { IfErr result (λ _. AreMarkedInPart book.new cells.now
        (trail_of book.old cells.now rule.now passes)) }
    ensures same { IsSameButHidden book.old book.new }
    ensures whole_steps { IfOk result (λ trail. AllByRecursion (IsWholeStep book.old cells.now) trail.steps) }
{
    // for the proof: what holds of every book
    let _cells = book.cells();
    mark_primary(book, cells);
    let all = all_subtables(alloc, book)?;
    let subtables = in_order(alloc, book, all.as_slice())?;
    let mut steps = Vec::new(alloc);
    'passes: for _ in 0..passes {
        add_pass(alloc, book, cells, rule, subtables.as_slice(), &mut steps)?;
    }
    Ok(Trail {
        steps: Items::new(steps),
    })
}

// Adds the steps of one pass.
fn add_pass<F: TellsCosts>(
    alloc: Global,
    book: &mut Book,
    cells: &[Cell],
    rule: &CostRule<F>,
    subtables: &[Subtable],
    steps: &mut Vec<PlanStep>,
) -> Result<(), Memory>
    requires one_each { length cells.now ≡ length book.old.marks }
    requires costed { All (λ mark. AreCosted mark.facts) book.old.marks }
    requires marked { AreMarked book.old cells.now steps.old.items }
    ensures ok { OnOk result (steps.new.items
        ≡ fold (with_subtable book.old cells.now rule.now) steps.old.items subtables.now) }
    ensures stopped { OnErr result (Begins steps.new.items
        (fold (with_subtable book.old cells.now rule.now) steps.old.items subtables.now)) }
    ensures marked { AreMarked book.new cells.now steps.new.items }
    ensures same { IsSameButHidden book.old book.new }
{
    for subtable in subtables {
        add_steps(alloc, book, cells, rule, subtable, steps)?;
    }
    Ok(())
}

// Adds the steps of one subtable.
fn add_steps<F: TellsCosts>(
    alloc: Global,
    book: &mut Book,
    cells: &[Cell],
    rule: &CostRule<F>,
    subtable: &Subtable,
    steps: &mut Vec<PlanStep>,
) -> Result<(), Memory>
    requires one_each { length cells.now ≡ length book.old.marks }
    requires costed { All (λ mark. AreCosted mark.facts) book.old.marks }
    requires marked { AreMarked book.old cells.now steps.old.items }
    ensures ok { OnOk result (steps.new.items ≡ with_subtable book.old cells.now rule.now steps.old.items subtable.now) }
    ensures stopped { OnErr result (Begins steps.new.items
        (with_subtable book.old cells.now rule.now steps.old.items subtable.now)) }
    ensures marked { AreMarked book.new cells.now steps.new.items }
    ensures same { IsSameButHidden book.old book.new }
{
    let entry = hidden_in(alloc, book, subtable)?;
    'cells: for cell in entry.as_slice() {
        add_step(alloc, book, cells, rule, subtable, *cell, steps)?;
    }
    Ok(())
}

// Adds the step of one cell of a subtable, where it hides a new cell.
fn add_step<F: TellsCosts>(
    alloc: Global,
    book: &mut Book,
    cells: &[Cell],
    rule: &CostRule<F>,
    subtable: &Subtable,
    cell: u32,
    steps: &mut Vec<PlanStep>,
) -> Result<(), Memory>
    requires one_each { length cells.now ≡ length book.old.marks }
    requires known { cell < length (book_cells.cells book.old) }
    requires costed { All (λ mark. AreCosted mark.facts) book.old.marks }
    requires marked { AreMarked book.old cells.now steps.old.items }
    ensures ok { OnOk result (steps.new.items ≡ with_cell book.old cells.now rule.now subtable.now steps.old.items cell) }
    ensures stopped { OnErr result (steps.new.items ≡ steps.old.items) }
    ensures marked { AreMarked book.new cells.now steps.new.items }
    ensures same { IsSameButHidden book.old book.new }
{
    let levels = levels_at(cells, cell);
    let cube = cheapest(alloc, book, cells, rule, subtable, cell, levels)?;
    let Some(cube) = cube else {
        return Ok(());
    };
    let corners = cube.corners.as_slice();
    if !hides_new(book, corners) {
        return Ok(());
    }
    let step = step_of(alloc, subtable, cell, corners)?;
    steps.push(step)?;
    hide(book, corners);
    Ok(())
}

// The levels of a cell's step.
fn levels_at(cells: &[Cell], cell: u32) -> Levels
    ensures levels { result ≡ spec.levels_at cells.now cell }
    ensures up { pos 0 ≤ℤ result.up }
    ensures down { pos 0 ≤ℤ result.down }
{
    match cells.get(cell as usize) {
        Some(one) => step_levels(one),
        None => Levels { up: 0, down: 0 },
    }
}

// The levels of a cell's step: those of a primary cell, and of another one a unit above, and below where it has one.
fn step_levels(cell: &Cell) -> Levels
    ensures levels { result ≡ spec.step_levels cell.now }
    ensures up { pos 0 ≤ℤ result.up }
    ensures down { pos 0 ≤ℤ result.down }
{
    if cell.kind.is_primary() {
        return Levels {
            up: cell.up,
            down: cell.down,
        };
    }
    Levels {
        up: 1,
        down: cell.truth.min(1),
    }
}

// Whether some corner isn't hidden yet.
fn hides_new(book: &Book, corners: &[Corner]) -> bool
    ensures { result ≡ list_any (λ corner. not (is_marked book.now corner.cell)) corners.now }
{
    for corner in corners {
        if !is_hidden(book, corner.cell) {
            return true;
        }
    }
    false
}

// The step of a cell in a subtable.
fn step_of(
    alloc: Global,
    subtable: &Subtable,
    cell: u32,
    corners: &[Corner],
) -> Result<PlanStep, Memory>
    ensures { IfOk result (λ step. step ≡ spec.step_of subtable.now cell corners.now) }
{
    let numbers = corner_cell_numbers(alloc, corners)?;
    Ok(PlanStep {
        table: subtable.table,
        parents: subtable.parents.copy(),
        cell,
        corners: numbers,
    })
}

// The numbers of the corners' cells.
fn corner_cell_numbers(alloc: Global, corners: &[Corner]) -> Result<Items<u32>, Memory>
    ensures { IfOk result (λ numbers. numbers ≡ map (λ corner. corner.cell) corners.now) }
{
    let mut numbers = Vec::new(alloc);
    for corner in corners {
        numbers.push(corner.cell)?;
    }
    Ok(Items::new(numbers))
}
