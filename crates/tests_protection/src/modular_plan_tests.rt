ghost use Rattle.std.specs.Prelude.{◌≡◌, true, All};
ghost use Rattle.cost_rule.specs.Costs.{IsTold};
ghost use Rattle.cost_rule.specs.declared.kind.CostKind.TheVariants as Kinds;

use crate::books::{book_of, book_with_depths};
use crate::costs::are_costed;
use cost_rule::{CostKind, CostRule, TellsCosts};
use fixture_cells::{LINKED, bounded_cell, cell_of};
use fixture_records::{pairs, two_codes};
use hierarchy::{CodeTree, from_lead};
use linked_tables::Book;
use modular_plan::plan;
use sdc_base::{Cell, CellFacts, Dimension, Kind, PlanStep, Text, Trail};
use std::alloc::Global;
use std::rt::HostRuntime;
use std::test::Fail;

// The truths of the total, 1 with 11 and 12 below it, and 2 with 21 below it.
const INDUSTRIES: [u32; 6] = [117, 75, 60, 15, 42, 42];

// A step: the table, the parents, the cell, and the corners.
type Step<'a> = (u32, &'a [u32], u32, &'a [u32]);

// The total, 1 with 11 and 12 below it, and 2 with 21 below it.
fn industries(alloc: Global) -> Result<CodeTree, Fail> {
    let lead = Text::from_slice(alloc, b"@")?;
    let total = Text::from_slice(alloc, b"Total")?;
    if lead.as_slice().is_empty() {
        return Ok(two_codes(alloc)?);
    }
    let bytes = b"1\n@11\n@12\n2\n@21\n".as_slice();
    Ok(from_lead(alloc, bytes, &lead, &total)?)
}

// A book of these tables over three variables with two codes each.
fn linked(alloc: Global, tables: &[&[u32]]) -> Result<Book, Fail> {
    book_of(alloc, pairs(alloc, 3)?, tables, &LINKED)
}

// The first cells of the linked tables: cell 4 is primary with levels of 6.
fn linked_cells(alloc: Global, count: usize, margin: Kind) -> Result<Vec<Cell>, Fail> {
    let mut cells = Vec::new(alloc);
    for (number, truth) in LINKED.iter().enumerate() {
        let kind = match number {
            0 | 1 | 2 | 3 | 6 => margin,
            4 => Kind::Primary,
            _ => Kind::Free,
        };
        if number < count {
            cells.push(cell_of(*truth, kind, 6))?;
        }
    }
    Ok(cells)
}

// The cells of the industries: 2 and 21 are primary with levels of 3.
fn industry_cells(alloc: Global) -> Result<Vec<Cell>, Fail> {
    let mut cells = Vec::new(alloc);
    for (number, truth) in INDUSTRIES.iter().enumerate() {
        let kind = if number < 4 {
            Kind::Free
        } else {
            Kind::Primary
        };
        cells.push(cell_of(*truth, kind, 3))?;
    }
    Ok(cells)
}

// Plans, where it may be asked for.
fn planned_by<F: TellsCosts + Drop>(
    alloc: Global,
    book: &mut Book,
    cells: &[Cell],
    f: F,
    passes: u32,
) -> Result<Trail, Fail>
    requires told { IsTold F.may_ask F.may_say f Kinds.Value }
{
    let rule = CostRule::new(CostKind::Value, f);
    if !are_costed(book.marks()) || cells.len() != book.marks().len() {
        return Err(Fail::new("cells that no plan may be asked for"));
    }
    Ok(plan(alloc, book, cells, &rule, passes)?)
}

// The same with costs by value.
fn planned(alloc: Global, book: &mut Book, cells: &[Cell], passes: u32) -> Result<Trail, Fail> {
    let f = |facts: &CellFacts| CostKind::Value.cost(facts);
    planned_by(alloc, book, cells, f, passes)
}

fn is_step(step: &PlanStep, meant: &Step<'_>) -> bool {
    step.table == meant.0
        && step.parents.as_slice() == meant.1
        && step.cell == meant.2
        && step.corners.as_slice() == meant.3
}

// The steps are these, in this order.
fn are_steps(trail: &Trail, meant: &[Step<'_>]) -> bool {
    let steps = trail.steps.as_slice();
    if steps.len() != meant.len() {
        return false;
    }
    steps
        .iter()
        .zip(meant)
        .all(|(step, one)| is_step(step, one))
}

// Exactly these cells are hidden.
fn are_hidden(book: &Book, cells: &[u32]) -> bool {
    book.marks().iter().enumerate().all(|(number, mark)| mark.hidden
        == cells.iter().any(|cell| *cell as usize == number))
}

// What is asked of tables, and the trail that it makes: the tables, the passes, the steps, and the cells that are
// hidden then.
#[derive(Clone, Copy)]
struct PlannedTrail {
    tables: &'static [&'static [u32]],
    passes: u32,
    steps: &'static [Step<'static>],
    hidden: &'static [u32],
}

// Whether the trail through these tables has these steps, and exactly these cells are hidden then.
fn is_trail(alloc: Global, cells: &[Cell], meant: &PlannedTrail) -> Result<bool, Fail> {
    let mut book = linked(alloc, meant.tables)?;
    let trail = planned(alloc, &mut book, cells, meant.passes)?;
    Ok(are_steps(&trail, meant.steps) && are_hidden(&book, meant.hidden))
}

const INNER_CELLS: PlannedTrail = PlannedTrail {
    tables: &[&[0, 1]],
    passes: 1,
    steps: &[(0, &[0, 0], 4, &[4, 5, 7, 8])],
    hidden: &[4, 5, 7, 8],
};

// The margins are always shown.
#[test]
fn margins_always_shown(rt: HostRuntime) -> Result<(), Fail> {
    let alloc = rt.alloc();
    let cells = linked_cells(alloc, 9, Kind::Fixed)?;
    assert!(rt; is_trail(alloc, cells.as_slice(), &INNER_CELLS)?);
    Ok(())
}

// The first cells of the linked tables, of which that of the codes a1 and b2 is known to be from 48 to 52.
fn bounded_cells(alloc: Global, count: usize) -> Result<Vec<Cell>, Fail> {
    let mut cells = linked_cells(alloc, count, Kind::Free)?;
    if cells.len() > 5 {
        cells[5] = bounded_cell();
    }
    Ok(cells)
}

// How many cells there are, one of which can't move by 6, and the trail.
const BESIDE_A_BOUND: [(usize, PlannedTrail); 2] = [
    (
        9,
        PlannedTrail {
            tables: &[&[0, 1]],
            passes: 1,
            steps: &[(0, &[0, 0], 4, &[3, 4, 6, 7])],
            hidden: &[3, 4, 6, 7],
        },
    ),
    // in a second table the cells that both have need partners too
    (
        15,
        PlannedTrail {
            tables: &[&[0, 1], &[0, 2]],
            passes: 1,
            steps: &[
                (0, &[0, 0], 4, &[3, 4, 6, 7]),
                (1, &[0, 0], 3, &[3, 6, 11, 13]),
            ],
            hidden: &[3, 4, 6, 7, 11, 13],
        },
    ),
];

fn is_trail_beside_a_bound(
    alloc: Global,
    count: usize,
    meant: &PlannedTrail,
) -> Result<bool, Fail> {
    let cells = bounded_cells(alloc, count)?;
    is_trail(alloc, cells.as_slice(), meant)
}

#[test]
fn bounded_corner(rt: HostRuntime) -> Result<(), Fail> {
    let alloc = rt.alloc();
    for (count, meant) in &BESIDE_A_BOUND {
        assert!(rt; is_trail_beside_a_bound(alloc, *count, meant)?);
    }
    Ok(())
}

// The cells of the linked tables, of which that of the codes a1 and c1 is primary, and that of a1 and c2 always shown.
fn cells_of_the_second(alloc: Global) -> Result<Vec<Cell>, Fail> {
    let mut cells = Vec::new(alloc);
    for (number, truth) in LINKED.iter().enumerate() {
        let kind = match number {
            11 => Kind::Primary,
            12 => Kind::Fixed,
            _ => Kind::Free,
        };
        cells.push(cell_of(*truth, kind, 6))?;
    }
    Ok(cells)
}

const FROM_THE_SECOND: [PlannedTrail; 2] = [
    // the second table hides cells of the first, which had its turn before, so they have no partners there after one
    // pass
    PlannedTrail {
        tables: &[&[0, 1], &[0, 2]],
        passes: 1,
        steps: &[(1, &[0, 0], 11, &[3, 6, 11, 13])],
        hidden: &[3, 6, 11, 13],
    },
    // they have them after a second pass, for 21 and 31 against 51 and 41
    PlannedTrail {
        tables: &[&[0, 1], &[0, 2]],
        passes: 2,
        steps: &[
            (1, &[0, 0], 11, &[3, 6, 11, 13]),
            (0, &[0, 0], 3, &[3, 4, 6, 7]),
        ],
        hidden: &[3, 4, 6, 7, 11, 13],
    },
];

fn is_trail_from_the_second(alloc: Global, meant: &PlannedTrail) -> Result<bool, Fail> {
    let cells = cells_of_the_second(alloc)?;
    is_trail(alloc, cells.as_slice(), meant)
}

#[test]
fn second_pass_hides_more(rt: HostRuntime) -> Result<(), Fail> {
    let alloc = rt.alloc();
    for meant in &FROM_THE_SECOND {
        assert!(rt; is_trail_from_the_second(alloc, meant)?);
    }
    Ok(())
}

// The book of the industries.
fn industry_book(alloc: Global) -> Result<Book, Fail> {
    let trees = vec![in alloc; industries(alloc)?]?;
    book_of(alloc, trees, &[&[0]], &INDUSTRIES)
}

// The two steps through the industries; the subtable of 2 hides nothing new.
const INDUSTRY_STEPS: [Step<'static>; 2] = [(0, &[0], 4, &[1, 4]), (0, &[1], 1, &[1, 3])];

// Whether so many passes through the industries have these steps.
fn is_trail_of_industries(alloc: Global, passes: u32) -> Result<bool, Fail> {
    let cells = industry_cells(alloc)?;
    let mut book = industry_book(alloc)?;
    let trail = planned(alloc, &mut book, cells.as_slice(), passes)?;
    Ok(are_steps(&trail, &INDUSTRY_STEPS) && are_hidden(&book, &[1, 3, 4, 5]))
}

// Two levels of codes, in one pass and in two.
const PASSES: [u32; 2] = [1, 2];

#[test]
fn two_levels(rt: HostRuntime) -> Result<(), Fail> {
    let alloc = rt.alloc();
    for passes in &PASSES {
        assert!(rt; is_trail_of_industries(alloc, *passes)?);
    }
    Ok(())
}

// The industries down to 1 and 2.
const UPPER: Dimension = Dimension {
    variable: 0,
    depth: 1,
};

// The truths of the total, 1 and 2 in a table of their own, and of 11, 12 and 21 in a deeper one.
const UPPER_FIRST: [u32; 6] = [117, 75, 42, 60, 15, 42];

// Their cells: 2 and 21 are primary with levels of 3.
fn upper_first_cells(alloc: Global) -> Result<Vec<Cell>, Fail> {
    let mut cells = Vec::new(alloc);
    for (number, truth) in UPPER_FIRST.iter().enumerate() {
        let kind = match number {
            2 | 5 => Kind::Primary,
            _ => Kind::Free,
        };
        cells.push(cell_of(*truth, kind, 3))?;
    }
    Ok(cells)
}

// The book of those two tables.
fn upper_first(alloc: Global) -> Result<Book, Fail> {
    let trees = vec![in alloc; industries(alloc)?]?;
    book_with_depths(
        alloc,
        trees,
        &[&[UPPER], &[Dimension::whole(0)]],
        &UPPER_FIRST,
    )
}

// The first table has no subtable below 1: its cell gets its partner in the second one.
const UPPER_STEPS: [Step<'static>; 2] = [(0, &[0], 2, &[1, 2]), (1, &[1], 1, &[1, 4])];

#[test]
fn a_shallow_table_has_no_subtable_below_its_last_level(rt: HostRuntime) -> Result<(), Fail> {
    let alloc = rt.alloc();
    let cells = upper_first_cells(alloc)?;
    let mut book = upper_first(alloc)?;
    let trail = planned(alloc, &mut book, cells.as_slice(), 1)?;
    assert!(rt; are_steps(&trail, &UPPER_STEPS));
    assert!(rt; are_hidden(&book, &[1, 2, 4, 5]));
    Ok(())
}
