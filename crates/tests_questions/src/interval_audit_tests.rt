ghost use Rattle.std.specs.Prelude.{◌<◌, true};

use crate::cases::{
    Case, FOUR_HIDDEN, FOUR_HIDDEN_BOUNDED, RING_OF_THREE, Sketch, case_of, parts_hidden,
};
use fixture_cells::TWO_BY_TWO;
use interval_audit::{Answer, AskFault, Question, TwoEnds, ask, interval, problem_of};
use sdc_base::{Side, components};
use std::alloc::Global;
use std::rt::HostRuntime;
use std::test::Fail;
use worlds::{Multipliers, World};

// The answer of a question; none where the case can't be asked so.
pub(crate) fn answer_of(
    alloc: Global,
    case: &Case,
    cell: u32,
    side: Side,
    target: i128,
    limit: u64,
) -> Option<Result<Answer, AskFault>> {
    let size = case.system.cells as usize;
    let flags = case.hidden.flags.as_slice();
    if case.cells.len() != size || flags.len() != size || cell as usize >= size {
        return None;
    }
    if !flags[cell as usize] || target < 0 || target > 1 << 110 || limit < 1 {
        return None;
    }
    let question = Question { cell, side, target };
    Some(ask(
        alloc,
        &case.system,
        &case.cells,
        &case.hidden,
        question,
        limit,
    ))
}

// The two ends for a cell, with a limit of 100; none where the case can't be asked so, or there are none.
pub(crate) fn ends_of(alloc: Global, case: &Case, cell: u32) -> Option<TwoEnds> {
    let size = case.system.cells as usize;
    let flags = case.hidden.flags.as_slice();
    if case.cells.len() != size || flags.len() != size || cell as usize >= size {
        return None;
    }
    if !flags[cell as usize] {
        return None;
    }
    match interval(alloc, &case.system, &case.cells, &case.hidden, cell, 100) {
        Ok(ends) => Some(ends),
        Err(_) => None,
    }
}

// Whether a world has this denominator and these moves.
fn has_moves(world: &World, den: i128, moves: &[(u32, i128)]) -> bool {
    let all = world.moves.as_slice();
    if world.den != den || all.len() != moves.len() {
        return false;
    }
    for (place, one) in all.iter().enumerate() {
        if place >= moves.len() || (one.cell, one.by) != moves[place] {
            return false;
        }
    }
    true
}

// Whether multipliers have this denominator and these numbers of relations.
pub(crate) fn has_multipliers(
    multipliers: &Multipliers,
    den: i128,
    by_relation: &[(u32, i128)],
) -> bool {
    multipliers.den == den && multipliers.by_relation.as_slice() == by_relation
}

// What an answer is to be: a world that reaches; or the best value, the world that attains it, and multipliers where
// they are looked at.
#[derive(Clone, Copy)]
struct Wanted<'a> {
    best: Option<(i128, i128)>,
    world: (i128, &'a [(u32, i128)]),
    multipliers: Option<(i128, &'a [(u32, i128)])>,
}

// Whether an answer is the one that is wanted.
fn is_wanted(answer: &Answer, wanted: &Wanted<'_>) -> bool {
    match answer {
        Answer::Reaches(world) => {
            wanted.best == None && has_moves(world, wanted.world.0, wanted.world.1)
        }
        Answer::Stops {
            best,
            world,
            multipliers,
        } => {
            let Some((den, by_relation)) = wanted.multipliers else {
                return wanted.best == Some((best.num, best.den))
                    && has_moves(world, wanted.world.0, wanted.world.1);
            };
            wanted.best == Some((best.num, best.den))
                && has_moves(world, wanted.world.0, wanted.world.1)
                && has_multipliers(multipliers, den, by_relation)
        }
    }
}

// What the problem of a question is to be: so many columns, the entries and bounds of the rows, and the objective.
#[derive(Clone, Copy)]
struct WantedProblem<'a> {
    columns: u32,
    rows: &'a [(&'a [(u32, i128)], i128)],
    objective: &'a [(u32, i128)],
}

// Whether the problem of raising a cell by 6 is the one that is wanted; not where the case can't be asked so.
fn has_problem(alloc: Global, case: &Case, cell: u32, wanted: &WantedProblem<'_>) -> bool {
    let size = case.system.cells as usize;
    let flags = case.hidden.flags.as_slice();
    if case.cells.len() != size || flags.len() != size || size > 4000 || cell as usize >= size {
        return false;
    }
    let Ok(grouping) = components(alloc, &case.system, &case.hidden) else {
        return false;
    };
    let of = grouping.of.as_slice();
    let question = Question {
        cell,
        side: Side::Above,
        target: 6,
    };
    let Ok(problem) = problem_of(alloc, &case.system, &case.cells, of, question) else {
        return false;
    };
    let rows = problem.rows.as_slice();
    if rows.len() != wanted.rows.len() {
        return false;
    }
    for (place, row) in rows.iter().enumerate() {
        if place >= wanted.rows.len() {
            return false;
        }
        let (entries, bound) = wanted.rows[place];
        if row.entries.as_slice() != entries || row.bound != bound {
            return false;
        }
    }
    problem.columns == wanted.columns
        && problem.objective.as_slice() == wanted.objective
        && problem.target == 6
}

// A table of two by two of which the first inner cell alone is hidden.
const ONE_HIDDEN: Sketch<'static> = Sketch {
    relations: &TWO_BY_TWO,
    truths: &[140, 50, 90, 70, 20, 50, 70, 30, 40],
    bounded: (5, 0, Some(90)),
    hidden: &[4],
};

// A total and its two parts, of which the first is hidden, from 0 to 30 with the truth 20.
const ONE_PART_HIDDEN: Sketch<'static> = Sketch {
    relations: &[(0, &[1, 2])],
    truths: &[50, 20, 30],
    bounded: (1, 0, Some(30)),
    hidden: &[1],
};

const UP: &[(u32, i128)] = &[(0, 1)];

const DOWN: &[(u32, i128)] = &[(1, 1)];

const FORM: &[(u32, i128)] = &[(0, -1), (1, 1)];

const NEGATED: &[(u32, i128)] = &[(0, 1), (1, -1)];

// Cases, their hidden cells, and the problems of these.
const PROBLEMS: [(Sketch<'static>, u32, WantedProblem<'static>); 2] = [
    // two relations name the cell: 2 columns and 6 rows, the target's among them, of at most 7
    (
        ONE_HIDDEN,
        4,
        WantedProblem {
            columns: 2,
            rows: &[(DOWN, 20), (FORM, 0), (NEGATED, 0), (FORM, 0), (NEGATED, 0)],
            objective: NEGATED,
        },
    ),
    // one relation, and both bounds: 2 columns and 5 rows, as many as there can be
    (
        ONE_PART_HIDDEN,
        1,
        WantedProblem {
            columns: 2,
            rows: &[(UP, 10), (DOWN, 20), (FORM, 0), (NEGATED, 0)],
            objective: NEGATED,
        },
    ),
];

// The same for what a sketch is of.
fn is_problem_of(
    alloc: Global,
    sketch: Sketch<'_>,
    cell: u32,
    wanted: &WantedProblem<'_>,
) -> Result<bool, Fail> {
    match case_of(alloc, sketch)? {
        Some(case) => Ok(has_problem(alloc, &case, cell, wanted)),
        None => Ok(false),
    }
}

#[test]
fn problems_of_cells_alone(rt: HostRuntime) -> Result<(), Fail> {
    let alloc = rt.alloc();
    for (sketch, cell, wanted) in &PROBLEMS {
        assert!(rt; is_problem_of(alloc, *sketch, *cell, wanted)?);
    }
    Ok(())
}

// Whether the answer to a question about the first inner cell is this one.
fn is_answered(
    alloc: Global,
    sketch: Sketch<'_>,
    side: Side,
    wanted: &Wanted<'_>,
) -> Result<bool, Fail> {
    let Some(case) = case_of(alloc, sketch)? else {
        return Ok(false);
    };
    let answer = answer_of(alloc, &case, 4, side, 6, 1);
    Ok(matches!(&answer, Some(Ok(found)) if is_wanted(found, wanted)))
}

// Tables, sides, and the answers to a question about the first inner cell.
const ANSWERS: [(Sketch<'static>, Side, Wanted<'static>); 3] = [
    // a cell alone stops at once
    (
        ONE_HIDDEN,
        Side::Above,
        Wanted {
            best: Some((0, 1)),
            world: (1, &[]),
            multipliers: Some((1, &[(2, 1)])),
        },
    ),
    (
        ONE_HIDDEN,
        Side::Below,
        Wanted {
            best: Some((0, 1)),
            world: (1, &[]),
            multipliers: Some((1, &[(4, -1)])),
        },
    ),
    // four cells reach the target, where no cell has an upper bound
    (
        FOUR_HIDDEN,
        Side::Above,
        Wanted {
            best: None,
            world: (1, &[(4, 6), (5, -6), (7, -6), (8, 6)]),
            multipliers: None,
        },
    ),
];

#[test]
fn first_inner_cell_is_asked_about(rt: HostRuntime) -> Result<(), Fail> {
    let alloc = rt.alloc();
    for (sketch, side, wanted) in &ANSWERS {
        assert!(rt; is_answered(alloc, *sketch, *side, wanted)?);
    }
    Ok(())
}

// How many improvements a question about the ring took that was cut off after one, with its cell and target.
fn cut_off(alloc: Global) -> Result<Option<(u64, u32, i128)>, Fail> {
    let Some(case) = case_of(alloc, RING_OF_THREE)? else {
        return Ok(None);
    };
    let Some(Err(AskFault::Work(walk))) = answer_of(alloc, &case, 3, Side::Below, 6, 1) else {
        return Ok(None);
    };
    Ok(Some((
        walk.tableau.improved(),
        walk.question.cell,
        walk.question.target,
    )))
}

// The ring has no signs, so that its questions are walks.
#[test]
fn walk_is_cut_off(rt: HostRuntime) -> Result<(), Fail> {
    assert_eq!(rt; cut_off(rt.alloc())?, Some((1, 3, 6)));
    Ok(())
}

// What the two ends for a cell of a case are to be.
#[derive(Clone, Copy)]
struct WantedEnds {
    sketch: Sketch<'static>,
    cell: u32,
    below: Wanted<'static>,
    above: Wanted<'static>,
}

// Whether the two ends for a cell are those that are wanted.
fn are_ends(alloc: Global, wanted: &WantedEnds) -> Result<bool, Fail> {
    let Some(case) = case_of(alloc, wanted.sketch)? else {
        return Ok(false);
    };
    let Some(ends) = ends_of(alloc, &case, wanted.cell) else {
        return Ok(false);
    };
    Ok(is_wanted(&ends.below, &wanted.below) && is_wanted(&ends.above, &wanted.above))
}

// A part and its total are hidden, and neither has an upper bound.
const OPEN_PART: Sketch<'static> = Sketch {
    relations: &[(0, &[1, 2])],
    truths: &[50, 20, 30],
    bounded: (2, 0, Some(30)),
    hidden: &[0, 1],
};

// Cells 4 to 7 have shown sums by 5 with each of the others, and cell 2 is the sum of the others. It may rise by 1 and
// fall by 2.
const RING_OF_FOUR: Sketch<'static> = Sketch {
    relations: &[(0, &[4, 5]), (1, &[5, 6]), (2, &[4, 6, 7]), (3, &[5, 7])],
    truths: &[20, 20, 30, 20, 10, 10, 10, 10],
    bounded: (2, 28, Some(31)),
    hidden: &[2, 4, 5, 6, 7],
};

const ENDS: [WantedEnds; 4] = [
    // the cell beside the asked one is at least 45 and at most 60, and its truth is 50: so the asked one rises by 5 at
    // most, and falls by 10
    WantedEnds {
        sketch: FOUR_HIDDEN_BOUNDED,
        cell: 4,
        below: Wanted {
            best: Some((10, 1)),
            world: (1, &[(4, -10), (5, 10), (7, 10), (8, -10)]),
            multipliers: None,
        },
        above: Wanted {
            best: Some((5, 1)),
            world: (1, &[(4, 5), (5, -5), (7, -5), (8, 5)]),
            multipliers: None,
        },
    },
    // a part and its total without upper bounds rise together as far as one likes
    WantedEnds {
        sketch: OPEN_PART,
        cell: 1,
        below: Wanted {
            best: Some((20, 1)),
            world: (1, &[(0, -20), (1, -20)]),
            multipliers: None,
        },
        above: Wanted {
            best: None,
            world: (1, &[(0, 1 << 110), (1, 1 << 110)]),
            multipliers: None,
        },
    },
    // 4 moves against 3, and 5 moves with it; cell 2, the sum of 3 and 5, moves by twice as much. Above, twice 3 and so
    // many times the relations leave nothing of 3, 4 and 5: the multiplier of cell 2's relation is 1, that of cell 1's
    // its opposite, that of cell 0's 1 again
    WantedEnds {
        sketch: RING_OF_THREE,
        cell: 3,
        below: Wanted {
            best: Some((1, 1)),
            world: (1, &[(2, -2), (3, -1), (4, 1), (5, -1)]),
            multipliers: Some((2, &[(0, -1), (1, 1), (2, -1)])),
        },
        above: Wanted {
            best: Some((1, 2)),
            world: (2, &[(2, 2), (3, 1), (4, -1), (5, 1)]),
            multipliers: Some((2, &[(0, 1), (1, -1), (2, 1)])),
        },
    },
    // 5 moves against 4, and 6 and 7 move with it; cell 2, the sum of these three, moves by three times as much. Above,
    // three times 4 and so many times the relations leave nothing of 4 to 7: the multiplier of cell 2's relation is 1,
    // those of cells 1 and 3 its opposites, and that of cell 0 is 2
    WantedEnds {
        sketch: RING_OF_FOUR,
        cell: 4,
        below: Wanted {
            best: Some((2, 3)),
            world: (3, &[(2, -6), (4, -2), (5, 2), (6, -2), (7, -2)]),
            multipliers: Some((3, &[(0, -2), (1, 1), (2, -1), (3, 1)])),
        },
        above: Wanted {
            best: Some((1, 3)),
            world: (3, &[(2, 3), (4, 1), (5, -1), (6, 1), (7, 1)]),
            multipliers: Some((3, &[(0, 2), (1, -1), (2, 1), (3, -1)])),
        },
    },
];

#[test]
fn two_ends_of_cells(rt: HostRuntime) -> Result<(), Fail> {
    let alloc = rt.alloc();
    for wanted in &ENDS {
        assert!(rt; are_ends(alloc, wanted)?);
    }
    Ok(())
}

// The answer on the first of so many parts.
fn parts_asked(alloc: Global, parts: u32) -> Result<Option<Result<Answer, AskFault>>, Fail> {
    let Some(case) = parts_hidden(alloc, parts, (0, 0, Some(5000)))? else {
        return Ok(None);
    };
    Ok(answer_of(alloc, &case, 1, Side::Above, 6, 1))
}

#[test]
fn component_of_more_than_4000_is_too_large(rt: HostRuntime) -> Result<(), Fail> {
    let answer = parts_asked(rt.alloc(), 4001)?;
    assert!(rt; matches!(answer, Some(Err(AskFault::Size { hidden: 4001, .. }))));
    Ok(())
}

#[test]
fn component_of_4000_is_answered(rt: HostRuntime) -> Result<(), Fail> {
    let answer = parts_asked(rt.alloc(), 4000)?;
    assert!(rt; matches!(answer, Some(Ok(Answer::Reaches(_)))));
    Ok(())
}
