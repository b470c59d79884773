ghost use Rattle.std.specs.Prelude.{◌<◌, true};

use crate::cases::{Case, FOUR_HIDDEN, Sketch, case_of};
use flow_worlds::{FlowAnswer, flow};
use sdc_base::{Side, signs};
use std::alloc::Global;
use std::rt::HostRuntime;
use std::test::Fail;
use worlds::World;

// How far a cell of a case goes to a side, up to a target; none where the case can't be asked so, or has no signs.
fn flow_of(alloc: Global, case: &Case, cell: u32, side: Side, target: i128) -> Option<FlowAnswer> {
    let size = case.system.cells as usize;
    let flags = case.hidden.flags.as_slice();
    if case.cells.len() != size || flags.len() != size || cell as usize >= size {
        return None;
    }
    if !flags[cell as usize] || target < 0 || target > 1 << 110 {
        return None;
    }
    let Ok(Some(signs)) = signs(alloc, &case.system) else {
        return None;
    };
    let answer = flow(
        alloc,
        &case.system,
        &case.cells,
        &case.hidden,
        signs.as_slice(),
        cell,
        side,
        target,
    );
    match answer {
        Ok(answer) => Some(answer),
        Err(_) => None,
    }
}

// Whether a world has the denominator 1 and these moves.
fn has_moves(world: &World, moves: &[(u32, i128)]) -> bool {
    let all = world.moves.as_slice();
    if world.den != 1 || all.len() != moves.len() {
        return false;
    }
    for (place, one) in all.iter().enumerate() {
        if place >= moves.len() || (one.cell, one.by) != moves[place] {
            return false;
        }
    }
    true
}

// Whether a question is answered with this world that reaches.
fn reaches_in(answer: Option<FlowAnswer>, moves: &[(u32, i128)]) -> bool {
    matches!(&answer, Some(FlowAnswer::Reaches(world)) if has_moves(world, moves))
}

// Whether a question is answered with this best value, the world that attains it and these multipliers.
fn stops_at(
    answer: Option<FlowAnswer>,
    value: i128,
    moves: &[(u32, i128)],
    by_relation: &[(u32, i128)],
) -> bool {
    let Some(
        FlowAnswer::Stops {
            best,
            world,
            multipliers,
        },
    ) = answer
    else {
        return false;
    };
    best == value
        && has_moves(&world, moves)
        && multipliers.den == 1
        && multipliers.by_relation.as_slice() == by_relation
}

// A case, the cell and the side that are asked about, and the target.
type Asked = (Sketch<'static>, u32, Side, i128);

// What a question about a case is answered with; none where it can't be asked so.
fn answer_of(alloc: Global, asked: &Asked) -> Result<Option<FlowAnswer>, Fail> {
    let (sketch, cell, side, target) = *asked;
    let Some(case) = case_of(alloc, sketch)? else {
        return Ok(None);
    };
    Ok(flow_of(alloc, &case, cell, side, target))
}

// A total and its part, which is hidden alone.
const ONE_PART: Sketch<'static> = Sketch {
    relations: &[(0, &[1])],
    truths: &[100, 100],
    bounded: (0, 0, None),
    hidden: &[1],
};

// A total and its two parts, all of them hidden. The second part may rise by 1 and fall by 2.
const TOTAL_AND_PARTS: Sketch<'static> = Sketch {
    relations: &[(0, &[1, 2])],
    truths: &[50, 20, 30],
    bounded: (2, 28, Some(31)),
    hidden: &[0, 1, 2],
};

// Two cells in no relation, of which the first may rise by 3 and fall by 2.
const NO_RELATION: Sketch<'static> = Sketch {
    relations: &[],
    truths: &[5, 7],
    bounded: (0, 3, Some(8)),
    hidden: &[0, 1],
};

// A question that stops: the best value, the moves that attain it, and its multipliers.
type Stop = (Asked, i128, &'static [(u32, i128)], &'static [(u32, i128)]);

const STOPS: [Stop; 5] = [
    // all four cells move together: cell 7 falls by 30 at most
    (
        (FOUR_HIDDEN, 4, Side::Above, 1 << 110),
        30,
        &[(4, 30), (5, -30), (7, -30), (8, 30)],
        &[(2, 1)],
    ),
    // a cell below its total alone doesn't move where the total is shown
    ((ONE_PART, 1, Side::Above, 5), 0, &[], &[(0, 1)]),
    // cells in one relation alone go through the outside point: the total falls by 20 with the first part and by 2 with
    // the second
    (
        (TOTAL_AND_PARTS, 0, Side::Below, 100),
        22,
        &[(0, -22), (1, -20), (2, -2)],
        &[(0, 1)],
    ),
    // and the second rises by 1, its own bound
    (
        (TOTAL_AND_PARTS, 2, Side::Above, 1 << 110),
        1,
        &[(0, 1), (2, 1)],
        &[],
    ),
    // a cell in no relation moves as far as its bounds let it
    ((NO_RELATION, 0, Side::Above, 4), 3, &[(0, 3)], &[]),
];

#[test]
fn cells_stop_at_their_best(rt: HostRuntime) -> Result<(), Fail> {
    let alloc = rt.alloc();
    for (asked, best, moves, by_relation) in &STOPS {
        assert!(rt; stops_at(answer_of(alloc, asked)?, *best, moves, by_relation));
    }
    Ok(())
}

// Questions whose targets are reached, and the moves that reach them.
const REACHED: [(Asked, &[(u32, i128)]); 3] = [
    (
        (FOUR_HIDDEN, 4, Side::Above, 6),
        &[(4, 6), (5, -6), (7, -6), (8, 6)],
    ),
    ((NO_RELATION, 1, Side::Above, 1 << 110), &[(1, 1 << 110)]),
    ((NO_RELATION, 1, Side::Above, 0), &[]),
];

#[test]
fn cells_reach_their_targets(rt: HostRuntime) -> Result<(), Fail> {
    let alloc = rt.alloc();
    for (asked, moves) in &REACHED {
        assert!(rt; reaches_in(answer_of(alloc, asked)?, moves));
    }
    Ok(())
}
