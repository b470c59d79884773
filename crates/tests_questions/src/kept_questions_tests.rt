use fixture_cells::{cell_of, hidden_of, system_of};
use interval_audit::{Answer, Question, ask};
use kept_questions::{KeptAnswer, KeptQuestions};
use sdc_base::{Cell, Hidden, Kind, Side, System};
use std::alloc::{AllocError, Global};
use std::rt::HostRuntime;
use std::test::Fail;
use worlds::{Multipliers, Pattern, World};

// The relations of a table of three variables with two codes each: the cell of places a, b and c has the number
// 9 a + 3 b + c, and the place 0 is the total.
const TWO_BY_TWO_BY_TWO: [(u32, &[u32]); 27] = [
    (0, &[9, 18]),
    (0, &[3, 6]),
    (0, &[1, 2]),
    (1, &[10, 19]),
    (1, &[4, 7]),
    (2, &[11, 20]),
    (2, &[5, 8]),
    (3, &[12, 21]),
    (3, &[4, 5]),
    (4, &[13, 22]),
    (5, &[14, 23]),
    (6, &[15, 24]),
    (6, &[7, 8]),
    (7, &[16, 25]),
    (8, &[17, 26]),
    (9, &[12, 15]),
    (9, &[10, 11]),
    (10, &[13, 16]),
    (11, &[14, 17]),
    (12, &[13, 14]),
    (15, &[16, 17]),
    (18, &[21, 24]),
    (18, &[19, 20]),
    (19, &[22, 25]),
    (20, &[23, 26]),
    (21, &[22, 23]),
    (24, &[25, 26]),
];

// Each cell within has 10.
const TRUTHS: [u32; 27] = [
    80, 40, 40, 40, 20, 20, 40, 20, 20, 40, 20, 20, 20, 10, 10, 20, 10, 10, 40, 20, 20, 20, 10, 10,
    20, 10, 10,
];

// The eight cells within.
const CORNERS: [u32; 8] = [13, 14, 16, 17, 22, 23, 25, 26];

// The cells, of which the first within is primary and has this level to both sides.
fn cells_of(alloc: Global, level: u8) -> Result<Vec<Cell>, AllocError> {
    let mut cells = Vec::new(alloc);
    for (number, truth) in TRUTHS.iter().enumerate() {
        let kind = if number == 13 {
            Kind::Primary
        } else {
            Kind::Free
        };
        cells.push(cell_of(*truth, kind, level))?;
    }
    Ok(cells)
}

// The system of the table, where it can be made.
fn table(alloc: Global) -> Result<Option<System>, AllocError> {
    system_of(alloc, TRUTHS.len(), TWO_BY_TWO_BY_TWO.as_slice())
}

// What the kept table answers to the question whether the first cell within goes to a target, while these cells are
// hidden.
fn answer_of(
    alloc: Global,
    kept: &mut KeptQuestions,
    table: (&System, &[Cell], &Hidden),
    side: Side,
    target: i128,
) -> Option<KeptAnswer> {
    let (system, cells, hidden) = table;
    let size = system.cells as usize;
    let flags = hidden.flags.as_slice();
    if cells.len() != size || flags.len() != size || size <= 13 || !flags[13] {
        return None;
    }
    if target < 0 || target > 100 {
        return None;
    }
    let pattern = Pattern {
        system,
        cells,
        hidden,
    };
    let question = Question {
        cell: 13,
        side,
        target,
    };
    kept.ask(alloc, &pattern, question)
}

// The kept table's world that takes the first cell within to a target, while these cells are hidden.
fn found_of(
    alloc: Global,
    kept: &mut KeptQuestions,
    table: (&System, &[Cell], &Hidden),
    side: Side,
    target: i128,
) -> Option<World> {
    match answer_of(alloc, kept, table, side, target)? {
        KeptAnswer::Reaches(world) => Some(world),
        KeptAnswer::Stops(_) => None,
    }
}

// The multipliers with which the walk stops the same question.
fn walked_multipliers(
    alloc: Global,
    table: (&System, &[Cell], &Hidden),
    side: Side,
    target: i128,
) -> Option<Multipliers> {
    let (system, cells, hidden) = table;
    let size = system.cells as usize;
    let flags = hidden.flags.as_slice();
    if cells.len() != size || flags.len() != size || size <= 13 || !flags[13] {
        return None;
    }
    if target < 0 || target > 100 {
        return None;
    }
    let question = Question {
        cell: 13,
        side,
        target,
    };
    match ask(alloc, system, cells, hidden, question, 1_000) {
        Ok(Answer::Stops { multipliers, .. }) => Some(multipliers),
        _ => None,
    }
}

// Whether two lists of multipliers are the same.
fn are_same(one: &Multipliers, other: &Multipliers) -> bool {
    let others = other.by_relation.as_slice();
    if one.den != other.den || one.by_relation.as_slice().len() != others.len() {
        return false;
    }
    for (place, own) in one.by_relation.as_slice().iter().enumerate() {
        if place >= others.len() || *own != others[place] {
            return false;
        }
    }
    true
}

// Whether a world has the denominator 1 and these moves of the cells within.
fn has_moves(found: &Option<World>, moves: [i128; 8]) -> bool {
    let Some(world) = found else { return false };
    let all = world.moves.as_slice();
    if world.den != 1 || all.len() != 8 {
        return false;
    }
    for (place, one) in all.iter().enumerate() {
        if place >= 8 || (one.cell, one.by) != (CORNERS[place], moves[place]) {
            return false;
        }
    }
    true
}

// Cells within move together, by turns up and down, and no further than the 10 that each has.
const TURNS: [(Side, [i128; 8]); 2] = [
    (Side::Above, [6, -6, -6, 6, -6, 6, 6, -6]),
    (Side::Below, [-6, 6, 6, -6, 6, -6, -6, 6]),
];

// Whether one kept table gives both, for the level 6.
fn moves_by_turns(alloc: Global) -> Result<bool, Fail> {
    let hidden = hidden_of(alloc, 27, CORNERS.as_slice())?;
    let cells = cells_of(alloc, 6)?;
    let Some(system) = table(alloc)? else {
        return Ok(false);
    };
    let mut kept = KeptQuestions::new(alloc, &system, &cells, &hidden);
    for (side, moves) in &TURNS {
        let found = found_of(alloc, &mut kept, (&system, &cells, &hidden), *side, 6);
        if !has_moves(&found, *moves) {
            return Ok(false);
        }
    }
    Ok(true)
}

#[test]
fn eight_cells_move_by_turns(rt: HostRuntime) -> Result<(), Fail> {
    assert!(rt; moves_by_turns(rt.alloc())?);
    Ok(())
}

// Whether a table that is kept for the cells within gives no world to a target while these cells are hidden.
fn is_none_found(alloc: Global, target: i128, hidden: &[u32]) -> Result<bool, Fail> {
    let within = hidden_of(alloc, 27, CORNERS.as_slice())?;
    let hidden = hidden_of(alloc, 27, hidden)?;
    let cells = cells_of(alloc, 6)?;
    let Some(system) = table(alloc)? else {
        return Ok(false);
    };
    let mut kept = KeptQuestions::new(alloc, &system, &cells, &within);
    let found = found_of(
        alloc,
        &mut kept,
        (&system, &cells, &hidden),
        Side::Above,
        target,
    );
    Ok(found.is_none())
}

// The others can't fall by 11, and with one of the eight shown no other moves.
const NONE_TO_FIND: [(i128, &[u32]); 2] = [
    (11, &[13, 14, 16, 17, 22, 23, 25, 26]),
    (6, &[13, 14, 16, 17, 22, 23, 25]),
];

#[test]
fn no_world_where_there_is_none(rt: HostRuntime) -> Result<(), Fail> {
    let alloc = rt.alloc();
    for (target, hidden) in &NONE_TO_FIND {
        assert!(rt; is_none_found(alloc, *target, hidden)?);
    }
    Ok(())
}

// Whether a table that is kept for the cells within stops the question with the walk's multipliers, while these cells are
// hidden.
fn stops_like_the_walk(alloc: Global, target: i128, hidden: &[u32]) -> Result<bool, Fail> {
    let within = hidden_of(alloc, 27, CORNERS.as_slice())?;
    let hidden = hidden_of(alloc, 27, hidden)?;
    let cells = cells_of(alloc, 6)?;
    let Some(system) = table(alloc)? else {
        return Ok(false);
    };
    let asked = (&system, cells.as_slice(), &hidden);
    let mut kept = KeptQuestions::new(alloc, &system, &cells, &within);
    let answer = answer_of(alloc, &mut kept, asked, Side::Above, target);
    let Some(KeptAnswer::Stops(own)) = answer else {
        return Ok(false);
    };
    let Some(walked) = walked_multipliers(alloc, asked, Side::Above, target) else {
        return Ok(false);
    };
    Ok(are_same(&own, &walked))
}

#[test]
fn multipliers_are_those_of_the_walk(rt: HostRuntime) -> Result<(), Fail> {
    let alloc = rt.alloc();
    for (target, hidden) in &NONE_TO_FIND {
        assert!(rt; stops_like_the_walk(alloc, *target, hidden)?);
    }
    Ok(())
}

// The cells within but the last.
const SEVEN: [u32; 7] = [13, 14, 16, 17, 22, 23, 25];

// Whether questions about seven of the cells within are answered rightly once they are about all eight.
fn is_right_once_wider(alloc: Global) -> Result<bool, Fail> {
    let fewer = hidden_of(alloc, 27, SEVEN.as_slice())?;
    let hidden = hidden_of(alloc, 27, CORNERS.as_slice())?;
    let cells = cells_of(alloc, 6)?;
    let Some(system) = table(alloc)? else {
        return Ok(false);
    };
    let mut kept = KeptQuestions::new(alloc, &system, &cells, &fewer);
    let before = (&system, cells.as_slice(), &fewer);
    let answer = answer_of(alloc, &mut kept, before, Side::Above, 6);
    if !matches!(&answer, Some(KeptAnswer::Stops(_))) {
        return Ok(false);
    }
    let mut wider = kept.widen(alloc, &system, &cells, &hidden);
    let asked = (&system, cells.as_slice(), &hidden);
    let found = found_of(alloc, &mut wider, asked, Side::Above, 6);
    Ok(has_moves(&found, TURNS[0].1) && is_stopped_like_the_walk(alloc, &mut wider, asked))
}

// Whether the first cell within is kept from rising by 11 by the walk's multipliers.
fn is_stopped_like_the_walk(
    alloc: Global,
    kept: &mut KeptQuestions,
    asked: (&System, &[Cell], &Hidden),
) -> bool {
    let answer = answer_of(alloc, kept, asked, Side::Above, 11);
    let walked = walked_multipliers(alloc, asked, Side::Above, 11);
    match (&answer, &walked) {
        (Some(KeptAnswer::Stops(own)), Some(others)) => are_same(own, others),
        _ => false,
    }
}

#[test]
fn wider_questions_go_on_from_narrower_ones(rt: HostRuntime) -> Result<(), Fail> {
    assert!(rt; is_right_once_wider(rt.alloc())?);
    Ok(())
}
