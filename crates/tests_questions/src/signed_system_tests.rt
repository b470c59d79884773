ghost use Rattle.std.specs.Prelude.{◌<◌, true};

use crate::cases::{Case, FOUR_HIDDEN_BOUNDED, RING_OF_THREE, Sketch, case_of};
use crate::interval_audit_tests::{answer_of, ends_of, has_multipliers};
use interval_audit::{Answer, AskFault, Question, SignedSystem, TwoEnds, signed_interval};
use sdc_base::Side;
use std::alloc::Global;
use std::rt::HostRuntime;
use std::test::Fail;
use worlds::World;

// The answer of a question to a system whose signs are known; none where the case can't be asked so.
fn signed_answer_of(
    alloc: Global,
    signed: &SignedSystem<'_>,
    case: &Case,
    question: Question,
    limit: u64,
) -> Option<Result<Answer, AskFault>> {
    let size = signed.system().cells as usize;
    let flags = case.hidden.flags.as_slice();
    if case.cells.len() != size || flags.len() != size || question.cell as usize >= size {
        return None;
    }
    if !flags[question.cell as usize] || limit < 1 {
        return None;
    }
    Some(signed.ask(alloc, &case.cells, &case.hidden, question, limit))
}

// The two ends for a cell of a system whose signs are known, with a limit of 100; none where the case can't be asked
// so, or there are none.
fn signed_ends_of(
    alloc: Global,
    signed: &SignedSystem<'_>,
    case: &Case,
    cell: u32,
) -> Option<TwoEnds> {
    let size = signed.system().cells as usize;
    let flags = case.hidden.flags.as_slice();
    if case.cells.len() != size || flags.len() != size || cell as usize >= size {
        return None;
    }
    if !flags[cell as usize] {
        return None;
    }
    match signed_interval(alloc, signed, &case.cells, &case.hidden, cell, 100) {
        Ok(ends) => Some(ends),
        Err(_) => None,
    }
}

// Whether two worlds are the same, move by move.
fn are_same_worlds(one: &World, other: &World) -> bool {
    let moves = other.moves.as_slice();
    if one.den != other.den || one.moves.as_slice().len() != moves.len() {
        return false;
    }
    for (place, own) in one.moves.as_slice().iter().enumerate() {
        if place >= moves.len() || (own.cell, own.by) != (moves[place].cell, moves[place].by) {
            return false;
        }
    }
    true
}

// Whether two answers are the same.
fn are_same(one: &Answer, other: &Answer) -> bool {
    match one {
        Answer::Reaches(world) => {
            matches!(other, Answer::Reaches(beside) if are_same_worlds(world, beside))
        }
        Answer::Stops {
            best,
            world,
            multipliers,
        } => {
            let Answer::Stops {
                best: value,
                world: beside,
                multipliers: others,
            } = other
            else {
                return false;
            };
            (best.num, best.den) == (value.num, value.den)
                && are_same_worlds(world, beside)
                && has_multipliers(multipliers, others.den, others.by_relation.as_slice())
        }
    }
}

// Whether the questions on a cell to a side have the same answers where the signs are known before.
fn is_answered_alike(
    alloc: Global,
    signed: &SignedSystem<'_>,
    case: &Case,
    cell: u32,
    side: Side,
) -> bool {
    for target in [0, 1, 6, 1000] {
        let Some(Ok(one)) = answer_of(alloc, case, cell, side, target, 100) else {
            return false;
        };
        let question = Question { cell, side, target };
        let Some(Ok(other)) = signed_answer_of(alloc, signed, case, question, 100) else {
            return false;
        };
        if !are_same(&one, &other) {
            return false;
        }
    }
    true
}

// Whether the two ends for a cell are the same where the signs are known before.
fn has_ends_alike(alloc: Global, signed: &SignedSystem<'_>, case: &Case, cell: u32) -> bool {
    let Some(ends) = ends_of(alloc, case, cell) else {
        return false;
    };
    let Some(others) = signed_ends_of(alloc, signed, case, cell) else {
        return false;
    };
    are_same(&ends.below, &others.below) && are_same(&ends.above, &others.above)
}

// Whether all answers about a cell are the same where the signs are known before.
fn are_alike(alloc: Global, case: &Case, cell: u32) -> Result<bool, Fail> {
    let signed = SignedSystem::of(alloc, &case.system)?;
    Ok(
        signed.system().cells == case.system.cells
            && is_answered_alike(alloc, &signed, case, cell, Side::Above)
            && is_answered_alike(alloc, &signed, case, cell, Side::Below)
            && has_ends_alike(alloc, &signed, case, cell),
    )
}

// The same for what a sketch is of.
fn are_alike_in(alloc: Global, sketch: Sketch<'_>, cell: u32) -> Result<bool, Fail> {
    match case_of(alloc, sketch)? {
        Some(case) => are_alike(alloc, &case, cell),
        None => Ok(false),
    }
}

// A table of two by two has signs, so that its answers are those of flows; the ring has none, and its questions are
// walks, one of which is cut off.
const WITH_AND_WITHOUT_SIGNS: [(Sketch<'static>, u32); 2] = [
    (FOUR_HIDDEN_BOUNDED, 4),
    (RING_OF_THREE, 3),
];

#[test]
fn signs_are_found_once(rt: HostRuntime) -> Result<(), Fail> {
    let alloc = rt.alloc();
    for (sketch, cell) in &WITH_AND_WITHOUT_SIGNS {
        assert!(rt; are_alike_in(alloc, *sketch, *cell)?);
    }
    Ok(())
}

// How many improvements a question took that was cut off after one, where the signs are known before.
fn cut_off(alloc: Global, case: &Case) -> Result<Option<u64>, Fail> {
    let signed = SignedSystem::of(alloc, &case.system)?;
    let question = Question {
        cell: 3,
        side: Side::Below,
        target: 6,
    };
    match signed_answer_of(alloc, &signed, case, question, 1) {
        Some(Err(AskFault::Work(walk))) => Ok(Some(walk.tableau.improved())),
        _ => Ok(None),
    }
}

// The same about the ring.
fn ring_cut_off(alloc: Global) -> Result<Option<u64>, Fail> {
    match case_of(alloc, RING_OF_THREE)? {
        Some(case) => cut_off(alloc, &case),
        None => Ok(None),
    }
}

#[test]
fn walk_is_cut_off_where_signs_are_known(rt: HostRuntime) -> Result<(), Fail> {
    assert_eq!(rt; ring_cut_off(rt.alloc())?, Some(1));
    Ok(())
}
