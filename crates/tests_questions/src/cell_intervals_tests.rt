ghost use Rattle.std.specs.Prelude.{◌≡◌, ◌≤◌, ◌≤ℤ◌, ◌^◌, All, true, pos};

use crate::cases::{Case, FOUR_HIDDEN, RING_OF_THREE, Sketch, case_of, parts_hidden};
use cell_intervals::{CellInterval, interval_text, intervals_of};
use interval_audit::AskFault;
use sdc_base::{Cell, Items};
use std::alloc::Global;
use std::rt::HostRuntime;
use std::test::Fail;

// Whether no truth is above the greatest.
fn are_in_range(cells: &[Cell]) -> bool
    ensures { result ≡ true → All (λ cell. cell.truth ≤ℤ pos (10 ^ 29)) cells.now }
{
    cells.iter().all(|cell| cell.truth <= 100_000_000_000_000_000_000_000_000_000)
}

// The intervals of a case; none where it can't be asked so.
fn intervals_in(
    alloc: Global,
    case: &Case,
    limit: u64,
) -> Option<Result<Items<CellInterval>, AskFault>> {
    let size = case.system.cells as usize;
    let flags = case.hidden.flags.as_slice();
    if case.cells.len() != size || flags.len() != size || limit < 1 {
        return None;
    }
    let cells = case.cells.as_slice();
    if !are_in_range(cells) {
        return None;
    }
    Some(intervals_of(alloc, &case.system, cells, &case.hidden, limit))
}

// Whether the file of the intervals of a case is this one, with a limit of 100.
fn has_text(alloc: Global, case: &Case, wanted: &[u8]) -> bool {
    let Some(Ok(intervals)) = intervals_in(alloc, case, 100) else {
        return false;
    };
    let Ok(text) = interval_text(alloc, intervals.as_slice()) else {
        return false;
    };
    text.as_slice() == wanted
}

// The same for what a sketch is of.
fn is_text_of(alloc: Global, sketch: Sketch<'_>, wanted: &[u8]) -> Result<bool, Fail> {
    let Some(case) = case_of(alloc, sketch)? else {
        return Ok(false);
    };
    Ok(has_text(alloc, &case, wanted))
}

// A cell in no relation, without an upper bound, beside one that has bounds and is shown.
const ONE_OPEN: Sketch<'static> = Sketch {
    relations: &[],
    truths: &[5, 7],
    bounded: (0, 3, Some(8)),
    hidden: &[1],
};

// Cases and the files of their intervals.
const TEXTS: [(Sketch<'static>, &[u8]); 3] = [
    // all four cells move together: by 20 at most until cell 4 is 0, and by 30 at most until cell 7 is
    (
        FOUR_HIDDEN,
        b"cell,low,high\n4,0,50\n5,20,70\n7,0,50\n8,20,70\n",
    ),
    // a cell without an upper bound is open
    (ONE_OPEN, b"cell,low,high\n1,0,open\n"),
    // cells 3, 4 and 5 in a ring: 3 and 4, and 4 and 5, have shown sums, so 4 moves against 3, and 5 moves with it;
    // cell 2, the sum of 3 and 5, moves by twice as much, and it may rise by 1 and fall by 2. So 3 and 5 fall by 1 and
    // rise by a half
    (
        RING_OF_THREE,
        b"cell,low,high\n2,18,21\n3,9,21/2\n4,19/2,11\n5,9,21/2\n",
    ),
];

#[test]
fn files_of_intervals(rt: HostRuntime) -> Result<(), Fail> {
    let alloc = rt.alloc();
    for (sketch, text) in &TEXTS {
        assert!(rt; is_text_of(alloc, *sketch, text)?);
    }
    Ok(())
}

// The cell of the first question that has no answer, where that is for the size of its component.
fn cell_too_large(alloc: Global, parts: u32) -> Result<Option<u32>, Fail> {
    let Some(large) = parts_hidden(alloc, parts, (0, 0, None))? else {
        return Ok(None);
    };
    match intervals_in(alloc, &large, 1) {
        Some(Err(AskFault::Size { question, hidden })) if hidden == parts => Ok(Some(
            question.cell,
        )),
        _ => Ok(None),
    }
}

// The cell of the first question of the ring that takes more than one improvement.
fn cell_cut_off(alloc: Global) -> Result<Option<u32>, Fail> {
    let Some(ring) = case_of(alloc, RING_OF_THREE)? else {
        return Ok(None);
    };
    match intervals_in(alloc, &ring, 1) {
        Some(Err(AskFault::Work(walk))) => Ok(Some(walk.question.cell)),
        _ => Ok(None),
    }
}

#[test]
fn first_question_of_a_component_too_large_is_named(rt: HostRuntime) -> Result<(), Fail> {
    assert_eq!(rt; cell_too_large(rt.alloc(), 4001)?, Some(1));
    Ok(())
}

#[test]
fn first_question_that_is_cut_off_is_named(rt: HostRuntime) -> Result<(), Fail> {
    assert_eq!(rt; cell_cut_off(rt.alloc())?, Some(2));
    Ok(())
}
