use crate::tables::{
    CORNERS, CUBE, CUBE_HIDDEN, CUBE_TRUTHS, Small, TENS, THREE_BY_THREE, THREES,
    TWO_BY_TWO_BY_TWO, make_small,
};
use compact_search::{CompactSearch, Found};
use fixture_cells::{TWO_BY_TWO, hidden_of};
use sdc_base::{Hidden, Items, Side};
use std::alloc::Global;
use std::rt::HostRuntime;
use std::test::Fail;
use worlds::{Multipliers, World, bound_sum, check_world};

// Further than any cell goes.
const FAR: i128 = 1_000_000;

// What an answer comes to: the move over its den, whether the target is reached, and whether its checks pass.
#[derive(Clone, Copy, PartialEq, Eq, Debug)]
struct Answer {
    reached: bool,
    num: i128,
    den: i128,
    is_right: bool,
}

// The move of a cell in a world, by size.
fn move_in(world: &World, cell: u32) -> i128 {
    for one in world.moves.as_slice() {
        if one.cell == cell {
            return one.by.checked_abs().unwrap_or(0);
        }
    }
    0
}

// Whether a world is one.
fn is_world(alloc: Global, small: &Small, hidden: &Hidden, world: &World) -> bool {
    let size = small.system.cells as usize;
    if small.cells.len() != size || hidden.flags.as_slice().len() != size {
        return false;
    }
    let Ok(mut scratch) = Vec::from_elem(alloc, 0, size) else {
        return false;
    };
    check_world(&small.system, &small.cells, hidden, world, &mut scratch).is_ok()
}

// The bound sum of multipliers.
fn sum_of(
    alloc: Global,
    small: &Small,
    hidden: &Hidden,
    cell: u32,
    side: Side,
    multipliers: &Multipliers,
) -> Option<i128> {
    let size = small.system.cells as usize;
    if small.cells.len() != size || hidden.flags.as_slice().len() != size {
        return None;
    }
    if cell >= small.system.cells {
        return None;
    }
    let mut scratch = Vec::from_elem(alloc, 0, size).ok()?;
    bound_sum(
        &small.system,
        &small.cells,
        hidden,
        cell,
        side,
        multipliers,
        &mut scratch,
    )
    .ok()
}

// What an answer comes to.
fn answer_of(
    alloc: Global,
    small: &Small,
    hidden: &Hidden,
    asked: (u32, Side),
    found: &Found,
) -> Answer {
    match found {
        Found::Reaches(world) => Answer {
            reached: true,
            num: move_in(world, asked.0),
            den: world.den,
            is_right: is_world(alloc, small, hidden, world),
        },
        Found::Stops(stop) => {
            let sum = sum_of(alloc, small, hidden, asked.0, asked.1, &stop.multipliers);
            let own = sum.and_then(|sum| sum.checked_mul(stop.best.den));
            let best = stop.best.num.checked_mul(stop.multipliers.den);
            let far = move_in(&stop.world, asked.0).checked_mul(stop.best.den);
            let near = stop.best.num.checked_mul(stop.world.den);
            Answer {
                reached: false,
                num: stop.best.num,
                den: stop.best.den,
                is_right: own == best && far == near && is_world(alloc, small, hidden, &stop.world),
            }
        }
    }
}

// What a search answers with these cells hidden.
fn asked_of(
    alloc: Global,
    search: &mut CompactSearch,
    small: &Small,
    hidden: &Hidden,
    asked: (u32, Side),
    target: i128,
) -> Option<Answer> {
    let found = search.ask(alloc, asked.0, asked.1, target, 1000)?;
    Some(answer_of(alloc, small, hidden, asked, &found))
}

// A search over a small system.
fn search_of(alloc: Global, small: &Small) -> Option<CompactSearch> {
    CompactSearch::new(
        alloc,
        &small.system,
        &small.cells,
        small.hidden.flags.as_slice(),
        &small.relations,
    )
}

// A right answer that stops at, or else reaches, so many units.
fn right(reached: bool, num: i128) -> Option<Answer> {
    Some(Answer {
        reached,
        num,
        den: 1,
        is_right: true,
    })
}

#[test]
fn ends_of_two_by_two(rt: HostRuntime) -> Result<(), Fail> {
    let alloc = rt.alloc();
    let truths = [140, 50, 90, 70, 20, 50, 70, 30, 40];
    let Some(small) = make_small(alloc, &TWO_BY_TWO, &truths, &[4, 5, 7, 8])? else {
        return Ok(());
    };
    let Some(mut search) = search_of(alloc, &small) else {
        assert!(rt; false);
        return Ok(());
    };
    let wanted = [
        (4, Side::Above, FAR, right(false, 30)),
        (4, Side::Below, FAR, right(false, 20)),
        (5, Side::Above, FAR, right(false, 20)),
        (5, Side::Below, FAR, right(false, 30)),
        (8, Side::Below, FAR, right(false, 20)),
        (7, Side::Below, 7, right(true, 7)),
        (8, Side::Above, 30, right(true, 30)),
    ];
    for (cell, side, target, answer) in &wanted {
        let asked = (*cell, *side);
        let got = asked_of(alloc, &mut search, &small, &small.hidden, asked, *target);
        assert_eq!(rt; got, *answer);
    }
    Ok(())
}

// A search for worlds alone over a small system.
fn world_search_of(alloc: Global, small: &Small) -> Option<CompactSearch> {
    CompactSearch::for_worlds(
        alloc,
        &small.system,
        &small.cells,
        small.hidden.flags.as_slice(),
        &small.relations,
    )
}

#[test]
fn worlds_alone_of_two_by_two(rt: HostRuntime) -> Result<(), Fail> {
    let alloc = rt.alloc();
    let truths = [140, 50, 90, 70, 20, 50, 70, 30, 40];
    let Some(small) = make_small(alloc, &TWO_BY_TWO, &truths, &[4, 5, 7, 8])? else {
        return Ok(());
    };
    let Some(mut search) = world_search_of(alloc, &small) else {
        assert!(rt; false);
        return Ok(());
    };
    let wanted = [
        (4, Side::Above, 30, right(true, 30)),
        (4, Side::Above, 31, None),
        (4, Side::Below, 20, right(true, 20)),
        (5, Side::Below, 31, None),
        (7, Side::Below, 7, right(true, 7)),
        (8, Side::Above, FAR, None),
    ];
    for (cell, side, target, answer) in &wanted {
        let asked = (*cell, *side);
        let got = asked_of(alloc, &mut search, &small, &small.hidden, asked, *target);
        assert_eq!(rt; got, *answer);
    }
    Ok(())
}

// A search for ends alone over a small system.
fn end_search_of(alloc: Global, small: &Small) -> Option<CompactSearch> {
    CompactSearch::for_ends(
        alloc,
        &small.system,
        &small.cells,
        small.hidden.flags.as_slice(),
        &small.relations,
    )
}

// What each search over two by two cells answers about the first of them.
const BY_SEARCH: [(i128, bool, i128); 3] = [(30, true, 30), (31, false, 30), (FAR, false, 30)];

// Whether a search moves the first cell of two by two up by 30 and no further.
fn rises_by_thirty(alloc: Global, search: &mut CompactSearch, small: &Small) -> bool {
    for (target, reached, num) in &BY_SEARCH {
        let above = (4, Side::Above);
        let got = asked_of(alloc, search, small, &small.hidden, above, *target);
        if got != right(*reached, *num) {
            return false;
        }
    }
    true
}

// Whether a search for ends says so, and one for worlds with its equations finds a world just as far.
fn ends_are_found(alloc: Global, small: &Small) -> bool {
    let Some(mut ends) = end_search_of(alloc, small) else {
        return false;
    };
    if !rises_by_thirty(alloc, &mut ends, small) {
        return false;
    }
    let Some(mut worlds) = ends.worlds_alone(alloc) else {
        return false;
    };
    let above = (4, Side::Above);
    let found = asked_of(alloc, &mut worlds, small, &small.hidden, above, 30);
    let none = asked_of(alloc, &mut worlds, small, &small.hidden, above, 31);
    found == right(true, 30) && none.is_none()
}

// Whether a search says so that took the equations over from one without the last cell, where none can move.
fn equations_are_taken_over(alloc: Global, small: &Small, fewer: &Small) -> bool {
    let (Some(mut larger), Some(mut smaller)) = (search_of(alloc, small), search_of(alloc, fewer))
    else {
        return false;
    };
    let above = (4, Side::Above);
    let none = asked_of(alloc, &mut smaller, fewer, &fewer.hidden, above, 6);
    if none != right(false, 0) || larger.take_over(alloc, &smaller).is_none() {
        return false;
    }
    rises_by_thirty(alloc, &mut larger, small)
}

#[test]
fn searches_made_of_others(rt: HostRuntime) -> Result<(), Fail> {
    let alloc = rt.alloc();
    let truths = [140, 50, 90, 70, 20, 50, 70, 30, 40];
    let small = make_small(alloc, &TWO_BY_TWO, &truths, &[4, 5, 7, 8])?;
    let fewer = make_small(alloc, &TWO_BY_TWO, &truths, &[4, 5, 7])?;
    let (Some(small), Some(fewer)) = (small, fewer) else {
        assert!(rt; false);
        return Ok(());
    };
    assert!(rt; ends_are_found(alloc, &small));
    assert!(rt; equations_are_taken_over(alloc, &small, &fewer));
    Ok(())
}

#[test]
fn eight_cells_with_one_left_out(rt: HostRuntime) -> Result<(), Fail> {
    let alloc = rt.alloc();
    let Some(small) = make_small(alloc, &TWO_BY_TWO_BY_TWO, &TENS, &CORNERS)? else {
        return Ok(());
    };
    let Some(mut search) = search_of(alloc, &small) else {
        assert!(rt; false);
        return Ok(());
    };
    let above = (13, Side::Above);
    let got = asked_of(alloc, &mut search, &small, &small.hidden, above, 6);
    assert_eq!(rt; got, right(true, 6));
    let got = asked_of(alloc, &mut search, &small, &small.hidden, above, 11);
    assert_eq!(rt; got, right(false, 10));
    assert!(rt; search.leave_out(alloc, 26).is_some());
    let fewer = hidden_of(alloc, 27, &[13, 14, 16, 17, 22, 23, 25])?;
    let got = asked_of(alloc, &mut search, &small, &fewer, above, 6);
    assert_eq!(rt; got, right(false, 0));
    assert!(rt; search.take_back(26).is_some());
    let below = (13, Side::Below);
    let got = asked_of(alloc, &mut search, &small, &small.hidden, below, 10);
    assert_eq!(rt; got, right(true, 10));
    Ok(())
}

#[test]
fn a_total_rises_with_its_part(rt: HostRuntime) -> Result<(), Fail> {
    let alloc = rt.alloc();
    let Some(small) = make_small(alloc, &[(0, &[1, 2])], &[9, 4, 5], &[0, 1])? else {
        return Ok(());
    };
    let Some(mut search) = search_of(alloc, &small) else {
        assert!(rt; false);
        return Ok(());
    };
    let above = (0, Side::Above);
    let got = asked_of(alloc, &mut search, &small, &small.hidden, above, 7);
    assert_eq!(rt; got, right(true, 7));
    let below = (0, Side::Below);
    let got = asked_of(alloc, &mut search, &small, &small.hidden, below, 7);
    assert_eq!(rt; got, right(false, 4));
    Ok(())
}

// The hidden cells of three by three.
const NINE: [u32; 9] = [5, 6, 7, 9, 10, 11, 13, 14, 15];

// Whether each end of each cell is right while these are hidden.
fn are_ends_right(alloc: Global, search: &mut CompactSearch, small: &Small, out: u32) -> bool {
    let Ok(mut hidden) = hidden_of(alloc, 16, &NINE) else {
        return false;
    };
    let mut flags = hidden.flags.into_vec();
    if let Some(flag) = flags.get_mut(out as usize) {
        *flag = false;
    }
    hidden = Hidden {
        flags: Items::new(flags),
    };
    for cell in &NINE {
        for side in &[Side::Above, Side::Below] {
            if *cell != out {
                let got = asked_of(alloc, search, small, &hidden, (*cell, *side), FAR);
                match got {
                    Some(answer) if answer.is_right && !answer.reached => {}
                    _ => return false,
                }
            }
        }
    }
    true
}

#[test]
fn each_end_of_three_by_three(rt: HostRuntime) -> Result<(), Fail> {
    let alloc = rt.alloc();
    let Some(small) = make_small(alloc, &THREE_BY_THREE, &THREES, &NINE)? else {
        return Ok(());
    };
    let Some(mut search) = search_of(alloc, &small) else {
        assert!(rt; false);
        return Ok(());
    };
    assert!(rt; are_ends_right(alloc, &mut search, &small, 0));
    for out in &NINE {
        assert!(rt; search.leave_out(alloc, *out).is_some());
        assert!(rt; are_ends_right(alloc, &mut search, &small, *out));
        assert!(rt; search.take_back(*out).is_some());
    }
    assert!(rt; are_ends_right(alloc, &mut search, &small, 0));
    Ok(())
}

// The hidden flags but for one cell.
fn but(alloc: Global, hidden: &Hidden, out: u32) -> Option<Hidden> {
    let mut flags = hidden.flags.as_slice().to_vec(alloc).ok()?;
    if let Some(flag) = flags.get_mut(out as usize) {
        *flag = false;
    }
    Some(Hidden {
        flags: Items::new(flags),
    })
}

// How many of all questions about a small system are answered wrongly, how many by a fraction, and how many all are.
fn tally(
    alloc: Global,
    search: &mut CompactSearch,
    small: &Small,
    out: u32,
    counts: &mut [u32; 3],
) -> Option<()> {
    let hidden = but(alloc, &small.hidden, out)?;
    for (cell, flag) in hidden.flags.as_slice().iter().enumerate() {
        if *flag {
            for side in &[Side::Above, Side::Below] {
                for target in &[FAR, 2] {
                    let asked = (u32::try_from(cell).ok()?, *side);
                    let answer = asked_of(alloc, search, small, &hidden, asked, *target)?;
                    if !answer.is_right
                        || (answer.reached && answer.num != answer.den.checked_mul(*target)?)
                    {
                        counts[0] = counts[0].checked_add(1)?;
                    }
                    if answer.den != 1 {
                        counts[1] = counts[1].checked_add(1)?;
                    }
                    counts[2] = counts[2].checked_add(1)?;
                }
            }
        }
    }
    Some(())
}

#[test]
fn many_questions_of_a_cube(rt: HostRuntime) -> Result<(), Fail> {
    let alloc = rt.alloc();
    let Some(small) = make_small(alloc, &CUBE, &CUBE_TRUTHS, &CUBE_HIDDEN)? else {
        return Ok(());
    };
    let Some(mut search) = search_of(alloc, &small) else {
        assert!(rt; false);
        return Ok(());
    };
    let mut counts = [0, 0, 0];
    assert!(rt; tally(alloc, &mut search, &small, 1000, &mut counts).is_some());
    let mut left = 0;
    for out in &CUBE_HIDDEN {
        if left < 8 {
            left += 1;
            assert!(rt; search.leave_out(alloc, *out).is_some());
            assert!(rt; tally(alloc, &mut search, &small, *out, &mut counts).is_some());
            assert!(rt; search.take_back(*out).is_some());
        }
    }
    // None is wrong of 4 for each hidden cell, all 33 of them and then 32 eight times.
    assert_eq!(rt; (counts[0], counts[2]), (0, 1156));
    assert!(rt; counts[1] > 0);
    Ok(())
}
