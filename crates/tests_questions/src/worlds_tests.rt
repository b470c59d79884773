ghost use Rattle.std.specs.Prelude.{◌<◌, true};
ghost use Rattle.sdc_base.specs.declared.cell.Kind.TheVariants.{Primary};

use fixture_cells::{SHOWN_MARGINS, TWO_BY_TWO, cell_of, hidden_of, shown_cell, system_of};
use sdc_base::{Cell, Hidden, Items, Kind, Side, System};
use std::alloc::Global;
use std::rt::HostRuntime;
use std::test::Fail;
use worlds::{
    Move, Multipliers, ProtectFault, Protected, RefutationFault, World, WorldFault, bound_sum,
    check_refutation, check_world, reaches,
};

// The cells of a table with shown margins; where bounds are stated, the cell of the first and the second code has them.
fn cells_of(alloc: Global, bounds: Option<(i128, i128)>) -> Result<Vec<Cell>, Fail> {
    let mut cells = Vec::new(alloc);
    for (truth, kind) in &SHOWN_MARGINS {
        cells.push(cell_of(*truth, *kind, 6))?;
    }
    if let Some((low, high)) = bounds {
        if 0 <= low && low <= 50 && 50 <= high && cells.len() > 5 {
            cells[5] = shown_cell(50, low, Some(high), Kind::Free);
        }
    }
    Ok(cells)
}

fn world_of(alloc: Global, den: i128, moves: &[(u32, i128)]) -> Result<World, Fail> {
    let mut all = Vec::new(alloc);
    for (cell, by) in moves {
        all.push(Move {
            cell: *cell,
            by: *by,
        })?;
    }
    Ok(World {
        den,
        moves: Items::new(all),
    })
}

// A table of two by two: its system, its cells and which are hidden.
#[derive(Drop)]
struct Trial {
    system: System,
    cells: Vec<Cell>,
    hidden: Hidden,
}

// The table with these bounds of one cell and these cells hidden; none where it has no system.
fn trial_of(
    alloc: Global,
    bounds: Option<(i128, i128)>,
    hidden: &[u32],
) -> Result<Option<Trial>, Fail> {
    let Some(system) = system_of(alloc, 9, &TWO_BY_TWO)? else {
        return Ok(None);
    };
    let cells = cells_of(alloc, bounds)?;
    let hidden = hidden_of(alloc, 9, hidden)?;
    Ok(Some(Trial {
        system,
        cells,
        hidden,
    }))
}

// What a check of a world says; none where the table can't be asked so.
fn world_answer(alloc: Global, trial: &Trial, world: &World) -> Option<Result<(), WorldFault>> {
    let size = trial.system.cells as usize;
    if trial.cells.len() != size || trial.hidden.flags.as_slice().len() != size {
        return None;
    }
    let Ok(mut scratch) = Vec::from_elem(alloc, 0i128, size) else {
        return None;
    };
    Some(check_world(
        &trial.system,
        &trial.cells,
        &trial.hidden,
        world,
        &mut scratch,
    ))
}

// The fault of a world where the four inner cells are hidden; none where something lacks.
fn world_fault(
    alloc: Global,
    den: i128,
    moves: &[(u32, i128)],
) -> Result<Option<Result<(), WorldFault>>, Fail> {
    let world = world_of(alloc, den, moves)?;
    let Some(trial) = trial_of(alloc, None, &[4, 5, 7, 8])? else {
        return Ok(None);
    };
    Ok(world_answer(alloc, &trial, &world))
}

// Denominators and moves of worlds, and what a check says of them.
const CHECKED_WORLDS: [(i128, &[(u32, i128)], Result<(), WorldFault>); 14] = [
    (1, &[(4, 6), (5, -6), (7, -6), (8, 6)], Ok(())),
    (2, &[(4, 13), (5, -13), (7, -13), (8, 13)], Ok(())),
    (i128::MAX, &[(4, 1), (5, -1), (7, -1), (8, 1)], Ok(())),
    (
        1,
        &[(4, 7), (5, -6), (7, -6), (8, 6)],
        Err(WorldFault::Relation(2)),
    ),
    (
        1,
        &[(4, 6), (5, -6), (7, -31), (8, 6)],
        Err(WorldFault::Bound(7)),
    ),
    (1, &[(4, 30), (5, -30), (7, -30), (8, 30)], Ok(())),
    (0, &[(4, 6), (5, -6), (7, -6), (8, 6)], Err(WorldFault::Den)),
    (
        -1,
        &[(9, 0), (5, -6), (7, -6), (8, 6)],
        Err(WorldFault::Den),
    ),
    (
        1,
        &[(4, 6), (4, 6), (7, -31), (1, 6)],
        Err(WorldFault::Order(1)),
    ),
    (
        1,
        &[(4, 6), (5, 0), (7, -31), (8, 6)],
        Err(WorldFault::Order(1)),
    ),
    (
        1,
        &[(1, 6), (5, -6), (7, -31), (9, 6)],
        Err(WorldFault::Order(3)),
    ),
    (
        1,
        &[(4, i128::MAX), (5, i128::MIN), (7, 1), (8, 1)],
        Err(WorldFault::Bound(5)),
    ),
    (
        1,
        &[(4, i128::MAX), (5, i128::MAX), (7, 1), (8, 1)],
        Err(WorldFault::Relation(2)),
    ),
    (
        1,
        &[(1, 1), (4, 6), (5, -6), (7, -6), (8, 6)],
        Err(WorldFault::Shown(1)),
    ),
];

#[test]
fn worlds_of_two_by_two(rt: HostRuntime) -> Result<(), Fail> {
    let alloc = rt.alloc();
    for (den, moves, wanted) in &CHECKED_WORLDS {
        assert_eq!(rt; world_fault(alloc, *den, moves)?, Some(*wanted));
    }
    Ok(())
}

// The answers on multipliers for a cell: the bound sum, and the refutation.
type Refutation = (Result<i128, RefutationFault>, Result<(), RefutationFault>);

// The answers on multipliers for the primary cell; none where the table can't be asked so.
fn refutation_answer(
    alloc: Global,
    trial: &Trial,
    side: Side,
    multipliers: &Multipliers,
) -> Option<Refutation> {
    let size = trial.system.cells as usize;
    if trial.cells.len() != size || trial.hidden.flags.as_slice().len() != size || size <= 4 {
        return None;
    }
    let Ok(mut scratch) = Vec::from_elem(alloc, 7i128, size) else {
        return None;
    };
    let Trial {
        system,
        cells,
        hidden,
    } = trial;
    let sum = bound_sum(system, cells, hidden, 4, side, multipliers, &mut scratch);
    let answer = check_refutation(system, cells, hidden, 4, side, multipliers, &mut scratch);
    Some((sum, answer))
}

// The answers on multipliers for the primary cell where it and the cell beside it are hidden, which may have bounds;
// none where something lacks.
fn refutation_fault(
    alloc: Global,
    bounds: Option<(i128, i128)>,
    side: Side,
    den: i128,
    by_relation: &[(u32, i128)],
) -> Result<Option<Refutation>, Fail> {
    let multipliers = Multipliers {
        den,
        by_relation: Items::new(Vec::from_slice(alloc, by_relation)?),
    };
    let Some(trial) = trial_of(alloc, bounds, &[4, 5])? else {
        return Ok(None);
    };
    Ok(refutation_answer(alloc, &trial, side, &multipliers))
}

const NARROW: Option<(i128, i128)> = Some((48, 52));

const BROAD: Option<(i128, i128)> = Some((40, 56));

// The bounds of the cell beside, the side, the denominator and the times of relation 4, and their bound sum and
// refutation.
type CheckedTimes = (
    Option<(i128, i128)>,
    Side,
    i128,
    i128,
    Result<i128, RefutationFault>,
    Result<(), RefutationFault>,
);

const CHECKED_MULTIPLIERS: [CheckedTimes; 14] = [
    (NARROW, Side::Above, 1, 1, Ok(2), Ok(())),
    (NARROW, Side::Below, 1, -1, Ok(2), Ok(())),
    (NARROW, Side::Above, 2, 2, Ok(4), Ok(())),
    (
        BROAD,
        Side::Above,
        1,
        1,
        Ok(10),
        Err(RefutationFault::NotBelow),
    ),
    (
        BROAD,
        Side::Below,
        1,
        -1,
        Ok(6),
        Err(RefutationFault::NotBelow),
    ),
    (
        NARROW,
        Side::Above,
        0,
        1,
        Err(RefutationFault::Den),
        Err(RefutationFault::Den),
    ),
    (
        NARROW,
        Side::Above,
        1,
        0,
        Err(RefutationFault::Order(0)),
        Err(RefutationFault::Order(0)),
    ),
    (
        NARROW,
        Side::Above,
        2,
        1,
        Err(RefutationFault::Unbounded(4)),
        Err(RefutationFault::Unbounded(4)),
    ),
    (
        None,
        Side::Below,
        1,
        -1,
        Err(RefutationFault::Unbounded(5)),
        Err(RefutationFault::Unbounded(5)),
    ),
    (
        NARROW,
        Side::Above,
        1,
        i128::MIN,
        Err(RefutationFault::Wide(4)),
        Err(RefutationFault::Wide(4)),
    ),
    (
        NARROW,
        Side::Below,
        1,
        i128::MIN,
        Err(RefutationFault::Wide(5)),
        Err(RefutationFault::Wide(5)),
    ),
    (
        NARROW,
        Side::Above,
        1,
        i128::MAX,
        Err(RefutationFault::Wide(4)),
        Err(RefutationFault::Wide(4)),
    ),
    (
        NARROW,
        Side::Above,
        i128::MAX,
        i128::MAX,
        Err(RefutationFault::Wide(5)),
        Err(RefutationFault::Wide(5)),
    ),
    (
        Some((50, 50)),
        Side::Above,
        i128::MAX,
        i128::MAX,
        Ok(0),
        Err(RefutationFault::Wide(4)),
    ),
];

#[test]
fn refutations_of_two_by_two(rt: HostRuntime) -> Result<(), Fail> {
    let alloc = rt.alloc();
    for (bounds, side, den, times, sum, wanted) in &CHECKED_MULTIPLIERS {
        let told = refutation_fault(alloc, *bounds, *side, *den, &[(4, *times)])?;
        assert_eq!(rt; told, Some((*sum, *wanted)));
    }
    Ok(())
}

// No multipliers leave the cell unbounded, and those of a relation that isn't there are out of order.
const OTHER_MULTIPLIERS: [(&[(u32, i128)], RefutationFault); 2] = [
    (&[], RefutationFault::Unbounded(4)),
    (&[(4, 1), (6, 1)], RefutationFault::Order(1)),
];

#[test]
fn multipliers_of_none_and_of_too_many_relations(rt: HostRuntime) -> Result<(), Fail> {
    let alloc = rt.alloc();
    for (by_relation, fault) in &OTHER_MULTIPLIERS {
        let told = refutation_fault(alloc, NARROW, Side::Above, 1, by_relation)?;
        assert_eq!(rt; told, Some((Err(*fault), Err(*fault))));
    }
    Ok(())
}

fn count(flags: &[bool]) -> usize {
    flags.iter().filter(|is_hidden| **is_hidden).count()
}

// How many cells a hidden set with worlds hides, or its first fault; none where the table can't be asked so.
fn protection_answer(
    alloc: Global,
    trial: Trial,
    worlds: Vec<World>,
) -> Option<Result<usize, ProtectFault>> {
    let Trial {
        system,
        cells,
        hidden,
    } = trial;
    let size = system.cells as usize;
    if cells.len() != size || hidden.flags.as_slice().len() != size {
        return None;
    }
    let Ok(mut scratch) = Vec::from_elem(alloc, 0i128, size) else {
        return None;
    };
    match Protected::new(&system, &cells, hidden, Items::new(worlds), &mut scratch) {
        Ok(protected) => Some(Ok(count(protected.hidden().flags.as_slice()))),
        Err(fault) => Some(Err(fault)),
    }
}

// The moves of a world of the four inner cells.
type Moves = [(u32, i128); 4];

fn worlds_of(alloc: Global, all: &[Moves]) -> Result<Vec<World>, Fail> {
    let mut worlds = Vec::new(alloc);
    for moves in all {
        worlds.push(world_of(alloc, 1, moves)?)?;
    }
    Ok(worlds)
}

// What a hidden set with worlds comes to: how many cells it hides, or its first fault.
fn protected_by(
    alloc: Global,
    hidden: &[u32],
    worlds: &[Moves],
) -> Result<Option<Result<usize, ProtectFault>>, Fail> {
    let worlds = worlds_of(alloc, worlds)?;
    let Some(trial) = trial_of(alloc, None, hidden)? else {
        return Ok(None);
    };
    Ok(protection_answer(alloc, trial, worlds))
}

const UP: Moves = [(4, 6), (5, -6), (7, -6), (8, 6)];

const DOWN: Moves = [(4, -6), (5, 6), (7, 6), (8, -6)];

const SHORT: Moves = [(4, 5), (5, -5), (7, -5), (8, 5)];

const BROKEN: Moves = [(4, 7), (5, -6), (7, -6), (8, 6)];

// The four inner cells.
const INNER: &[u32] = &[4, 5, 7, 8];

// Hidden cells and worlds, and what they come to.
const PROTECTED_SETS: [(&[u32], &[Moves], Result<usize, ProtectFault>); 10] = [
    (INNER, &[UP, DOWN], Ok(4)),
    (&[5, 7, 8], &[], Err(ProtectFault::PrimaryShown(4))),
    (&[0, 4, 5, 7, 8], &[UP], Err(ProtectFault::FixedHidden(0))),
    (INNER, &[UP], Err(ProtectFault::Count)),
    (INNER, &[UP, DOWN, UP], Err(ProtectFault::Count)),
    (
        INNER,
        &[UP, BROKEN],
        Err(ProtectFault::World(1, WorldFault::Relation(2))),
    ),
    (
        &[4],
        &[UP, DOWN],
        Err(ProtectFault::World(0, WorldFault::Shown(5))),
    ),
    (
        INNER,
        &[DOWN, UP],
        Err(ProtectFault::NotReached(4, Side::Above)),
    ),
    (
        INNER,
        &[SHORT, BROKEN],
        Err(ProtectFault::NotReached(4, Side::Above)),
    ),
    (
        INNER,
        &[UP, UP],
        Err(ProtectFault::NotReached(4, Side::Below)),
    ),
];

#[test]
fn protected_two_by_two(rt: HostRuntime) -> Result<(), Fail> {
    let alloc = rt.alloc();
    for (hidden, worlds, wanted) in &PROTECTED_SETS {
        assert_eq!(rt; protected_by(alloc, hidden, worlds)?, Some(*wanted));
    }
    Ok(())
}

// Whether a primary cell of 20 with the level 6 goes far enough in a world with this denominator and move.
fn is_reached(alloc: Global, side: Side, den: i128, by: i128) -> Result<bool, Fail> {
    let cell = cell_of(20, Kind::Primary, 6);
    let world = world_of(alloc, den, &[(1, 9), (4, by)])?;
    Ok(reaches(&cell, side, 4, &world))
}

// The side, the denominator and the move of a cell, and whether its level is reached.
const LEVELS: [(Side, i128, i128, bool); 11] = [
    (Side::Above, 1, 6, true),
    (Side::Above, 1, 5, false),
    (Side::Above, 2, 11, false),
    (Side::Above, 2, 12, true),
    (Side::Above, i128::MAX, i128::MAX, false),
    (Side::Below, 1, -6, true),
    (Side::Below, 1, -5, false),
    (Side::Below, 2, -12, true),
    (Side::Below, i128::MAX, i128::MIN, false),
    (Side::Above, i128::MIN, i128::MIN, true),
    (Side::Below, i128::MIN, i128::MAX, true),
];

#[test]
fn levels_reached(rt: HostRuntime) -> Result<(), Fail> {
    let alloc = rt.alloc();
    for (side, den, by, wanted) in &LEVELS {
        assert_eq!(rt; is_reached(alloc, *side, *den, *by)?, *wanted);
    }
    Ok(())
}
