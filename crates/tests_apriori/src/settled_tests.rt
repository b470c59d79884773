use crate::apriori_tests::{MARGINS, added, are_ready, book_of, frequency_rule};
use apriori::{blank_priors, settle};
use fixture_cells::hidden_of;
use linked_tables::Book;
use relations::relations_of;
use sdc_base::{Cell, Items, Side, System};
use std::alloc::Global;
use std::rt::HostRuntime;
use std::test::Fail;
use worlds::{
    Move, Multipliers, ProtectFault, Protected, RefutationFault, World, WorldFault,
    check_refutation, check_world, reaches,
};

// The four inner cells of the first table, of which the first is primary.
const INNER: [u32; 4] = [4, 5, 7, 8];

// The cells of the two tables of thirteen records, and the relations between them.
#[derive(Drop)]
struct Settled {
    system: System,
    cells: Vec<Cell>,
}

// The same, by the frequency rule and with the margins shown.
fn thirteen_records(alloc: Global) -> Result<Settled, Fail> {
    let book = book_of(alloc, false)?;
    let Some(cells) = cells_in(alloc, &book)? else {
        return Err(Fail::new("the cells can't be settled"));
    };
    let system = relations_of(alloc, &book)?;
    Ok(Settled { system, cells })
}

// The settled cells of this book; none where they can't be settled so.
fn cells_in(alloc: Global, book: &Book) -> Result<Option<Vec<Cell>>, Fail> {
    let mut priors = blank_priors(alloc, book.cells())?;
    if added(alloc, book, &mut priors, (0, MARGINS), b',', 0) != Some(Ok(())) {
        return Ok(None);
    }
    let rules = frequency_rule();
    if !are_ready(book.marks(), &rules) {
        return Ok(None);
    }
    Ok(settle(alloc, book, &rules, &priors).ok())
}

// A world of whole numbers with these moves.
fn world_of(alloc: Global, moves: &[(u32, i128)]) -> Result<World, Fail> {
    let mut all = Vec::new(alloc);
    for (cell, by) in moves {
        all.push(Move {
            cell: *cell,
            by: *by,
        })?;
    }
    Ok(World {
        den: 1,
        moves: Items::new(all),
    })
}

// The fault of a world where the inner cells are hidden, and whether it takes the primary one as far up as its level
// wants.
fn world_answers(
    alloc: Global,
    settled: &Settled,
    moves: &[(u32, i128)],
) -> Result<Option<(Result<(), WorldFault>, bool)>, Fail> {
    let hidden = hidden_of(alloc, 15, &INNER)?;
    let world = world_of(alloc, moves)?;
    let mut scratch = vec![in alloc; 0i128; 15]?;
    let system = &settled.system;
    let cells = settled.cells.as_slice();
    let size = system.cells as usize;
    if cells.len() != size
        || hidden.flags.as_slice().len() != size
        || scratch.len() != size
        || system.cells <= 4
    {
        return Ok(None);
    }
    let answer = check_world(system, cells, &hidden, &world, &mut scratch);
    Ok(Some((answer, reaches(&cells[4], Side::Above, 4, &world))))
}

// How far each of the inner cells moves.
type Moves = [(u32, i128); 4];

// The level of the primary cell, of two records that make up 20, is 6: a world that takes it there; one in which its
// column doesn't add up; and one that stops before. Each with its fault, and whether it takes the cell there.
const WORLDS: [(Moves, (Result<(), WorldFault>, bool)); 3] = [
    ([(4, 6), (5, -6), (7, -6), (8, 6)], (Ok(()), true)),
    (
        [(4, 7), (5, -7), (7, -6), (8, 6)],
        (Err(WorldFault::Relation(3)), true),
    ),
    ([(4, 5), (5, -5), (7, -5), (8, 5)], (Ok(()), false)),
];

#[test]
fn worlds_of_settled_cells(rt: HostRuntime) -> Result<(), Fail> {
    let settled = thirteen_records(rt.alloc())?;
    for (moves, wanted) in &WORLDS {
        assert_eq!(rt; world_answers(rt.alloc(), &settled, moves)?, Some(*wanted));
    }
    Ok(())
}

// The answer on a refutation of the primary cell above by its column, where these cells are hidden.
fn refutation_answer(
    alloc: Global,
    settled: &Settled,
    hidden: &[u32],
) -> Result<Option<Result<(), RefutationFault>>, Fail> {
    let hidden = hidden_of(alloc, 15, hidden)?;
    let multipliers = Multipliers {
        den: 1,
        by_relation: Items::new(Vec::from_slice(alloc, &[(3, 1)])?),
    };
    let mut scratch = vec![in alloc; 0i128; 15]?;
    let system = &settled.system;
    let cells = settled.cells.as_slice();
    let size = system.cells as usize;
    if cells.len() != size
        || hidden.flags.as_slice().len() != size
        || scratch.len() != size
        || system.cells <= 4
    {
        return Ok(None);
    }
    Ok(Some(check_refutation(
        system,
        cells,
        &hidden,
        4,
        Side::Above,
        &multipliers,
        &mut scratch,
    )))
}

// Hidden with its row alone the primary cell can't move, as its column shows; hidden with its column too it can.
const REFUTATIONS: [(&[u32], Result<(), RefutationFault>); 2] = [
    (&[4, 5], Ok(())),
    (&[4, 5, 7, 8], Err(RefutationFault::NotBelow)),
];

#[test]
fn refutations_of_settled_cells(rt: HostRuntime) -> Result<(), Fail> {
    let settled = thirteen_records(rt.alloc())?;
    for (hidden, wanted) in &REFUTATIONS {
        assert_eq!(rt;
            refutation_answer(rt.alloc(), &settled, hidden)?,
            Some(*wanted)
        );
    }
    Ok(())
}

// The first fault of the inner cells as a hidden set, with a world above and one below.
fn protected_by(
    alloc: Global,
    settled: &Settled,
    above: &[(u32, i128)],
    below: &[(u32, i128)],
) -> Result<Option<Result<(), ProtectFault>>, Fail> {
    let hidden = hidden_of(alloc, 15, &INNER)?;
    let mut worlds = Vec::new(alloc);
    worlds.push(world_of(alloc, above)?)?;
    worlds.push(world_of(alloc, below)?)?;
    let mut scratch = vec![in alloc; 0i128; 15]?;
    let system = &settled.system;
    let cells = settled.cells.as_slice();
    let size = system.cells as usize;
    if cells.len() != size || hidden.flags.as_slice().len() != size || scratch.len() != size {
        return Ok(None);
    }
    match Protected::new(system, cells, hidden, Items::new(worlds), &mut scratch) {
        Ok(_) => Ok(Some(Ok(()))),
        Err(fault) => Ok(Some(Err(fault))),
    }
}

const UP: Moves = [(4, 6), (5, -6), (7, -6), (8, 6)];

const DOWN: Moves = [(4, -6), (5, 6), (7, 6), (8, -6)];

// The inner cells protect the primary one, as two worlds show; one of them doesn't show it twice.
const PROTECTED: [(Moves, Moves, Result<(), ProtectFault>); 2] = [
    (UP, DOWN, Ok(())),
    (UP, UP, Err(ProtectFault::NotReached(4, Side::Below))),
];

#[test]
fn settled_cells_are_protected(rt: HostRuntime) -> Result<(), Fail> {
    let settled = thirteen_records(rt.alloc())?;
    for (above, below, wanted) in &PROTECTED {
        assert_eq!(rt;
            protected_by(rt.alloc(), &settled, above, below)?,
            Some(*wanted)
        );
    }
    Ok(())
}
