ghost use Rattle.std.specs.Prelude.{◌≡◌, ◌≤ℤ◌, pos, true, All};
ghost use Rattle.cost_rule.specs.Costs.{IsTold};
ghost use Rattle.cost_rule.specs.declared.kind.CostKind.TheVariants as Kinds;

use crate::books::book_of;
use crate::costs::are_costed;
use code_trees::{CodeTree, flat};
use cost_rule::{CostKind, CostRule, TellsCosts};
use fixture_cells::{LINKED, bounded_cell, cell_of};
use fixture_records::place;
use hypercube::cheapest;
use linked_tables::Book;
use sdc_base::{Cell, CellFacts, Corner, Kind, Levels, Subtable, Text};
use std::alloc::Global;
use std::rt::HostRuntime;
use std::test::Fail;

// The truths of a table A by B by C, each variable with two codes: the place a, b, c has the number 9 a + 3 b + c.
const CUBIC: [u32; 27] = [
    53, 22, 31, 23, 12, 11, 30, 10, 20, 26, 11, 15, 10, 4, 6, 16, 7, 9, 27, 11, 16, 13, 8, 5, 14,
    3, 11,
];

// The total and so many other codes.
fn tree_of(alloc: Global, codes: u8) -> Result<CodeTree, Fail> {
    let mut below = Vec::new(alloc);
    for code in 0..codes {
        below.push(Text::from_slice(alloc, &[code])?)?;
    }
    Ok(flat(alloc, below.as_slice(), &Text::from_slice(alloc, b"Total")?)?)
}

// Three trees of the total and so many other codes.
fn three_trees(alloc: Global, codes: u8) -> Result<Vec<CodeTree>, Fail> {
    let mut trees = Vec::new(alloc);
    for _ in 0..3u8 {
        trees.push(tree_of(alloc, codes)?)?;
    }
    Ok(trees)
}

// Hides these cells.
fn hide(book: &mut Book, cells: &[u32]) {
    for cell in cells {
        if let Some(mark) = book.mark_mut(*cell) {
            mark.hidden = true;
        }
    }
}

// A book of these tables over three variables with so many codes below their totals, of which these cells are hidden.
fn hidden_book(
    alloc: Global,
    codes: u8,
    tables: &[&[u32]],
    truths: &[u32],
    hidden: &[u32],
) -> Result<Book, Fail> {
    let mut book = book_of(alloc, three_trees(alloc, codes)?, tables, truths)?;
    hide(&mut book, hidden);
    Ok(book)
}

// A cell that may be hidden for this price, with nothing known but that it is from 0.
fn free_cell(truth: i128, price: Option<u64>) -> Cell
    requires { pos 0 ≤ℤ truth }
{
    Cell {
        truth,
        low: 0,
        high: None,
        up: 0,
        down: 0,
        kind: Kind::Free,
        price,
    }
}

// Cells with these truths, of which these are always shown, each with this price.
fn cells_of(
    alloc: Global,
    truths: &[u32],
    fixed: &[u32],
    price: Option<u64>,
) -> Result<Vec<Cell>, Fail> {
    let mut cells = Vec::new(alloc);
    for (number, truth) in truths.iter().enumerate() {
        if fixed.iter().any(|cell| *cell as usize == number) {
            cells.push(cell_of(*truth, Kind::Fixed, 0))?;
        } else {
            cells.push(free_cell(i128::from(*truth), price))?;
        }
    }
    Ok(cells)
}

// The corners of the least cube of a cell in the subtable of the totals of table t, where it may be asked for.
fn least_by<F: TellsCosts + Drop>(
    alloc: Global,
    book: &Book,
    cells: &[Cell],
    f: F,
    t: u32,
    cell: u32,
    levels: Levels,
) -> Result<Option<Vec<Corner>>, Fail>
    requires told { IsTold F.may_ask F.may_say f Kinds.Value }
{
    let rule = CostRule::new(CostKind::Value, f);
    let ready = are_costed(book.marks()) && cell < book.cells();
    if !ready || levels.up < 0 || levels.down < 0 {
        return Err(Fail::new("a cell that no cube may be asked for"));
    }
    let totals: &[u32] = match book.spans(t) {
        Some(table) => &[0, 0, 0][..table.len().min(3)],
        None => &[],
    };
    let subtable = Subtable {
        table: t,
        parents: place(totals),
    };
    match cheapest(alloc, book, cells, &rule, &subtable, cell, levels)? {
        Some(cube) => Ok(Some(cube.corners.into_vec())),
        None => Ok(None),
    }
}

// The same with costs by value.
fn least(
    alloc: Global,
    book: &Book,
    cells: &[Cell],
    t: u32,
    cell: u32,
    levels: Levels,
) -> Result<Option<Vec<Corner>>, Fail> {
    let f = |facts: &CellFacts| CostKind::Value.cost(facts);
    least_by(alloc, book, cells, f, t, cell, levels)
}

// The corners are these, in this order.
fn are_corners(corners: &Option<Vec<Corner>>, meant: &[(u32, bool)]) -> bool {
    let Some(corners) = corners else {
        return false;
    };
    if corners.len() != meant.len() {
        return false;
    }
    corners.as_slice().iter().zip(meant).all(|(corner, one)| corner.cell == one.0
        && corner.plus == one.1)
}

// A cell of the two linked tables whose least cube is asked for: the cells that are hidden, the table and the cell, its
// levels up and down, and the cube's corners, none where it has no cube.
#[derive(Clone, Copy)]
struct LinkedCube {
    hidden: &'static [u32],
    at: (u32, u32),
    levels: (i128, i128),
    corners: Option<&'static [(u32, bool)]>,
}

// Whether the least cube is the one that is meant.
fn is_linked(alloc: Global, cells: &[Cell], cube: &LinkedCube) -> Result<bool, Fail> {
    let book = hidden_book(alloc, 2, &[&[0, 1], &[0, 2]], &LINKED, cube.hidden)?;
    let (up, down) = cube.levels;
    let corners = least(
        alloc,
        &book,
        cells,
        cube.at.0,
        cube.at.1,
        Levels { up, down },
    )?;
    match cube.corners {
        Some(meant) => Ok(are_corners(&corners, meant)),
        None => Ok(corners.is_none()),
    }
}

const FOUR_INNER: &[(u32, bool)] = &[(4, true), (5, false), (7, false), (8, true)];

const INNER_AND_MARGINS: &[(u32, bool)] = &[(3, true), (4, true), (6, false), (7, false)];

const FOUR_OF_THE_SECOND: &[(u32, bool)] = &[(3, true), (6, false), (11, true), (13, false)];

// The cells that are always shown, the price of each other one, and a cube.
const LINKED_CUBES: [(&[u32], Option<u64>, LinkedCube); 6] = [
    // the margins are always shown, so each partner is another child
    (
        &[0, 1, 2, 3, 6],
        None,
        LinkedCube {
            hidden: &[4],
            at: (0, 4),
            levels: (6, 6),
            corners: Some(FOUR_INNER),
        },
    ),
    // the corner with 30 falls to 0, and so does the cell itself
    (
        &[0, 1, 2, 3, 6],
        None,
        LinkedCube {
            hidden: &[4],
            at: (0, 4),
            levels: (30, 20),
            corners: Some(FOUR_INNER),
        },
    ),
    // a level more takes a corner below 0
    (
        &[0, 1, 2, 3, 6],
        None,
        LinkedCube {
            hidden: &[4],
            at: (0, 4),
            levels: (31, 20),
            corners: None,
        },
    ),
    (
        &[0, 1, 2, 3, 6],
        None,
        LinkedCube {
            hidden: &[4],
            at: (0, 4),
            levels: (30, 21),
            corners: None,
        },
    ),
    // a total is the cell: its partner in B is a child with the same sign, b1, which costs 21 and 31 with a2 71
    (
        &[],
        None,
        LinkedCube {
            hidden: &[3],
            at: (0, 3),
            levels: (1, 1),
            corners: Some(INNER_AND_MARGINS),
        },
    ),
    // three cubes cost the same; the total of A comes before its code a2, but the cells of its cube have higher numbers
    (
        &[0],
        Some(5),
        LinkedCube {
            hidden: &[11],
            at: (1, 11),
            levels: (1, 1),
            corners: Some(FOUR_OF_THE_SECOND),
        },
    ),
];

// Whether the least cube is the one that is meant, where these cells are always shown and the others have this price.
fn is_cube_of(
    alloc: Global,
    fixed: &[u32],
    price: Option<u64>,
    cube: &LinkedCube,
) -> Result<bool, Fail> {
    let cells = cells_of(alloc, &LINKED, fixed, price)?;
    is_linked(alloc, cells.as_slice(), cube)
}

#[test]
fn least_cubes_of_linked_tables(rt: HostRuntime) -> Result<(), Fail> {
    let alloc = rt.alloc();
    for (fixed, price, cube) in &LINKED_CUBES {
        assert!(rt; is_cube_of(alloc, fixed, *price, cube)?);
    }
    Ok(())
}

// The cells of the linked tables, of which that of the codes a1 and b2 is known to be from 48 to 52.
fn bounded_cells(alloc: Global) -> Result<Vec<Cell>, Fail> {
    let mut cells = cells_of(alloc, &LINKED, &[], None)?;
    if cells.len() > 5 {
        cells[5] = bounded_cell();
    }
    Ok(cells)
}

const BOUNDED_CUBES: [LinkedCube; 2] = [
    // one cell can't move by 6, so the partners are a2 and the total of B, which cost 31 and 71 and 71
    LinkedCube {
        hidden: &[4],
        at: (0, 4),
        levels: (6, 6),
        corners: Some(INNER_AND_MARGINS),
    },
    // what the first table hid costs nothing in the second
    LinkedCube {
        hidden: &[3, 4, 6, 7],
        at: (1, 3),
        levels: (1, 1),
        corners: Some(FOUR_OF_THE_SECOND),
    },
];

fn is_cube_beside_a_bound(alloc: Global, cube: &LinkedCube) -> Result<bool, Fail> {
    let cells = bounded_cells(alloc)?;
    is_linked(alloc, cells.as_slice(), cube)
}

#[test]
fn least_cubes_beside_a_bounded_cell(rt: HostRuntime) -> Result<(), Fail> {
    let alloc = rt.alloc();
    for cube in &BOUNDED_CUBES {
        assert!(rt; is_cube_beside_a_bound(alloc, cube)?);
    }
    Ok(())
}

const CUBE_OF_THE_TOTAL: LinkedCube = LinkedCube {
    hidden: &[4],
    at: (0, 4),
    levels: (1, 1),
    corners: Some(&[(1, true), (2, false), (4, true), (5, false)]),
};

// The cells of the linked tables at 5 each, but for those of b1 and b2 in the total of A at 10 and for nothing; that of
// a1 in the total of B is always shown.
fn cells_with_a_dearer_partner(alloc: Global) -> Result<Vec<Cell>, Fail> {
    let mut cells = cells_of(alloc, &LINKED, &[3], Some(5))?;
    if cells.len() > 2 {
        cells[1] = free_cell(50, Some(10));
        cells[2] = free_cell(90, Some(0));
    }
    Ok(cells)
}

// Two cubes cost 15. The numbers decide for the one of the total of A, which is the dearer partner: its own corner and
// that of b2 cost 15 already.
#[test]
fn ties_over_a_dearer_partner(rt: HostRuntime) -> Result<(), Fail> {
    let alloc = rt.alloc();
    let cells = cells_with_a_dearer_partner(alloc)?;
    assert!(rt; is_linked(alloc, cells.as_slice(), &CUBE_OF_THE_TOTAL)?);
    Ok(())
}

// The corners of the least cube of the cell 1, 1, 1 of the three-way table.
fn cubic(alloc: Global, cells: &[Cell], levels: (i128, i128)) -> Result<Option<Vec<Corner>>, Fail> {
    let book = hidden_book(alloc, 2, &[&[0, 1, 2]], &CUBIC, &[13])?;
    let (up, down) = levels;
    least(alloc, &book, cells, 0, 13, Levels { up, down })
}

// Whether the least cube of the cell 1, 1, 1 of the three-way table has these corners, where these cells are always
// shown.
fn is_cubic(
    alloc: Global,
    fixed: &[u32],
    levels: (i128, i128),
    meant: &[(u32, bool)],
) -> Result<bool, Fail> {
    let cells = cells_of(alloc, &CUBIC, fixed, None)?;
    let corners = cubic(alloc, cells.as_slice(), levels)?;
    Ok(are_corners(&corners, meant))
}

// The cells of the three-way table that are always shown, the levels of the cell 1, 1, 1, and the corners of its cube.
const CUBES: [(&[u32], (i128, i128), [(u32, bool); 8]); 3] = [
    // all partners are other children, which cost 56 together
    (
        &[],
        (3, 3),
        [
            (13, true),
            (14, false),
            (16, false),
            (17, true),
            (22, false),
            (23, true),
            (25, true),
            (26, false),
        ],
    ),
    // one of these is always shown: with the total as partner in C the corners cost 78, in B 79 and in A 82
    (
        &[26],
        (3, 3),
        [
            (12, true),
            (13, true),
            (15, false),
            (16, false),
            (21, false),
            (22, false),
            (24, true),
            (25, true),
        ],
    ),
    // a corner with 3 can't fall by 4, so the next cube is the one that costs 79
    (
        &[],
        (3, 4),
        [
            (10, true),
            (11, false),
            (13, true),
            (14, false),
            (19, false),
            (20, true),
            (22, false),
            (23, true),
        ],
    ),
];

#[test]
fn least_cubes_in_three_dimensions(rt: HostRuntime) -> Result<(), Fail> {
    let alloc = rt.alloc();
    for (fixed, levels, corners) in &CUBES {
        assert!(rt; is_cubic(alloc, fixed, *levels, corners)?);
    }
    Ok(())
}

// Whether a table of one variable with one code has a cube of that code's cell, where the total is always shown.
fn has_cube_of_one_code(alloc: Global) -> Result<bool, Fail> {
    let cells = cells_of(alloc, &[100, 100], &[0], None)?;
    let book = hidden_book(alloc, 1, &[&[0]], &[100, 100], &[1])?;
    let levels = Levels { up: 20, down: 20 };
    Ok(least(alloc, &book, cells.as_slice(), 0, 1, levels)?.is_some())
}

// One code alone below a total that is always shown.
#[test]
fn no_partner(rt: HostRuntime) -> Result<(), Fail> {
    assert_eq!(rt; has_cube_of_one_code(rt.alloc())?, false);
    Ok(())
}
