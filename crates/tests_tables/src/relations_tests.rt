ghost use Rattle.std.specs.Prelude.{◌≡◌, ◌≤◌, length, IfOk};

use fixture_cells::TWO_BY_TWO;
use fixture_records::{pairs, places, regions, tree};
use linked_tables::Book;
use relations::{components, relations_of, rows_of, signs};
use sdc_base::{Hidden, Items, Memory, Relation, System};
use std::alloc::Global;
use std::rt::HostRuntime;
use std::test::Fail;

// A relation: the total, and the parts.
type Sum<'a> = (u32, &'a [u32]);

// The relations are these, in this order.
fn are_relations(relations: &[Relation], sums: &[Sum<'_>]) -> bool {
    if relations.len() != sums.len() {
        return false;
    }
    relations.iter().zip(sums).all(|(relation, sum)| relation.total == sum.0
        && relation.parts.as_slice() == sum.1)
}

// There are so many cells, and the relations are these, in this order.
fn is_system(system: &System, cells: u32, sums: &[Sum<'_>]) -> bool {
    system.cells == cells && are_relations(system.relations.as_slice(), sums)
}

// Whether the cell is one of these.
fn is_among(cells: &[u32], cell: u32) -> bool {
    cells.iter().any(|one| *one == cell)
}

// A flag for each cell: true for these.
fn hidden_of(alloc: Global, cells: u32, hidden: &[u32]) -> Result<Hidden, Memory>
    ensures { IfOk result (λ set. length set.flags ≡ cells) }
{
    let mut flags = Vec::new(alloc);
    'cells: for cell in 0..cells {
        flags.push(is_among(hidden, cell))?;
    }
    Ok(Hidden {
        flags: Items::new(flags),
    })
}

// The number of each cell's component, and the sizes.
fn grouped(
    alloc: Global,
    system: &System,
    hidden: &[u32],
) -> Result<(Vec<Option<u32>>, Vec<u32>), Memory> {
    let set = hidden_of(alloc, system.cells, hidden)?;
    let grouping = components(alloc, system, &set)?;
    Ok((grouping.of.into_vec(), grouping.sizes.into_vec()))
}

// The relations of each component.
fn rows(alloc: Global, system: &System, hidden: &[u32]) -> Result<Vec<Vec<u32>>, Memory> {
    let set = hidden_of(alloc, system.cells, hidden)?;
    let grouping = components(alloc, system, &set)?;
    rows_of(alloc, system, &grouping)
}

// The lists are these, in this order.
fn are_lists(lists: &[Vec<u32>], wanted: &[&[u32]]) -> bool {
    if lists.len() != wanted.len() {
        return false;
    }
    lists
        .iter()
        .zip(wanted)
        .all(|(list, one)| list.as_slice() == *one)
}

// The relations between the cells of these tables over so many variables of two codes each.
fn system_over(alloc: Global, variables: usize, tables: &[&[u32]]) -> Result<System, Fail>
    requires variables { variables ≤ 8 }
    requires tables { length tables.now ≤ 8 }
{
    let book = Book::new(alloc, pairs(alloc, variables)?, places(alloc, tables)?)?;
    Ok(relations_of(alloc, &book)?)
}

// Whether the components of these hidden cells have these sizes, and each cell its number.
fn are_grouped(
    alloc: Global,
    system: &System,
    hidden: &[u32],
    numbers: &[Option<u32>],
    wanted: &[u32],
) -> Result<bool, Fail> {
    let (of, sizes) = grouped(alloc, system, hidden)?;
    Ok(of.as_slice() == numbers && sizes.as_slice() == wanted)
}

// Of the hidden cells of a two-way table the number of each cell's component, and the sizes: the four inner ones; cell
// 2 alone, and 3 that is linked to 7 through 4; none.
const TWO_WAY_GROUPS: [(&[u32], [Option<u32>; 9], &[u32]); 3] = [
    (
        &[4, 5, 7, 8],
        [
            None,
            None,
            None,
            None,
            Some(0),
            Some(0),
            None,
            Some(0),
            Some(0),
        ],
        &[4],
    ),
    (
        &[7, 4, 3, 2],
        [
            None,
            None,
            Some(0),
            Some(1),
            Some(1),
            None,
            None,
            Some(1),
            None,
        ],
        &[1, 3],
    ),
    (&[], [None; 9], &[]),
];

// The relations of the table of two variables.
fn two_way(alloc: Global) -> Result<System, Fail> {
    system_over(alloc, 2, &[&[0, 1]])
}

#[test]
fn two_way_table(rt: HostRuntime) -> Result<(), Fail> {
    let system = two_way(rt.alloc())?;
    assert!(rt; is_system(&system, 9, &TWO_BY_TWO));
    Ok(())
}

#[test]
fn components_of_a_two_way_table(rt: HostRuntime) -> Result<(), Fail> {
    let system = two_way(rt.alloc())?;
    for (hidden, numbers, sizes) in &TWO_WAY_GROUPS {
        assert!(rt; are_grouped(rt.alloc(), &system, hidden, numbers, sizes)?);
    }
    Ok(())
}

const LINKED: [Sum<'static>; 11] = [
    (0, &[3, 6]),
    (0, &[1, 2]),
    (0, &[9, 10]),
    (1, &[4, 7]),
    (2, &[5, 8]),
    (3, &[4, 5]),
    (3, &[11, 12]),
    (6, &[7, 8]),
    (6, &[13, 14]),
    (9, &[11, 13]),
    (10, &[12, 14]),
];

// The shared cell 3 links the tables.
const LINKED_GROUP: [Option<u32>; 15] = [
    None,
    None,
    None,
    Some(0),
    Some(0),
    None,
    Some(0),
    Some(0),
    None,
    None,
    None,
    Some(0),
    None,
    Some(0),
    None,
];

// The relations of two tables that share a variable.
fn linked(alloc: Global) -> Result<System, Fail> {
    system_over(alloc, 3, &[&[0, 1], &[0, 2]])
}

#[test]
fn linked_tables(rt: HostRuntime) -> Result<(), Fail> {
    let system = linked(rt.alloc())?;
    assert!(rt; is_system(&system, 15, &LINKED));
    Ok(())
}

#[test]
fn components_of_linked_tables(rt: HostRuntime) -> Result<(), Fail> {
    let system = linked(rt.alloc())?;
    let hidden = [3, 4, 6, 7, 11, 13];
    assert!(rt; are_grouped(rt.alloc(), &system, &hidden, &LINKED_GROUP, &[6])?);
    Ok(())
}

// The relations of a table of one variable of two levels.
fn system_of_regions(alloc: Global) -> Result<System, Fail> {
    let mut trees = Vec::new(alloc);
    trees.push(regions(alloc)?)?;
    let book = Book::new(alloc, trees, places(alloc, &[&[0]])?)?;
    Ok(relations_of(alloc, &book)?)
}

const REGIONS: [Sum<'static>; 3] = [(0, &[1, 4]), (1, &[2, 3]), (4, &[5])];

#[test]
fn two_levels(rt: HostRuntime) -> Result<(), Fail> {
    let system = system_of_regions(rt.alloc())?;
    assert!(rt; is_system(&system, 6, &REGIONS));
    Ok(())
}

// The number of each region's component, where the regions below the others are hidden.
const REGIONS_GROUP: [Option<u32>; 6] = [None, None, Some(0), Some(0), None, Some(1)];

#[test]
fn components_of_two_levels(rt: HostRuntime) -> Result<(), Fail> {
    let system = system_of_regions(rt.alloc())?;
    assert!(rt; are_grouped(rt.alloc(), &system, &[2, 3, 5], &REGIONS_GROUP, &[2, 1])?);
    Ok(())
}

// The lines of one variable against those of the other.
const SIGNS: [bool; 6] = [true, false, false, false, true, true];

#[test]
fn signs_of_two_flat_variables(rt: HostRuntime) -> Result<(), Fail> {
    let system = two_way(rt.alloc())?;
    let found = signs(rt.alloc(), &system)?;
    assert!(rt; found.is_some_and(|signs| signs.as_slice() == SIGNS.as_slice()));
    Ok(())
}

// The relations of a table of three variables, of which one has three codes.
fn system_of_an_odd_cycle(alloc: Global) -> Result<System, Fail> {
    let mut trees = pairs(alloc, 2)?;
    trees.push(tree(alloc, &[b"1", b"2", b"3"])?)?;
    let book = Book::new(alloc, trees, places(alloc, &[&[0, 1, 2]])?)?;
    Ok(relations_of(alloc, &book)?)
}

#[test]
fn odd_cycle_has_no_signs(rt: HostRuntime) -> Result<(), Fail> {
    let system = system_of_an_odd_cycle(rt.alloc())?;
    let found = signs(rt.alloc(), &system)?;
    assert_eq!(rt;
        (system.relations.as_slice().len(), found.is_some()),
        (33, false)
    );
    Ok(())
}

// Whether the relations of each component of these hidden cells are these.
fn are_rows(
    alloc: Global,
    system: &System,
    hidden: &[u32],
    wanted: &[&[u32]],
) -> Result<bool, Fail> {
    let lists = rows(alloc, system, hidden)?;
    Ok(are_lists(lists.as_slice(), wanted))
}

// Hidden cells of a two-way table, and the relations of each component: the four inner cells; cell 2, and 3, 4 and 7;
// none.
const ROWS: [(&[u32], &[&[u32]]); 3] = [
    (&[4, 5, 7, 8], &[&[2, 3, 4, 5]]),
    (&[7, 4, 3, 2], &[&[1, 3], &[0, 2, 4, 5]]),
    (&[], &[]),
];

#[test]
fn rows_of_components(rt: HostRuntime) -> Result<(), Fail> {
    let system = two_way(rt.alloc())?;
    for (hidden, wanted) in &ROWS {
        assert!(rt; are_rows(rt.alloc(), &system, hidden, wanted)?);
    }
    Ok(())
}
