ghost use Rattle.std.specs.Prelude.{◌<◌, ◌^◌, length};

use fixture_records::{tables, two_by_two, two_codes};
use linked_tables::Book;
use relations::relations_of;
use sdc_base::{Dimension, Relation};
use std::alloc::Global;
use std::rt::HostRuntime;
use std::test::Fail;

// The variable with codes below others, down to those right below the total, and with all; and the flat one.
const UPPER: Dimension = Dimension {
    variable: 0,
    depth: 1,
};

const DEEP: Dimension = Dimension {
    variable: 0,
    depth: 2,
};

const FLAT: Dimension = Dimension {
    variable: 1,
    depth: 9,
};

// A book of a variable with codes below others and of a flat one.
fn book_of(alloc: Global, lists: &[&[Dimension]]) -> Result<Book, Fail>
    requires { length lists.now < 2 ^ 32 }
{
    let mut trees = Vec::new(alloc);
    trees.push(two_by_two(alloc)?)?;
    trees.push(two_codes(alloc)?)?;
    Ok(Book::with_depths(alloc, trees, tables(alloc, lists)?)?)
}

// A deep table of both variables, and the upper codes of one.
fn beside_shallow(alloc: Global) -> Result<Book, Fail> {
    book_of(alloc, &[&[DEEP, FLAT], &[UPPER]])
}

// A table of both variables with the upper codes of one, and all codes of that one.
fn shallow_beside(alloc: Global) -> Result<Book, Fail> {
    book_of(alloc, &[&[UPPER, FLAT], &[DEEP]])
}

// The cells of the codes of the first variable in a table.
fn codes_in(book: &Book, t: u32) -> [Option<u32>; 7] {
    [0, 1, 2, 3, 4, 5, 6].map(|code| book.id(t, &[code]))
}

#[test]
fn a_shallow_table_has_no_cell_of_its_own(rt: HostRuntime) -> Result<(), Fail> {
    let book = beside_shallow(rt.alloc())?;
    assert_eq!(rt; book.cells(), 21);
    assert_eq!(rt; book.first_own(1), 21);
    Ok(())
}

#[test]
fn a_shallow_table_has_its_upper_codes(rt: HostRuntime) -> Result<(), Fail> {
    let book = beside_shallow(rt.alloc())?;
    assert_eq!(rt;
        codes_in(&book, 1),
        [Some(0), Some(3), None, None, Some(12), None, None]
    );
    Ok(())
}

#[test]
fn a_deep_table_shares_the_upper_codes(rt: HostRuntime) -> Result<(), Fail> {
    let book = shallow_beside(rt.alloc())?;
    assert_eq!(rt; book.cells(), 13);
    assert_eq!(rt; book.first_own(1), 9);
    assert_eq!(rt;
        codes_in(&book, 1),
        [
            Some(0),
            Some(3),
            Some(9),
            Some(10),
            Some(6),
            Some(11),
            Some(12)
        ]
    );
    Ok(())
}

// A relation: the total, and the parts.
type Sum<'a> = (u32, &'a [u32]);

// Those of a shallow table beside a deep one: the cells of codes with others below them are sums in the deep one alone.
const SUMS: [Sum<'static>; 8] = [
    (0, &[3, 6]),
    (0, &[1, 2]),
    (1, &[4, 7]),
    (2, &[5, 8]),
    (3, &[9, 10]),
    (3, &[4, 5]),
    (6, &[11, 12]),
    (6, &[7, 8]),
];

// The relations are these, in this order.
fn are_sums(relations: &[Relation], sums: &[Sum<'_>]) -> bool {
    relations.len() == sums.len()
        && relations.iter().zip(sums).all(|(relation, sum)| relation.total == sum.0
            && relation.parts.as_slice() == sum.1)
}

#[test]
fn no_sum_at_the_last_level_of_a_table(rt: HostRuntime) -> Result<(), Fail> {
    let book = shallow_beside(rt.alloc())?;
    let system = relations_of(rt.alloc(), &book)?;
    assert!(rt; are_sums(system.relations.as_slice(), &SUMS));
    Ok(())
}

#[test]
fn codes_of_a_table_above_deeper_ones(rt: HostRuntime) -> Result<(), Fail> {
    let book = beside_shallow(rt.alloc())?;
    let above = [0, 1, 2, 3, 4, 5, 6].map(|code| book.code_within(UPPER, code));
    assert_eq!(rt; above, [0, 1, 1, 1, 4, 4, 4]);
    let below = [0, 1, 2, 4].map(|code| book.first_child_within(UPPER, code));
    assert_eq!(rt; below, [Some(1), None, None, None]);
    Ok(())
}
