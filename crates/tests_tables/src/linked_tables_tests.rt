use code_trees::{CodeTree, flat};
use fixture_records::place;
use linked_tables::{Book, BookFault};
use sdc_base::Text;
use std::alloc::Global;
use std::rt::HostRuntime;
use std::test::Fail;

// The total and so many other codes.
fn tree_of(alloc: Global, size: u32) -> Result<CodeTree, Fail> {
    let mut codes = Vec::new(alloc);
    for code in 1..size {
        codes.push(Text::new(code.to_string(alloc)?.into_bytes()))?;
    }
    Ok(flat(alloc, &codes, &Text::from_slice(alloc, b"Total")?)?)
}

// The book of tables over variables with trees of these sizes.
fn book_of(
    alloc: Global,
    sizes: &[u32],
    tables: &[&[u32]],
) -> Result<Result<Book, BookFault>, Fail> {
    let mut trees = Vec::new(alloc);
    for size in sizes {
        trees.push(tree_of(alloc, *size)?)?;
    }
    let mut spanned = Vec::new(alloc);
    for table in tables {
        spanned.push(place(table))?;
    }
    if trees.len() > 8 || spanned.len() > 100 {
        return Err(Fail::new("too many trees or tables for a book"));
    }
    Ok(Book::new(alloc, trees, spanned))
}

// How many cells the book of these tables has, or why there is none.
fn cells_of(
    alloc: Global,
    sizes: &[u32],
    tables: &[&[u32]],
) -> Result<Result<u32, BookFault>, Fail> {
    match book_of(alloc, sizes, tables)? {
        Ok(book) => Ok(Ok(book.cells())),
        Err(fault) => Ok(Err(fault)),
    }
}

// The sizes of trees, the variables of tables, and how many cells these have or why there is no book of them.
const BOOKS: [([u32; 4], &[&[u32]], Result<u32, BookFault>); 12] = [
    ([3, 3, 3, 1], &[], Ok(0)),
    // the total alone
    ([3, 3, 3, 1], &[&[]], Ok(1)),
    ([3, 3, 3, 1], &[&[0, 1]], Ok(9)),
    // linked, turned, and apart
    ([3, 3, 3, 1], &[&[0, 1], &[0, 2]], Ok(15)),
    ([3, 3, 3, 1], &[&[0, 1], &[1, 0], &[0, 1]], Ok(9)),
    ([3, 3, 3, 1], &[&[0], &[1]], Ok(5)),
    (
        [3, 3, 3, 1],
        &[&[0, 1], &[1, 1], &[7]],
        Err(BookFault::TwiceInTable(1)),
    ),
    (
        [3, 3, 3, 1],
        &[&[0, 1], &[4, 4], &[1, 1]],
        Err(BookFault::NoSuchVariable(1)),
    ),
    // as many cells as there may be, and more
    ([300, 200, 2, 1], &[&[0, 1]], Ok(60000)),
    (
        [300, 200, 2, 1],
        &[&[0, 1], &[0], &[2], &[0, 0]],
        Err(BookFault::TooManyCells(2)),
    ),
    ([5001, 1, 1, 1], &[&[0], &[1]], Ok(5001)),
    (
        [5001, 5001, 5001, 5001],
        &[&[0, 1, 2, 3]],
        Err(BookFault::TooManyCells(0)),
    ),
];

#[test]
fn cells_and_refusals(rt: HostRuntime) -> Result<(), Fail> {
    for (sizes, tables, expected) in &BOOKS {
        assert_eq!(rt; cells_of(rt.alloc(), sizes, tables)?, *expected);
    }
    Ok(())
}

// The book of the tables A by B, A by C, and C by A, each variable with a total and two codes.
fn linked(alloc: Global) -> Result<Book, Fail> {
    Ok(book_of(alloc, &[3, 3, 3], &[&[0, 1], &[0, 2], &[2, 0]])??)
}

// Tables, places of these, and the number of the cell there.
const CELLS: [(u32, &[u32], Option<u32>); 17] = [
    (0, &[0, 0], Some(0)),
    (0, &[0, 2], Some(2)),
    (0, &[1, 0], Some(3)),
    (0, &[1, 1], Some(4)),
    (0, &[2, 2], Some(8)),
    (1, &[0, 0], Some(0)),
    (1, &[1, 0], Some(3)),
    (1, &[2, 0], Some(6)),
    (1, &[0, 1], Some(9)),
    (1, &[0, 2], Some(10)),
    (1, &[1, 1], Some(11)),
    (1, &[2, 2], Some(14)),
    (2, &[2, 1], Some(12)),
    (2, &[0, 3], None),
    (3, &[0, 0], None),
    // a code too few, and one too many
    (0, &[0], None),
    (0, &[0, 0, 0], None),
];

#[test]
fn cells_of_linked_tables(rt: HostRuntime) -> Result<(), Fail> {
    let book = linked(rt.alloc())?;
    for (t, place, cell) in &CELLS {
        assert_eq!(rt; book.id(*t, place), *cell);
    }
    Ok(())
}

// The codes of a cell's name.
fn name_of(book: &Book, cell: u32) -> &[u32] {
    match book.name(cell) {
        Some(name) => name.as_slice(),
        None => &[],
    }
}

// Cells, and the codes of their names.
const NAMES: [(u32, &[u32]); 3] = [(4, &[1, 1, 0]), (12, &[1, 0, 2]), (15, &[])];

#[test]
fn names_of_cells(rt: HostRuntime) -> Result<(), Fail> {
    let book = linked(rt.alloc())?;
    for (cell, name) in &NAMES {
        assert_eq!(rt; name_of(&book, *cell), *name);
    }
    Ok(())
}

// Names, and the cells that have them.
const NUMBERS: [(&[u32], Option<u32>); 2] = [(&[1, 0, 2], Some(12)), (&[1, 1, 1], None)];

#[test]
fn numbers_by_names(rt: HostRuntime) -> Result<(), Fail> {
    let book = linked(rt.alloc())?;
    for (name, cell) in &NUMBERS {
        assert_eq!(rt; book.number(&place(name)), *cell);
    }
    Ok(())
}

// How many cells, tables and variables there are.
#[test]
fn sizes_of_a_book(rt: HostRuntime) -> Result<(), Fail> {
    let book = linked(rt.alloc())?;
    assert_eq!(rt; (book.cells(), book.tables(), book.variables()), (15, 3, 3));
    Ok(())
}

// Whether the book says what the table of this number spans, and gives and lends it.
fn has_table(book: &mut Book, t: u32) -> (bool, bool, bool) {
    let spans = book.spans(t).is_some();
    let gives = book.table(t).is_some();
    let lends = book.lend(t).is_some();
    (spans, gives, lends)
}

// There is nothing behind the last tree and the last table.
#[test]
fn ends_of_a_book(rt: HostRuntime) -> Result<(), Fail> {
    let mut book = linked(rt.alloc())?;
    assert_eq!(rt;
        (book.tree(2).is_some(), book.tree(3).is_some()),
        (true, false)
    );
    assert_eq!(rt; has_table(&mut book, 3), (false, false, false));
    Ok(())
}

// Marks the cell at a place of the third table as hidden, and says whether there is one.
fn mark_through_the_third(book: &mut Book, place: &[u32]) -> bool {
    let Some(mut table) = book.table(2) else {
        return false;
    };
    let Some(mark) = table.cell_mut(place) else {
        return false;
    };
    mark.hidden = true;
    true
}

// Whether this cell is hidden and no other one, and none has records.
fn hides_alone(book: &Book, hidden: usize) -> bool {
    for (cell, mark) in book.marks().iter().enumerate() {
        if mark.hidden != (cell == hidden) || mark.facts.freq != 0 {
            return false;
        }
    }
    true
}

// A mark that is written through one table is that of the others.
#[test]
fn tables_share_their_marks(rt: HostRuntime) -> Result<(), Fail> {
    let mut book = linked(rt.alloc())?;
    assert_eq!(rt; mark_through_the_third(&mut book, &[3, 0]), false);
    assert_eq!(rt; mark_through_the_third(&mut book, &[0, 2]), true);
    assert!(rt; hides_alone(&book, 6));
    Ok(())
}

// How many cells earlier tables name, and of how many a table is the first; of six such, marks the fourth as hidden.
fn lent_counts(book: &mut Book, t: u32) -> Option<(usize, usize)> {
    let mut lent = book.lend(t)?;
    let earlier = lent.earlier().len();
    let own = lent.own();
    if own.len() == 6 {
        own[3].hidden = true;
    }
    Some((earlier, own.len()))
}

// The cells that a table is the first to name are lent by themselves.
#[test]
fn cells_are_lent(rt: HostRuntime) -> Result<(), Fail> {
    let mut book = linked(rt.alloc())?;
    assert_eq!(rt; lent_counts(&mut book, 1), Some((9, 6)));
    assert_eq!(rt; lent_counts(&mut book, 2), Some((15, 0)));
    assert!(rt; hides_alone(&book, 12));
    Ok(())
}
