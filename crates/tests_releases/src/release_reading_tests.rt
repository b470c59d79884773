ghost use Rattle.std.specs.Prelude.{◌≡◌, ◌≤◌, [], length, slice_index_or, true};
ghost use Rattle.release_writer.specs.Sheets.{HaveNames};

use crate::release_writer_tests::{are_from_zero, upper_regions};
use fixture_cells::set_truth;
use fixture_records::{places, texts, tree};
use linked_tables::Book;
use release_writer::{ReleaseFault, hidden_of, rounded_of};
use sdc_base::{Items, Text};
use std::alloc::Global;
use std::rt::HostRuntime;
use std::test::Fail;

fn spanned(book: &Book, t: u32) -> usize
    ensures size { result ≡ length (slice_index_or book.now.tables t []) }
    ensures at_most_8 { result ≤ 8 }
{
    match book.spans(t) {
        Some(table) => table.len(),
        None => 0,
    }
}

fn have_names(book: &Book, names: &[Items<Text>]) -> bool
    ensures { result ≡ true → HaveNames names.now book.now.tables }
{
    if names.len() != book.tables() as usize {
        return false;
    }
    'tables: for t in 0..book.tables() {
        if names[t as usize].as_slice().len() != spanned(book, t) + 1 {
            return false;
        }
    }
    true
}

// A letter for each cell, that of a hidden one `x`.
fn letters(alloc: Global, flags: &[bool]) -> Result<String, Fail> {
    let mut read = String::new(alloc);
    for flag in flags {
        read.push(if *flag { 'x' } else { '.' })?;
    }
    Ok(read)
}

// A number for each cell.
fn numerals(alloc: Global, numbers: &[i128]) -> Result<String, Fail> {
    let mut read = String::new(alloc);
    for number in numbers {
        let number = *number;
        read.push_str(&format!(in alloc; "{number},")?)?;
    }
    Ok(read)
}

// The bad line of a table.
fn fault_line(alloc: Global, fault: ReleaseFault) -> Result<String, Fail> {
    match fault {
        ReleaseFault::At { table, line } => Ok(format!(in alloc; "table {table} line {line}")?),
        ReleaseFault::Memory => Ok(format!(in alloc; "m")?),
    }
}

// What the bytes of tables are read as: a letter or a number for each cell, or the bad line.
fn hidden_read(
    alloc: Global,
    book: &Book,
    names: &[Items<Text>],
    tables: &[Text],
) -> Result<String, Fail> {
    if !are_from_zero(book.marks())
        || !have_names(book, names)
        || tables.len() != book.tables() as usize
    {
        return Ok(String::new(alloc));
    }
    match hidden_of(alloc, book, names, 0, tables) {
        Ok(hidden) => letters(alloc, hidden.flags.as_slice()),
        Err(fault) => fault_line(alloc, fault),
    }
}

fn rounded_read(
    alloc: Global,
    book: &Book,
    names: &[Items<Text>],
    decimals: u8,
    tables: &[Text],
) -> Result<String, Fail> {
    if !are_from_zero(book.marks())
        || !have_names(book, names)
        || tables.len() != book.tables() as usize
        || decimals > 13
    {
        return Ok(String::new(alloc));
    }
    match rounded_of(alloc, book, names, decimals, tables) {
        Ok(numbers) => numerals(alloc, numbers.as_slice()),
        Err(fault) => fault_line(alloc, fault),
    }
}

// The truths of a two-way table.
const TRUTHS: [(u32, u32); 9] = [
    (0, 140),
    (1, 50),
    (2, 90),
    (3, 70),
    (4, 20),
    (5, 50),
    (6, 70),
    (7, 30),
    (8, 40),
];

fn set_truths(book: &mut Book) {
    for (cell, truth) in &TRUTHS {
        set_truth(book, *cell, *truth);
    }
}

// The two-way table of A with a1 and a2, and of B with b1 and b2; and then the table of A.
fn two_way(alloc: Global) -> Result<Book, Fail> {
    let mut trees = Vec::new(alloc);
    trees.push(tree(alloc, &[b"a1", b"a2"])?)?;
    trees.push(tree(alloc, &[b"b1", b"b2"])?)?;
    let mut book = Book::new(alloc, trees, places(alloc, &[&[0, 1], &[0]])?)?;
    set_truths(&mut book);
    Ok(book)
}

fn two_names(alloc: Global) -> Result<Vec<Items<Text>>, Fail> {
    let mut names = Vec::new(alloc);
    names.push(Items::new(texts(alloc, &[b"A", b"B", b"V"])?))?;
    names.push(Items::new(texts(alloc, &[b"A", b"V"])?))?;
    Ok(names)
}

const WHOLE: &[u8] =
    b"A,B,V\nTotal,Total,140\nTotal,b1,50\nTotal,b2,90\na1,Total,70\na1,b1,x\na1,b2,x\na2,Total,70\na2,b1,x\na2,b2,x\n";

const OF_A: &[u8] = b"A,V\nTotal,140\na1,70\na2,70\n";

// The bytes of both tables, and what they are read as where cells may be hidden.
const HIDING: [(&[u8], &[u8], &str); 13] = [
    (WHOLE, OF_A, "....xx.xx"),
    (
        b"A,B,V\nTotal,Total,140\nTotal,b1,50\nTotal,b2,91\na1,Total,70\n",
        OF_A,
        "table 0 line 4",
    ),
    (
        b"A,B,V\nTotal,Total,140\nTotal,b2,90\n",
        OF_A,
        "table 0 line 3",
    ),
    (
        b"A,B,V\nTotal,Total,140\nTotal,b1,50",
        OF_A,
        "table 0 line 3",
    ),
    (
        b"A,B,V\nTotal,Total,140\nTotal,Total,140\n",
        OF_A,
        "table 0 line 3",
    ),
    (b"A,B,V\r\nTotal,Total,140\r\n", OF_A, "table 0 line 1"),
    (b"A,B,V\nTotal,Total,140\r\n", OF_A, "table 0 line 2"),
    (b"A,B,V\nTotal,Total,X\n", OF_A, "table 0 line 2"),
    (b"A,B,V\nTotal,Total,0140\n", OF_A, "table 0 line 2"),
    (b"", OF_A, "table 0 line 1"),
    (
        WHOLE,
        b"A,V\nTotal,140\na1,70\na2,70\na2,70\n",
        "table 1 line 5",
    ),
    (WHOLE, b"A,V\nTotal,140\na1,x\na2,70\n", "table 1 line 3"),
    (WHOLE, b"", "table 1 line 1"),
];

const ROUNDED: &[u8] =
    b"A,B,V\nTotal,Total,15\nTotal,b1,10\nTotal,b2,5\na1,Total,5\na1,b1,5\na1,b2,0\na2,Total,10\na2,b1,5\na2,b2,5\n";

const ROUNDED_OF_A: &[u8] = b"A,V\nTotal,15\na1,5\na2,10\n";

// The bytes of both tables, the decimals, and what they are read as where cells are rounded.
const ROUNDING: [(&[u8], &[u8], u8, &str); 10] = [
    (ROUNDED, ROUNDED_OF_A, 0, "15,10,5,5,5,0,10,5,5,"),
    (
        ROUNDED,
        b"A,V\nTotal,15\na1,10\na2,10\n",
        0,
        "table 1 line 3",
    ),
    (ROUNDED, ROUNDED_OF_A, 1, "table 0 line 2"),
    (b"A,B,V\nTotal,Total,x\n", ROUNDED_OF_A, 0, "table 0 line 2"),
    (
        b"A,B,V\nTotal,Total,015\n",
        ROUNDED_OF_A,
        0,
        "table 0 line 2",
    ),
    (
        b"A,B,V\nTotal,Total,10000000000000000000000000000000000000\n",
        ROUNDED_OF_A,
        0,
        "table 0 line 2",
    ),
    (
        b"A,B,V\nTotal,Total,9999999999999999999999999999999999999\n",
        ROUNDED_OF_A,
        0,
        "table 0 line 3",
    ),
    (
        b"A,B,V\nTotal,Total,15\r\n",
        ROUNDED_OF_A,
        0,
        "table 0 line 2",
    ),
    (
        b"A,B,V\nTotal,Total,15.0\n",
        ROUNDED_OF_A,
        0,
        "table 0 line 2",
    ),
    (
        b"A,B,V\nTotal,Total,15.0\n",
        ROUNDED_OF_A,
        1,
        "table 0 line 3",
    ),
];

// What the bytes of both tables are read as where cells may be hidden.
fn hidden_text(alloc: Global, first: &[u8], second: &[u8]) -> Result<String, Fail> {
    let book = two_way(alloc)?;
    let names = two_names(alloc)?;
    let tables = texts(alloc, &[first, second])?;
    hidden_read(alloc, &book, &names, &tables)
}

#[test]
fn hidden_sets_are_read(rt: HostRuntime) -> Result<(), Fail> {
    let alloc = rt.alloc();
    for (first, second, wanted) in &HIDING {
        assert_eq!(rt; hidden_text(alloc, first, second)?.as_str(), *wanted);
    }
    Ok(())
}

// What the bytes of both tables are read as where cells are rounded.
fn rounded_text(alloc: Global, first: &[u8], second: &[u8], decimals: u8) -> Result<String, Fail> {
    let book = two_way(alloc)?;
    let names = two_names(alloc)?;
    let tables = texts(alloc, &[first, second])?;
    rounded_read(alloc, &book, &names, decimals, &tables)
}

#[test]
fn rounded_numbers_are_read(rt: HostRuntime) -> Result<(), Fail> {
    let alloc = rt.alloc();
    for (first, second, decimals, wanted) in &ROUNDING {
        assert_eq!(rt;
            rounded_text(alloc, first, second, *decimals)?.as_str(),
            *wanted
        );
    }
    Ok(())
}

// A table of one variable, whose code has a line end in it.
fn one_way(alloc: Global) -> Result<Book, Fail> {
    let mut trees = Vec::new(alloc);
    trees.push(tree(alloc, &[b"a\nTotal,1"])?)?;
    Ok(Book::new(alloc, trees, places(alloc, &[&[0]])?)?)
}

fn names_with_a_line_end(alloc: Global) -> Result<Vec<Items<Text>>, Fail> {
    let mut names = Vec::new(alloc);
    names.push(Items::new(texts(alloc, &[b"A\r\n", b"V"])?))?;
    Ok(names)
}

const LINE_ENDS: [(&[u8], &str); 2] = [
    (b"\"A\r\n\",V\nTotal,0\n\"a\nTotal,1\",x\n", ".x"),
    (
        b"\"A\r\n\",V\nTotal,0\n\"a\nTotal,2\",x\n",
        "table 0 line 3",
    ),
];

// What the bytes of that table are read as.
fn text_of_line_ends(alloc: Global, bytes: &[u8]) -> Result<String, Fail> {
    let book = one_way(alloc)?;
    let names = names_with_a_line_end(alloc)?;
    let tables = texts(alloc, &[bytes])?;
    hidden_read(alloc, &book, &names, &tables)
}

#[test]
fn line_ends_in_codes_are_read(rt: HostRuntime) -> Result<(), Fail> {
    let alloc = rt.alloc();
    for (bytes, wanted) in &LINE_ENDS {
        assert_eq!(rt; text_of_line_ends(alloc, bytes)?.as_str(), *wanted);
    }
    Ok(())
}

// What the bytes of a table of the upper regions are read as: a line of a deeper code is none of its own.
const UPPER_LINES: [(&[u8], &str); 3] = [
    (b"A,V\nTotal,0\nN,x\nS,0\n", ".x."),
    (b"A,V\nTotal,0\nN,x\nN1,0\nN2,0\nS,0\n", "table 0 line 4"),
    (b"A,V\nTotal,0\nN,x\n", "table 0 line 4"),
];

fn text_of_upper_regions(alloc: Global, bytes: &[u8]) -> Result<String, Fail> {
    let book = upper_regions(alloc)?;
    let mut names = Vec::new(alloc);
    names.push(Items::new(texts(alloc, &[b"A", b"V"])?))?;
    let tables = texts(alloc, &[bytes])?;
    hidden_read(alloc, &book, &names, &tables)
}

#[test]
fn lines_of_a_shallow_table_are_read(rt: HostRuntime) -> Result<(), Fail> {
    let alloc = rt.alloc();
    for (bytes, wanted) in &UPPER_LINES {
        assert_eq!(rt; text_of_upper_regions(alloc, bytes)?.as_str(), *wanted);
    }
    Ok(())
}
