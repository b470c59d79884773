ghost use Rattle.std.specs.Prelude.{◌≡◌, true, All, pos, ◌≤ℤ◌, ◌<ℤ◌};
ghost use Rattle.sdc_base.specs.Numbers.{too_wide};
ghost use Rattle.release_writer.specs.ShownCells.{CanBeShown};

use fixture_records::{places, regions, tables, texts, tree};
use linked_tables::{Book, Mark};
use release_writer::{Shown, table_bytes};
use sdc_base::{Dimension, Hidden, Items, Text};
use std::alloc::Global;
use std::rt::HostRuntime;
use std::test::Fail;

// A book of one table over A, with a, and another over B, with `"c,`, and A.
fn two_tables(alloc: Global) -> Result<Book, Fail> {
    let mut trees = Vec::new(alloc);
    trees.push(tree(alloc, &[b"a"])?)?;
    trees.push(tree(alloc, &[b"\"c,"])?)?;
    Ok(Book::new(alloc, trees, places(alloc, &[&[0], &[1, 0]])?)?)
}

fn are_narrow(numbers: &[i128]) -> bool
    ensures { result ≡ true → All (λ number. (pos 0 ≤ℤ number) × (number <ℤ pos too_wide)) numbers.now }
{
    numbers.iter().all(|number| 0 <= *number && *number < 10000000000000000000000000000000000000)
}

pub(crate) fn are_from_zero(marks: &[Mark]) -> bool
    ensures { result ≡ true → All (λ mark. pos 0 ≤ℤ mark.facts.truth) marks.now }
{
    marks.iter().all(|mark| 0 <= mark.facts.truth)
}

fn can_be_shown(book: &Book, shown: Shown<'_>) -> bool
    ensures { result ≡ true → CanBeShown book.now shown.entry }
{
    match shown {
        Shown::Hidden(hidden) => {
            hidden.flags.as_slice().len() == book.marks().len() && are_from_zero(book.marks())
        }
        Shown::Rounded(numbers) => numbers.len() == book.marks().len() && are_narrow(numbers),
    }
}

// The bytes of a table, or none where it can't be written.
fn printed(
    alloc: Global,
    book: &Book,
    t: u32,
    names: &[Text],
    decimals: u8,
    shown: Shown<'_>,
) -> Result<Vec<u8>, Fail> {
    let Some(table) = book.spans(t) else {
        return Ok(Vec::new(alloc));
    };
    if names.len() != table.len() + 1 || decimals > 13 || !can_be_shown(book, shown) {
        return Ok(Vec::new(alloc));
    }
    Ok(table_bytes(alloc, book, t, names, decimals, shown)?)
}

// The second and the third of four cells are hidden.
fn two_hidden(alloc: Global) -> Result<Hidden, Fail> {
    let mut flags = Vec::new(alloc);
    for hidden in [false, true, true, false] {
        flags.push(hidden)?;
    }
    Ok(Hidden {
        flags: Items::new(flags),
    })
}

// The bytes of a table with its names.
fn named(
    alloc: Global,
    book: &Book,
    t: u32,
    decimals: u8,
    shown: Shown<'_>,
) -> Result<Vec<u8>, Fail> {
    let names = if t == 0 {
        texts(alloc, &[b"A", b"V"])?
    } else {
        texts(alloc, &[b"B\r", b"A", b""])?
    };
    printed(alloc, book, t, &names, decimals, shown)
}

// Whether the bytes of a table are these.
fn has_bytes(
    alloc: Global,
    t: u32,
    decimals: u8,
    shown: Shown<'_>,
    wanted: &[u8],
) -> Result<bool, Fail> {
    let book = two_tables(alloc)?;
    let bytes = named(alloc, &book, t, decimals, shown)?;
    Ok(bytes.as_slice() == wanted)
}

const NUMBERS: [i128; 4] = [250, 10, 5, 0];

// A table, its decimals, and its bytes where the cells have those numbers.
const ROUNDED: [(u32, u8, &[u8]); 3] = [
    (0, 0, b"A,V\nTotal,250\na,10\n"),
    (0, 1, b"A,V\nTotal,25.0\na,1.0\n"),
    (
        1,
        0,
        b"\"B\r\",A,\nTotal,Total,250\nTotal,a,10\n\"\"\"c,\",Total,5\n\"\"\"c,\",a,0\n",
    ),
];

#[test]
fn rounded_tables(rt: HostRuntime) -> Result<(), Fail> {
    let alloc = rt.alloc();
    let shown = Shown::Rounded(NUMBERS.as_slice());
    for (t, decimals, bytes) in &ROUNDED {
        assert!(rt; has_bytes(alloc, *t, *decimals, shown, bytes)?);
    }
    Ok(())
}

// A table and its bytes where two cells are hidden.
const SUPPRESSED: [(u32, &[u8]); 2] = [
    (0, b"A,V\nTotal,0\na,x\n"),
    (
        1,
        b"\"B\r\",A,\nTotal,Total,0\nTotal,a,x\n\"\"\"c,\",Total,x\n\"\"\"c,\",a,0\n",
    ),
];

#[test]
fn suppressed_tables(rt: HostRuntime) -> Result<(), Fail> {
    let alloc = rt.alloc();
    let hidden = two_hidden(alloc)?;
    for (t, bytes) in &SUPPRESSED {
        assert!(rt; has_bytes(alloc, *t, 0, Shown::Hidden(&hidden), bytes)?);
    }
    Ok(())
}

// A book of one table over the upper regions, N and S.
pub(crate) fn upper_regions(alloc: Global) -> Result<Book, Fail> {
    let upper = Dimension {
        variable: 0,
        depth: 1,
    };
    let mut trees = Vec::new(alloc);
    trees.push(regions(alloc)?)?;
    Ok(Book::with_depths(alloc, trees, tables(alloc, &[&[upper]])?)?)
}

#[test]
fn a_shallow_table_has_a_line_for_each_upper_code(rt: HostRuntime) -> Result<(), Fail> {
    let alloc = rt.alloc();
    let book = upper_regions(alloc)?;
    let shown = Shown::Rounded(&[250, 10, 5]);
    let bytes = named(alloc, &book, 0, 0, shown)?;
    assert_eq!(rt; bytes.as_slice(), b"A,V\nTotal,250\nN,10\nS,5\n".as_slice());
    Ok(())
}
