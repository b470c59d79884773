ghost use Rattle.std.specs.Prelude.{◌≡◌, ◌≤◌, ◌^◌, ◌<◌, true, length, slice_get, slice_index, slice_index_or, All, [], ℕ, None, pos, ◌≤ℤ◌, ◌<ℤ◌};
ghost use Rattle.tabulate.specs.TabulatedMarks.{CanBeTabulated, HasNone, IsRow};

use attackers::soles;
use fixture_records::{Record, pairs, places, regions, rows, tables, thirteen, two_codes};
use linked_tables::{Book, Mark};
use sdc_base::{Dimension, Place, Row};
use std::alloc::Global;
use std::rt::HostRuntime;
use std::test::Fail;
use tabulate::tabulate;

fn are_inside(book: &Book, codes: &[u32]) -> bool
    ensures { result ≡ true → (variable : ℕ) → variable < length codes.now
        → slice_index codes.now variable < length (slice_index_or book.now.trees variable []) }
{
    for (k, code) in codes.iter().enumerate() {
        if k >= 8 {
            return false;
        }
        if *code as usize >= book.size(k as u32) {
            return false;
        }
    }
    true
}

// The codes end where the trees do, or behind them.
fn ends_behind(book: &Book, codes: &Place) -> bool
    ensures { result ≡ true → None ≡ slice_get book.now.trees (length codes.now) }
{
    let count = codes.len();
    match book.tree(count as u32) {
        Some(_) => false,
        None => true,
    }
}

// There are as many codes as trees, and each is in its own.
fn are_codes(book: &Book, codes: &Place) -> bool
    ensures each { result ≡ true → length codes.now ≡ length book.now.trees }
    ensures inside { result ≡ true → (variable : ℕ) → variable < length codes.now
        → slice_index codes.now variable < length (slice_index_or book.now.trees variable []) }
{
    if !ends_behind(book, codes) {
        return false;
    }
    are_inside(book, codes.as_slice())
}

fn is_row(book: &Book, row: &Row) -> bool
    ensures { result ≡ true → IsRow book.now.trees 1 row.now }
{
    are_codes(book, &row.codes)
        && 0 <= row.value
        && row.value < 1000000000000000
        && row.weight < 100000000
        && 1 <= row.weight
}

fn are_rows(book: &Book, rows: &[Row]) -> bool
    ensures { result ≡ true → CanBeTabulated book.now.trees 1 rows.now }
{
    rows.len() <= 100 && rows.iter().all(|row| is_row(book, row))
}

fn has_none(mark: &Mark) -> bool
    ensures { result ≡ true → HasNone mark.now }
{
    mark.facts.truth == 0 && mark.facts.freq == 0
}

fn have_none(marks: &[Mark]) -> bool
    ensures { result ≡ true → All HasNone marks.now }
{
    marks.iter().all(|mark| has_none(mark))
}

// The soles of a book with these records, none where they can't be tabulated.
fn soles_of(alloc: Global, book: &mut Book, rows: &[Row]) -> Result<Vec<Option<u32>>, Fail> {
    if !have_none(book.marks()) || !are_rows(book, rows) {
        return Ok(Vec::new(alloc));
    }
    tabulate(book, rows, 2, 1);
    Ok(soles(alloc, book, rows)?)
}

// The soles of thirteen records in two linked tables over three variables.
fn soles_of_thirteen(alloc: Global) -> Result<Vec<Option<u32>>, Fail> {
    let trees = pairs(alloc, 3)?;
    let tables = places(alloc, &[&[0, 1, 2], &[0, 2]])?;
    let mut book = Book::new(alloc, trees, tables)?;
    let records = rows(alloc, &thirteen())?;
    soles_of(alloc, &mut book, &records)
}

// The cells that one row alone makes up, each with its row.
fn alone(alloc: Global, soles: &[Option<u32>]) -> Result<Vec<(usize, u32)>, Fail> {
    let mut all = Vec::new(alloc);
    for (cell, sole) in soles.iter().enumerate() {
        if let Some(row) = sole {
            all.push((cell, *row))?;
        }
    }
    Ok(all)
}

#[test]
fn each_cell_is_looked_at(rt: HostRuntime) -> Result<(), Fail> {
    assert_eq!(rt; soles_of_thirteen(rt.alloc())?.len(), 27);
    Ok(())
}

// Records that alone make up an inner cell of one of the tables, and no others.
const LONE_RECORDS: [(usize, u32); 3] = [(13, 0), (14, 1), (25, 10)];

#[test]
fn lone_records_make_up_inner_cells(rt: HostRuntime) -> Result<(), Fail> {
    let alloc = rt.alloc();
    let found = soles_of_thirteen(alloc)?;
    let lone = alone(alloc, &found)?;
    assert_eq!(rt; lone.as_slice(), LONE_RECORDS.as_slice());
    Ok(())
}

// The upper regions, N and S.
const UPPER: Dimension = Dimension {
    variable: 0,
    depth: 1,
};

// Records of N1, N2 and S1 by two codes.
const REGIONAL: [Record<'static>; 4] = [
    (&[2, 1], 10, 1),
    (&[3, 2], 20, 1),
    (&[5, 1], 30, 1),
    (&[3, 2], 40, 1),
];

// The soles of these records in a table of the upper regions by two codes.
fn soles_of_upper_regions(alloc: Global) -> Result<Vec<Option<u32>>, Fail> {
    let mut trees = Vec::new(alloc);
    trees.push(regions(alloc)?)?;
    trees.push(two_codes(alloc)?)?;
    let spanned = tables(alloc, &[&[UPPER, Dimension::whole(1)]])?;
    let mut book = Book::with_depths(alloc, trees, spanned)?;
    let records = rows(alloc, &REGIONAL)?;
    soles_of(alloc, &mut book, &records)
}

// The first record alone makes up N by 1, and the third S and S by 1.
const LONE_IN_UPPER_REGIONS: [(usize, u32); 3] = [(4, 0), (6, 2), (7, 2)];

#[test]
fn lone_records_of_deeper_codes_make_up_cells_of_a_shallow_table(
    rt: HostRuntime,
) -> Result<(), Fail> {
    let alloc = rt.alloc();
    let found = soles_of_upper_regions(alloc)?;
    assert_eq!(rt; found.len(), 9);
    let lone = alone(alloc, &found)?;
    assert_eq!(rt; lone.as_slice(), LONE_IN_UPPER_REGIONS.as_slice());
    Ok(())
}
