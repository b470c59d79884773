ghost use Rattle.std.specs.Prelude.{None, slice_get, ◌≡◌, ◌<◌, ◌≤◌, ◌^◌, ℕ, [], true, length, slice_index, slice_index_or, All, pos, ◌≤ℤ◌, ◌<ℤ◌};
ghost use Rattle.tabulate.specs.TabulatedMarks.{CanBeTabulated, HasNone, IsRow};

use fixture_records::{Record, pairs, places, regions, rows, tables, thirteen, two_codes};
use linked_tables::{Book, Mark};
use sdc_base::{Dimension, Place, Row};
use std::alloc::Global;
use std::rt::HostRuntime;
use std::test::Fail;
use tabulate::{TopList, tabulate};

// The records, in their order or the other way round.
fn rows_of(alloc: Global, records: &[Record<'_>], turned: bool) -> Result<Vec<Row>, Fail> {
    let mut made = rows(alloc, records)?;
    if turned {
        made.reverse();
    }
    Ok(made)
}

fn are_inside(book: &Book, codes: &[u32]) -> bool
    ensures { result ≡ true → (variable : ℕ) → variable < length codes.now
        → slice_index codes.now variable < length (slice_index_or book.now.trees variable []) }
{
    for (k, code) in codes.iter().enumerate() {
        if k >= 8 {
            return false;
        }
        if *code as usize >= book.size(k as u32) {
            return false;
        }
    }
    true
}

// The codes end where the trees do, or behind them.
fn ends_behind(book: &Book, codes: &Place) -> bool
    ensures { result ≡ true → None ≡ slice_get book.now.trees (length codes.now) }
{
    let count = codes.len();
    match book.tree(count as u32) {
        Some(_) => false,
        None => true,
    }
}

// There are as many codes as trees, and each is in its own.
fn are_codes(book: &Book, codes: &Place) -> bool
    ensures each { result ≡ true → length codes.now ≡ length book.now.trees }
    ensures inside { result ≡ true → (variable : ℕ) → variable < length codes.now
        → slice_index codes.now variable < length (slice_index_or book.now.trees variable []) }
{
    if !ends_behind(book, codes) {
        return false;
    }
    are_inside(book, codes.as_slice())
}

fn is_value(row: &Row) -> bool
    ensures { result ≡ true → (pos 0 ≤ℤ row.now.value) × (row.now.value <ℤ pos (10 ^ 15)) }
{
    0 <= row.value && row.value < 1000000000000000
}

fn is_weight(scale: u32, row: &Row) -> bool
    ensures { result ≡ true → (row.now.weight < 10 ^ 8) × (scale ≤ row.now.weight) }
{
    row.weight < 100000000 && scale <= row.weight
}

fn is_row(book: &Book, scale: u32, row: &Row) -> bool
    ensures { result ≡ true → IsRow book.now.trees scale row.now }
{
    are_codes(book, &row.codes) && is_value(row) && is_weight(scale, row)
}

fn are_rows(book: &Book, scale: u32, rows: &[Row]) -> bool
    ensures { result ≡ true → CanBeTabulated book.now.trees scale rows.now }
{
    rows.len() <= 100 && rows.iter().all(|row| is_row(book, scale, row))
}

fn has_none(mark: &Mark) -> bool
    ensures { result ≡ true → HasNone mark.now }
{
    mark.facts.truth == 0 && mark.facts.freq == 0
}

fn have_none(marks: &[Mark]) -> bool
    ensures { result ≡ true → All HasNone marks.now }
{
    marks.iter().all(|mark| has_none(mark))
}

// Tabulates, where it may be called.
fn tabulated(book: &mut Book, rows: &[Row], keep: u8, scale: u32) -> bool {
    let ready = have_none(book.marks()) && are_rows(book, scale, rows);
    if !ready || keep < 2 || keep > 10 || scale < 1 || scale > 100 {
        return false;
    }
    tabulate(book, rows, keep, scale);
    true
}

// The sum over the n largest, and -1 where fewer are kept.
fn top_of(mark: &Mark, n: u8) -> i128 {
    if n > mark.facts.tops.keep {
        return -1;
    }
    mark.facts.tops.top(n)
}

// The truth of a cell, how many records fall in it, and its largest contributions.
type Facts = (i128, u32, [i128; 4]);

// Of a cell: the sum, the number, and the sums over the largest, the two, the three and the four largest.
fn facts_of(book: &Book, cell: u32) -> Option<Facts> {
    let mark = book.marks().get(cell as usize)?;
    let largest = [
        top_of(mark, 1),
        top_of(mark, 2),
        top_of(mark, 3),
        top_of(mark, 4),
    ];
    Some((mark.facts.truth, mark.facts.freq, largest))
}

// The facts of the cell at a place.
fn facts_at(book: &Book, t: u32, place: &[u32]) -> Option<Facts> {
    facts_of(book, book.id(t, place)?)
}

// A book of one table over one variable, given records at a scale.
fn weighed(
    alloc: Global,
    records: &[Record<'_>],
    turned: bool,
    scale: u32,
) -> Result<Option<Book>, Fail> {
    let mut book = Book::new(alloc, pairs(alloc, 1)?, places(alloc, &[&[0]])?)?;
    let rows = rows_of(alloc, records, turned)?;
    if tabulated(&mut book, rows.as_slice(), 4, scale) {
        Ok(Some(book))
    } else {
        Ok(None)
    }
}

// The facts of the first four cells of a book of one table over one variable, given records at a scale.
fn weighed_facts(
    alloc: Global,
    records: &[Record<'_>],
    turned: bool,
    scale: u32,
) -> Result<[Option<Facts>; 4], Fail> {
    let Some(book) = weighed(alloc, records, turned, scale)? else {
        return Ok([None; 4]);
    };
    Ok([
        facts_of(&book, 0),
        facts_of(&book, 1),
        facts_of(&book, 2),
        facts_of(&book, 3),
    ])
}

// 10 stands three times and 4 once: the sum is 3 * 10 + 4, the largest are 10, 10, 10 and 4.
const STEPS: &[Record<'static>] = &[(&[1], 10, 3), (&[2], 4, 1)];

const BY_STEPS: [Option<Facts>; 4] = [
    Some((34, 2, [10, 20, 30, 34])),
    Some((30, 1, [10, 20, 30, 30])),
    Some((4, 1, [4, 4, 4, 4])),
    None,
];

// 10 stands two and a half times, counted in tenths.
const PART: &[Record<'static>] = &[(&[1], 10, 25)];

const IN_TENTHS: [Option<Facts>; 4] = [
    Some((250, 1, [100, 200, 250, 250])),
    Some((250, 1, [100, 200, 250, 250])),
    Some((0, 0, [0, 0, 0, 0])),
    None,
];

// Records, whether they are turned, the scale, and the facts.
const WEIGHED: [(&[Record<'static>], bool, u32, [Option<Facts>; 4]); 3] = [
    (STEPS, false, 1, BY_STEPS),
    (STEPS, true, 1, BY_STEPS),
    (PART, false, 10, IN_TENTHS),
];

#[test]
fn sums_and_largest_by_weight_steps(rt: HostRuntime) -> Result<(), Fail> {
    for (records, turned, scale, facts) in &WEIGHED {
        assert_eq!(rt;
            weighed_facts(rt.alloc(), records, *turned, *scale)?,
            *facts
        );
    }
    Ok(())
}

// A book of the tables A by B, A by C, and C by A, of which cell 4 is hidden; given records.
fn linked(alloc: Global, records: &[Record<'_>], turned: bool) -> Result<Book, Fail> {
    let tables = places(alloc, &[&[0, 1], &[0, 2], &[2, 0]])?;
    let mut book = Book::new(alloc, pairs(alloc, 3)?, tables)?;
    if let Some(mark) = book.mark_mut(4) {
        mark.hidden = true;
    }
    let rows = rows_of(alloc, records, turned)?;
    if tabulated(&mut book, rows.as_slice(), 2, 1) {
        Ok(book)
    } else {
        Err(Fail::new("no records to be tabulated"))
    }
}

// Of each cell of the tables of thirteen records: its sum, its number, its largest, and its two largest together.
const WANTED: [(i128, u32, i128, i128); 15] = [
    // all, b1, b2
    (140, 13, 20, 35),
    (50, 6, 10, 20),
    (90, 7, 20, 35),
    // a1, with b1 and with b2
    (70, 6, 20, 30),
    (20, 2, 10, 20),
    (50, 4, 20, 30),
    // a2, with b1 and with b2
    (70, 7, 15, 30),
    (30, 4, 10, 20),
    (40, 3, 15, 30),
    // c1, c2, a1 with each, a2 with each
    (55, 6, 15, 25),
    (85, 7, 20, 35),
    (30, 3, 10, 20),
    (40, 3, 20, 30),
    (25, 3, 15, 20),
    (45, 4, 15, 25),
];

// Whether each cell has the wanted facts.
fn is_wanted(book: &Book) -> bool {
    for (cell, (sum, number, first, both)) in WANTED.iter().enumerate() {
        let wanted = Some((*sum, *number, [*first, *both, -1, -1]));
        if facts_of(book, cell as u32) != wanted {
            return false;
        }
    }
    book.cells() == 15
}

// The tables of thirteen records, in their order or the other way round.
fn linked_thirteen(alloc: Global, turned: bool) -> Result<Book, Fail> {
    let records = thirteen();
    linked(alloc, records.as_slice(), turned)
}

#[test]
fn linked_tables_share_their_cells(rt: HostRuntime) -> Result<(), Fail> {
    let book = linked_thirteen(rt.alloc(), false)?;
    assert!(rt; is_wanted(&book));
    Ok(())
}

#[test]
fn turned_records_have_the_same_facts(rt: HostRuntime) -> Result<(), Fail> {
    let book = linked_thirteen(rt.alloc(), true)?;
    assert!(rt; is_wanted(&book));
    Ok(())
}

// Places of the second table, the same of the third, which is the second one turned, and the sum there.
const TURNED_PLACES: [([u32; 2], [u32; 2], i128); 9] = [
    ([0, 0], [0, 0], 140),
    ([0, 1], [1, 0], 55),
    ([0, 2], [2, 0], 85),
    ([1, 0], [0, 1], 70),
    ([1, 1], [1, 1], 30),
    ([1, 2], [2, 1], 40),
    ([2, 0], [0, 2], 70),
    ([2, 1], [1, 2], 25),
    ([2, 2], [2, 2], 45),
];

// The sum at a place of the second table, where the facts at a place of the third one are the same.
fn shared_sum(book: &Book, place: &[u32], turned_place: &[u32]) -> Option<i128> {
    let facts = facts_at(book, 1, place)?;
    if facts_at(book, 2, turned_place) != Some(facts) {
        return None;
    }
    Some(facts.0)
}

#[test]
fn turned_tables_have_the_same_facts(rt: HostRuntime) -> Result<(), Fail> {
    let book = linked_thirteen(rt.alloc(), false)?;
    for (place, turned_place, sum) in &TURNED_PLACES {
        assert_eq!(rt; shared_sum(&book, place, turned_place), Some(*sum));
    }
    Ok(())
}

// What was hidden stays so, and no other cell is.
#[test]
fn hidden_cells_stay_so(rt: HostRuntime) -> Result<(), Fail> {
    let book = linked_thirteen(rt.alloc(), false)?;
    for (cell, mark) in book.marks().iter().enumerate() {
        assert_eq!(rt; mark.hidden, cell == 4);
    }
    Ok(())
}

// Without records all is 0.
#[test]
fn no_records_have_sums_of_0(rt: HostRuntime) -> Result<(), Fail> {
    let book = linked(rt.alloc(), &[], false)?;
    for cell in 0..15u32 {
        assert_eq!(rt; facts_of(&book, cell), Some((0, 0, [0, 0, -1, -1])));
    }
    Ok(())
}

// Records of which each value is another power of 2, so that a sum tells of which records it is.
const POWERS: &[Record<'static>] = &[
    (&[2, 1], 1, 1),
    (&[3, 1], 2, 1),
    (&[3, 2], 4, 1),
    (&[5, 2], 8, 1),
    (&[1, 1], 16, 1),
];

// A book of one table of regions by two codes, given these records.
fn regional(alloc: Global) -> Result<Book, Fail> {
    let mut trees = Vec::new(alloc);
    trees.push(regions(alloc)?)?;
    trees.push(two_codes(alloc)?)?;
    let mut book = Book::new(alloc, trees, places(alloc, &[&[0, 1]])?)?;
    let rows = rows_of(alloc, POWERS, false)?;
    if tabulated(&mut book, rows.as_slice(), 2, 1) {
        Ok(book)
    } else {
        Err(Fail::new("no records to be tabulated"))
    }
}

// The sums and the numbers of records of a region by the total and two codes.
fn counted(book: &Book, region: u32) -> Option<([i128; 3], [u32; 3])> {
    let total = facts_at(book, 0, &[region, 0])?;
    let one = facts_at(book, 0, &[region, 1])?;
    let other = facts_at(book, 0, &[region, 2])?;
    Some(([total.0, one.0, other.0], [total.1, one.1, other.1]))
}

// Regions, and the sums and the numbers of records of each by the total and two codes.
const REGIONS: [(u32, [i128; 3], [u32; 3]); 6] = [
    (0, [31, 19, 12], [5, 3, 2]),
    (1, [23, 19, 4], [4, 3, 1]),
    (2, [1, 1, 0], [1, 1, 0]),
    (3, [6, 2, 4], [2, 1, 1]),
    (4, [8, 0, 8], [1, 0, 1]),
    (5, [8, 0, 8], [1, 0, 1]),
];

#[test]
fn records_count_under_each_code_above(rt: HostRuntime) -> Result<(), Fail> {
    let book = regional(rt.alloc())?;
    for (region, sums, numbers) in &REGIONS {
        assert_eq!(rt; counted(&book, *region), Some((*sums, *numbers)));
    }
    Ok(())
}

// A book of the upper regions by two codes, and of all regions alone, given the same records.
fn upper_regional(alloc: Global) -> Result<Book, Fail> {
    let upper = Dimension {
        variable: 0,
        depth: 1,
    };
    let mut trees = Vec::new(alloc);
    trees.push(regions(alloc)?)?;
    trees.push(two_codes(alloc)?)?;
    let lists = tables(
        alloc,
        &[&[upper, Dimension::whole(1)], &[Dimension::whole(0)]],
    )?;
    let mut book = Book::with_depths(alloc, trees, lists)?;
    let rows = rows_of(alloc, POWERS, false)?;
    if tabulated(&mut book, rows.as_slice(), 2, 1) {
        Ok(book)
    } else {
        Err(Fail::new("no records to be tabulated"))
    }
}

// The sum over a region alone.
fn sum_of(book: &Book, region: u32) -> Option<i128> {
    let facts = facts_at(book, 1, &[region])?;
    Some(facts.0)
}

#[test]
fn records_of_deeper_codes_count_in_a_shallow_table(rt: HostRuntime) -> Result<(), Fail> {
    let book = upper_regional(rt.alloc())?;
    for (region, sums, numbers) in &REGIONS {
        let wanted = match *region {
            0 | 1 | 4 => Some((*sums, *numbers)),
            _ => None,
        };
        assert_eq!(rt; counted(&book, *region), wanted);
        assert_eq!(rt; sum_of(&book, *region), Some(sums[0]));
    }
    Ok(())
}

// The rows in each order of four, by which one of those that are left comes next.
fn rows_in_order(alloc: Global, records: &[Record<'_>], order: usize) -> Result<Vec<Row>, Fail> {
    let mut left = rows_of(alloc, records, false)?;
    let mut rows = Vec::new(alloc);
    for next in [order / 6, order / 2 % 3, order % 2, 0] {
        if next < left.len() {
            rows.push(left.remove(next))?;
        }
    }
    Ok(rows)
}

// The facts of the three cells of a table of one variable with these rows, of which two are kept, in tenths.
fn facts_in_tenths(alloc: Global, rows: &[Row]) -> Result<[Option<Facts>; 3], Fail> {
    let mut book = Book::new(alloc, pairs(alloc, 1)?, places(alloc, &[&[0]])?)?;
    if !tabulated(&mut book, rows, 2, 10) {
        return Ok([None; 3]);
    }
    Ok([facts_of(&book, 0), facts_of(&book, 1), facts_of(&book, 2)])
}

// In tenths: 10 stands one and a half times; 8 stands once, two and a half times and 1.2 times, and only two of all are
// kept, so that the order settles which.
const TIED: &[Record<'static>] = &[(&[1], 10, 15), (&[1], 8, 10), (&[2], 8, 25), (&[2], 8, 12)];

const FACTS_OF_TIED: [Option<Facts>; 3] = [
    Some((526, 4, [100, 190, -1, -1])),
    Some((230, 2, [100, 190, -1, -1])),
    Some((296, 2, [80, 160, -1, -1])),
];

// The facts of the tied records in one of their orders.
fn facts_in_order(alloc: Global, order: usize) -> Result<[Option<Facts>; 3], Fail> {
    let rows = rows_in_order(alloc, TIED, order)?;
    facts_in_tenths(alloc, rows.as_slice())
}

#[test]
fn ties_of_other_weights_change_no_sum(rt: HostRuntime) -> Result<(), Fail> {
    for order in 0..24usize {
        assert_eq!(rt; facts_in_order(rt.alloc(), order)?, FACTS_OF_TIED);
    }
    Ok(())
}
