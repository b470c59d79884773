ghost use Rattle.std.specs.Prelude.{◌≡◌, true, All};
ghost use Rattle.primary_rules.specs.Ranges.{AreInRange};
ghost use Rattle.apriori.specs.Priors.{ArePriors};
ghost use Rattle.apriori.specs.Settling.{IsReadyFor};

use Kind::{Fixed, Free, Primary};
use PriorWhy::{
    BadNumber, BadShape, EmptyUnsafe, OutsideTruth, ProtectedPrimary, Twice, UnknownCode,
};
use apriori::{Prior, PriorError, PriorWhy, apply, blank_priors, settle};
use fixture_records::{places, tree};
use linked_tables::{Book, Mark};
use primary_rules::keep;
use sdc_base::{Cell, CellFacts, Few, Kind, Rule, Rules, Tops};
use std::alloc::Global;
use std::rt::HostRuntime;
use std::test::Fail;

// The tables of the first and second variable and of the first and third, without records.
fn empty_book(alloc: Global) -> Result<Book, Fail> {
    let mut trees = Vec::new(alloc);
    trees.push(tree(alloc, &[b"a1", b"a2"])?)?;
    trees.push(tree(alloc, &[b"b1", b"b2"])?)?;
    trees.push(tree(alloc, &[b"c1", b"c2"])?)?;
    Ok(Book::new(alloc, trees, places(alloc, &[&[0, 1], &[0, 2]])?)?)
}

// The cells of thirteen records: the truth of each, and how many records it has.
const THIRTEEN: [(i128, u32); 15] = [
    (140, 13),
    (50, 6),
    (90, 7),
    (70, 6),
    (20, 2),
    (50, 4),
    (70, 7),
    (30, 4),
    (40, 3),
    (55, 6),
    (85, 7),
    (30, 3),
    (40, 3),
    (25, 3),
    (45, 4),
];

// Gives the cells these truths and numbers of records; where it is wanted, the cell of a2 and b2 has none.
fn fill(book: &mut Book, emptied: bool) {
    for (cell, (truth, freq)) in THIRTEEN.iter().enumerate() {
        let (truth, freq) = if emptied && cell == 8 {
            (0, 0)
        } else {
            (*truth, *freq)
        };
        if let Some(mark) = book.mark_mut(cell as u32) {
            mark.facts = CellFacts {
                truth,
                freq,
                tops: Tops::new(2, 1),
            };
        }
    }
}

// A book of the thirteen records.
pub(crate) fn book_of(alloc: Global, emptied: bool) -> Result<Book, Fail> {
    let mut book = empty_book(alloc)?;
    fill(&mut book, emptied);
    Ok(book)
}

// `FREQ(3,30)` and `MAN(20)`.
pub(crate) fn frequency_rule() -> Rules
    ensures { AreInRange result }
{
    Rules {
        list: Few::of(&[Rule::Freq { n: 3, r: 30 }]),
        man: 20,
        weighted: false,
    }
}

// Whether all marks have what the rules look at.
pub(crate) fn are_ready(marks: &[Mark], rules: &Rules) -> bool
    requires { AreInRange rules.now }
    ensures { result ≡ true → All (IsReadyFor rules.now) marks.now }
{
    'marks: for mark in marks {
        if !is_ready(mark, rules) {
            return false;
        }
    }
    true
}

// Whether a mark has what the rules look at.
fn is_ready(mark: &Mark, rules: &Rules) -> bool
    requires { AreInRange rules.now }
    ensures { result ≡ true → IsReadyFor rules.now mark.now }
{
    if mark.facts.tops.keep < keep(rules) {
        return false;
    }
    let truth = mark.facts.truth;
    truth >= 0 && truth <= 100000000000000000000000000000
}

// The table, the line and the kind of the first fault of a file.
pub(crate) type FileAnswer = Result<(), (u32, u32, PriorWhy)>;

// Adds a file to the priors, where it may be added.
pub(crate) fn added(
    alloc: Global,
    book: &Book,
    priors: &mut Vec<Prior>,
    file: (u32, &str),
    separator: u8,
    decimals: u8,
) -> Option<FileAnswer>
    requires { ArePriors book.now.marks priors.old.items }
    ensures { ArePriors book.now.marks priors.new.items }
{
    let (table, text) = file;
    if table >= book.tables() || decimals > 13 || text.len() > 10000 {
        return None;
    }
    match apply(
        alloc,
        book,
        table,
        priors,
        text.as_bytes(),
        separator,
        decimals,
    ) {
        Ok(()) => Some(Ok(())),
        Err(PriorError::At { table, line, why }) => Some(Err((table, line, why))),
        Err(PriorError::Memory) => None,
    }
}

// The line and the kind of the first fault of a file of the first table.
type Answer = Result<(), (u32, PriorWhy)>;

// What is answered to a file of the first table over no statements. None where it has a fault and changes the priors for
// all that.
fn answer(
    alloc: Global,
    book: &Book,
    text: &str,
    separator: u8,
    decimals: u8,
) -> Result<Option<Answer>, Fail> {
    let mut priors = blank_priors(alloc, book.cells())?;
    let before = blank_priors(alloc, book.cells())?;
    match added(alloc, book, &mut priors, (0, text), separator, decimals) {
        Some(Ok(())) => Ok(Some(Ok(()))),
        Some(Err((0, line, why))) if priors.as_slice() == before.as_slice() => {
            Ok(Some(Err((line, why))))
        }
        _ => Ok(None),
    }
}

// Prices and bounds in files of the first table, and the answers.
const PRICES_AND_BOUNDS: [(&str, Answer); 10] = [
    ("\n \t\n", Ok(())),
    ("a1,b2,c,5\na1,b2,c,5\n", Ok(())),
    ("a1,b2,c,5\na1,b2,c,005", Ok(())),
    ("a1,b2,c,5\r\na1,b2,c,6\r\n", Err((2, Twice))),
    ("a1,b2,c,0\n", Err((1, BadNumber))),
    ("a1,b2,c,1099511627776\n", Ok(())),
    ("a1,b2,c,1099511627777\n", Err((1, BadNumber))),
    ("a1,b2,b,51,60\n", Err((1, OutsideTruth))),
    ("a1,b2,b,40,49\n", Err((1, OutsideTruth))),
    ("a1,b2,b,50,50\n", Ok(())),
];

#[test]
fn prices_and_bounds(rt: HostRuntime) -> Result<(), Fail> {
    let book = book_of(rt.alloc(), true)?;
    for (text, wanted) in &PRICES_AND_BOUNDS {
        assert_eq!(rt; answer(rt.alloc(), &book, text, b',', 0)?, Some(*wanted));
    }
    Ok(())
}

// Codes and shapes of lines in files of the first table, and the answers.
const CODES_AND_SHAPES: [(&str, Answer); 10] = [
    ("a9,b1,s\n", Err((1, UnknownCode))),
    ("b1,a1,s\n", Err((1, UnknownCode))),
    ("a9,b1,c,x\n", Err((1, UnknownCode))),
    ("a1,b2\n", Err((1, BadShape))),
    ("a9,b9,x\n", Err((1, BadShape))),
    ("a1,b2,u,1\n", Err((1, BadShape))),
    ("a1,b2,pl,5\n", Err((1, BadShape))),
    (" a1 ,\tb2 , U \n", Ok(())),
    ("Total,Total,p\na1,b2,p\na1,b2,p\n", Ok(())),
    ("\n\na9,b1,s\na1,b2\n", Err((3, UnknownCode))),
];

#[test]
fn codes_and_shapes(rt: HostRuntime) -> Result<(), Fail> {
    let book = book_of(rt.alloc(), true)?;
    for (text, wanted) in &CODES_AND_SHAPES {
        assert_eq!(rt; answer(rt.alloc(), &book, text, b',', 0)?, Some(*wanted));
    }
    Ok(())
}

// Levels and statuses in files of the first table, and the answers.
const LEVELS_AND_STATUSES: [(&str, Answer); 10] = [
    ("a1,b2,pl,1,0\n", Err((1, BadNumber))),
    ("a1,b2,Pl,0,1\n", Ok(())),
    ("a1,b2,pl,1,2.5\n", Err((1, BadNumber))),
    ("a1,b2,pl,1,2\na1,b2,pl,1,3\n", Err((2, Twice))),
    ("a1,b2,b,0,100000000000000000000000000000\n", Ok(())),
    (
        "a1,b2,b,0,100000000000000000000000000001\n",
        Err((1, BadNumber)),
    ),
    ("a1,b2,u\na1,b2,s\n", Err((2, Twice))),
    ("a1,b2,s\na1,b2,u\n", Err((2, Twice))),
    ("a1,b2,s\na1,b2,S\n", Ok(())),
    ("a2,b2,u\n", Err((1, EmptyUnsafe))),
];

#[test]
fn levels_and_statuses(rt: HostRuntime) -> Result<(), Fail> {
    let book = book_of(rt.alloc(), true)?;
    for (text, wanted) in &LEVELS_AND_STATUSES {
        assert_eq!(rt; answer(rt.alloc(), &book, text, b',', 0)?, Some(*wanted));
    }
    Ok(())
}

// Separators, decimals, files of the first table, and the answers.
const SEPARATORS_AND_DECIMALS: [(u8, u8, &str, Answer); 8] = [
    (b';', 0, "a1;b2;c;5", Ok(())),
    (b'\t', 0, "a1\tb2\tc\t5", Ok(())),
    (b';', 0, "a1,b2,c,5", Err((1, BadShape))),
    (b',', 1, "a1,b2,pl,1,2.5", Ok(())),
    (b',', 1, "a1,b2,pl,1,2.25", Err((1, BadNumber))),
    (b',', 1, "a1,b2,c,5.0", Err((1, BadNumber))),
    (b',', 1, "a1,b2,b,4,6", Ok(())),
    (b',', 1, "a1,b2,b,5.1,6", Err((1, OutsideTruth))),
];

#[test]
fn separators_and_decimals(rt: HostRuntime) -> Result<(), Fail> {
    let book = book_of(rt.alloc(), false)?;
    for (separator, decimals, text, wanted) in &SEPARATORS_AND_DECIMALS {
        assert_eq!(rt;
            answer(rt.alloc(), &book, text, *separator, *decimals)?,
            Some(*wanted)
        );
    }
    Ok(())
}

// The first fault of a file of the second table behind one of the first, which must be accepted. None where it changes
// the priors for all that.
fn answer_behind(
    alloc: Global,
    book: &Book,
    first: &str,
    second: &str,
) -> Result<Option<FileAnswer>, Fail> {
    let mut priors = blank_priors(alloc, book.cells())?;
    let mut before = blank_priors(alloc, book.cells())?;
    let one = added(alloc, book, &mut priors, (0, first), b',', 0);
    let same = added(alloc, book, &mut before, (0, first), b',', 0);
    if one != Some(Ok(())) || same != Some(Ok(())) {
        return Ok(None);
    }
    match added(alloc, book, &mut priors, (1, second), b',', 0) {
        Some(Err(fault)) if priors.as_slice() == before.as_slice() => Ok(Some(Err(fault))),
        Some(Ok(())) => Ok(Some(Ok(()))),
        _ => Ok(None),
    }
}

const TWICE_BEHIND: FileAnswer = Err((1, 2, Twice));

// Files of the first and of the second table, and the answers to the second ones.
const OVER_ALL_FILES: [(&str, &str, FileAnswer); 5] = [
    ("a1,Total,c,5", "a1,c1,s\na1,Total,c,6", TWICE_BEHIND),
    ("a1,Total,c,5", "a1,c1,s\na1,Total,c,5", Ok(())),
    ("Total,Total,s", "a1,c1,s\nTotal,Total,u", TWICE_BEHIND),
    (
        "a1,Total,b,0,80",
        "a1,c1,c,5\na1,Total,b,0,81",
        TWICE_BEHIND,
    ),
    ("a1,b1,c,5", "a1,c1,c,6\na2,c1,c,7", Ok(())),
];

#[test]
fn statements_over_all_files(rt: HostRuntime) -> Result<(), Fail> {
    let book = book_of(rt.alloc(), false)?;
    for (first, second, wanted) in &OVER_ALL_FILES {
        assert_eq!(rt;
            answer_behind(rt.alloc(), &book, first, second)?,
            Some(*wanted)
        );
    }
    Ok(())
}

// What is asked of a cell: its kind, how far it must be open, its bounds and its price.
type Shape = (Kind, i128, i128, i128, Option<i128>, Option<u64>);

// A cell, or the first line by which a primary cell is to be always shown.
type Settling = Result<Shape, (u32, u32, PriorWhy)>;

// A cell after two files.
fn cell_after(
    alloc: Global,
    emptied: bool,
    files: (&str, &str),
    cell: usize,
) -> Result<Option<Settling>, Fail> {
    let book = book_of(alloc, emptied)?;
    cell_in(alloc, &book, files, cell)
}

// The same, of the cells of this book.
fn cell_in(
    alloc: Global,
    book: &Book,
    files: (&str, &str),
    cell: usize,
) -> Result<Option<Settling>, Fail> {
    let mut priors = blank_priors(alloc, book.cells())?;
    let (first, second) = files;
    let one = added(alloc, book, &mut priors, (0, first), b',', 0);
    let other = added(alloc, book, &mut priors, (1, second), b',', 0);
    if one != Some(Ok(())) || other != Some(Ok(())) {
        return Ok(None);
    }
    Ok(settled_at(alloc, book, &priors, cell))
}

// A cell with what is stated of all, or the first fault.
fn settled_at(alloc: Global, book: &Book, priors: &[Prior], cell: usize) -> Option<Settling>
    requires { ArePriors book.now.marks priors.now }
{
    let rules = frequency_rule();
    if !are_ready(book.marks(), &rules) {
        return None;
    }
    match settle(alloc, book, &rules, priors) {
        Ok(cells) => shape_at(&cells, cell),
        Err(PriorError::At { table, line, why }) => Some(Err((table, line, why))),
        Err(PriorError::Memory) => None,
    }
}

fn shape_at(cells: &[Cell], cell: usize) -> Option<Settling> {
    let cell = cells.get(cell)?;
    Some(Ok((
        cell.kind, cell.up, cell.down, cell.low, cell.high, cell.price,
    )))
}

// All margins of the first table are always shown.
pub(crate) const MARGINS: &str = "Total,Total,p\nTotal,b1,p\nTotal,b2,p\na1,Total,p\na2,Total,p\n";

const FREE: Settling = Ok((Free, 0, 0, 0, None, None));

const FIXED: Settling = Ok((Fixed, 0, 0, 0, None, None));

// Primary by the frequency rule.
const NAMED: Settling = Ok((Primary, 6, 6, 0, None, None));

// Whether the cell of a2 and b2 has no records, the files of the two tables, a cell, and what it is then.
const KINDS: [(bool, &str, &str, usize, Settling); 7] = [
    (false, MARGINS, "", 4, NAMED),
    (false, MARGINS, "", 0, FIXED),
    (false, MARGINS, "", 5, FREE),
    (true, "", "", 8, FIXED),
    (false, "a1,b1,s", "", 4, FREE),
    (false, "a1,b2,pl,5,5", "", 5, FREE),
    // through the second table, on a cell of both
    (false, "", "a1,Total,p", 3, FIXED),
];

#[test]
fn kinds_of_cells(rt: HostRuntime) -> Result<(), Fail> {
    for (emptied, first, second, cell, wanted) in &KINDS {
        assert_eq!(rt;
            cell_after(rt.alloc(), *emptied, (*first, *second), *cell)?,
            Some(*wanted)
        );
    }
    Ok(())
}

// Files of the first table, a cell, and what is asked of it then.
const LEVELS_BOUNDS_AND_PRICES: [(&str, usize, Shape); 5] = [
    ("a1,b2,u", 5, (Primary, 10, 10, 0, None, None)),
    ("a1,b1,u", 4, (Primary, 6, 6, 0, None, None)),
    ("a1,b1,pl,100,3", 4, (Primary, 3, 20, 0, None, None)),
    ("a1,b2,b,48,52", 5, (Free, 0, 0, 48, Some(52), None)),
    ("a1,b2,c,7", 5, (Free, 0, 0, 0, None, Some(7))),
];

#[test]
fn levels_bounds_and_prices(rt: HostRuntime) -> Result<(), Fail> {
    for (text, cell, wanted) in &LEVELS_BOUNDS_AND_PRICES {
        assert_eq!(rt;
            cell_after(rt.alloc(), false, (*text, ""), *cell)?,
            Some(Ok(*wanted))
        );
    }
    Ok(())
}

// All margins and the primary cell are always shown.
const MARGINS_AND_PRIMARY: &str =
    "Total,Total,p\nTotal,b1,p\nTotal,b2,p\na1,Total,p\na2,Total,p\na1,b1,p\n";

// Files of the two tables, and the table and the line by which a primary cell is to be always shown.
const SHOWN_PRIMARY: [(&str, &str, u32, u32); 3] = [
    (MARGINS_AND_PRIMARY, "", 0, 6),
    ("a1,b2,u\na1,b2,p\na1,b1,p", "", 0, 2),
    ("a1,b2,p", "a1,Total,u\na1,Total,p", 1, 2),
];

#[test]
fn primary_cells_that_are_shown(rt: HostRuntime) -> Result<(), Fail> {
    for (first, second, table, line) in &SHOWN_PRIMARY {
        assert_eq!(rt;
            cell_after(rt.alloc(), false, (*first, *second), 4)?,
            Some(Err((*table, *line, ProtectedPrimary)))
        );
    }
    Ok(())
}
