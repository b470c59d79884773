use crate::record_layouts::{Shape, layout_of, texts};
use RowWhy::{BadNumber, LightWeight, Negative, NotLeaf, Short, UnknownCode};
use microdata::{Reader, Records, RowError, RowWhy, read_pieces};
use sdc_base::Memory;
use std::alloc::Global;
use std::rt::HostRuntime;
use std::test::Fail;

// The codes of the tree and the records, or the number of the first record with a fault and what is wrong with it.
pub(crate) type Expected = Result<&'static [u8], (u64, RowWhy)>;

// The codes of the tree, then the place, value and weight of each record, and how many were skipped.
fn shown(alloc: Global, records: &Records) -> Result<Vec<u8>, Memory> {
    let mut text = Vec::new(alloc);
    'trees: for tree in records.trees.as_slice() {
        for place in 0..20u32 {
            if let Some(code) = tree.code(place) {
                text.extend_from_slice(code)?;
                text.push(b' ')?;
            }
        }
    }
    'rows: for row in records.rows.as_slice() {
        text.push(b'|')?;
        for place in row.codes.as_slice() {
            text.extend_from_slice(place.to_string(alloc)?.as_bytes())?;
            text.push(b' ')?;
        }
        text.extend_from_slice(row.value.to_string(alloc)?.as_bytes())?;
        text.push(b' ')?;
        text.extend_from_slice(row.weight.to_string(alloc)?.as_bytes())?;
    }
    text.push(b'/')?;
    text.extend_from_slice(records.skipped.to_string(alloc)?.as_bytes())?;
    Ok(text)
}

// What is read of the first bytes up to the cut, and of the rest by pieces of a size.
pub(crate) fn read(
    alloc: Global,
    shape: Shape,
    bytes: &[u8],
    cut: usize,
    size: usize,
) -> Result<Vec<u8>, RowError> {
    let mut reader = Reader::new(alloc, layout_of(alloc, shape)?)?;
    let cut = cut.min(bytes.len());
    reader.feed(&bytes[..cut])?;
    for piece in bytes[cut..].chunks(size.max(1)) {
        reader.feed(piece)?;
    }
    let records = reader.finish()?;
    Ok(shown(alloc, &records)?)
}

// Whether the answer is the expected one.
pub(crate) fn agrees(answer: &Result<Vec<u8>, RowError>, expected: &Expected) -> bool {
    match (answer, expected) {
        (Ok(text), Ok(wanted)) => text.as_slice() == *wanted,
        (Err(RowError::At { number, why }), Err((at, wanted))) => number == at && why == wanted,
        _ => false,
    }
}

// Whether the bytes are read so at every cut, the rest by pieces of this size.
pub(crate) fn agrees_at_cuts(
    alloc: Global,
    shape: Shape,
    bytes: &[u8],
    size: usize,
    expected: &Expected,
) -> bool {
    for cut in 0..bytes.len() {
        if !agrees(&read(alloc, shape, bytes, cut, size), expected) {
            return false;
        }
    }
    true
}

// Whether the bytes are read so by pieces of each of these sizes.
fn agrees_by_sizes(
    alloc: Global,
    shape: Shape,
    bytes: &[u8],
    sizes: &[usize],
    expected: &Expected,
) -> bool {
    for size in sizes {
        if !agrees(&read(alloc, shape, bytes, 0, *size), expected) {
            return false;
        }
    }
    true
}

// Records, and what is read of them.
const RECORDS: [(Shape, &[u8], Expected); 55] = [
    (Shape::Flat, b"", Ok(b"Total b /0")),
    // listed codes first, then further ones in ascending order; the last line has no end
    (
        Shape::Flat,
        b"c  1\na  2\nb  3",
        Ok(b"Total b a c |3 1 1|2 2 1|1 3 1/0"),
    ),
    // the same records in another order: the same tree
    (
        Shape::Flat,
        b"b  3\nc  1\na  2\n",
        Ok(b"Total b a c |1 3 1|3 1 1|2 2 1/0"),
    ),
    // records without a response are skipped, and their codes bring nothing
    (Shape::Flat, b"a999\nz   \nb  1\n", Ok(b"Total b |1 1 1/2")),
    // lines without a byte are no records
    (
        Shape::Flat,
        b"a  1\r\n\r\n\nb 02\r\n",
        Ok(b"Total b a |2 1 1|1 2 1/0"),
    ),
    (Shape::Flat, b"\n\na  1\n\nb 2", Err((2, Short))),
    // a CR that no LF follows is a byte of its record
    (Shape::Flat, b"a  1\r", Ok(b"Total b a |2 1 1/0")),
    (Shape::Flat, b"a  \r", Err((1, BadNumber))),
    (Shape::Flat, b"a -1\n", Err((1, Negative))),
    (Shape::Flat, b"a 1x\n", Err((1, BadNumber))),
    (Shape::Flat, b"a1.5\n", Err((1, BadNumber))),
    (Shape::Flat, b"a99\n", Err((1, Short))),
    // a skipped record keeps its number, and nothing else in it is looked at
    (Shape::Flat, b"a999\nb -1\n", Err((2, Negative))),
    (Shape::Levels, b"T 999\nTx   \n", Ok(b"T /2")),
    (
        Shape::Weighted,
        b"a                       \n",
        Ok(b"Total b /1"),
    ),
    (
        Shape::Levels,
        b"A1  1\nB1  3\nA2  2\n",
        Ok(b"T A A1 A2 B B1 |2 1 1|5 3 1|3 2 1/0"),
    ),
    // blanks at the ends of a code aren't part of it; one inside is refused, and so is a byte too many
    (Shape::WideLevels, b" A1  1\nA    2\n", Err((2, NotLeaf))),
    (
        Shape::WideLevels,
        b" A1  1\nB    2\n",
        Ok(b"T A A1 B |2 1 1|3 2 1/0"),
    ),
    (Shape::WideLevels, b"A 1  1\n", Err((1, UnknownCode))),
    (Shape::WideLevels, b"A12  1\n", Err((1, UnknownCode))),
    (Shape::WideLevels, b"Tx   1\n", Err((1, UnknownCode))),
    (Shape::WideLevels, b"T    1\n", Err((1, NotLeaf))),
    // an empty code stands below the total, and a code may end between two boundaries
    (Shape::Levels, b"    1\nB   2\n", Ok(b"T  B |1 1 1|2 2 1/0")),
    (Shape::Levels, b"T   1\n", Err((1, NotLeaf))),
    (Shape::Levels, b"A1  1\nTx  1\n", Err((2, UnknownCode))),
    // a code with others below it is looked for behind the last record
    (
        Shape::Levels,
        b"B1  1\nA   1\nA1  2\nA   1\n",
        Err((2, NotLeaf)),
    ),
    (
        Shape::Levels,
        b"T 999\nB1  1\nA   1\nA1  2\n",
        Err((3, NotLeaf)),
    ),
    (Shape::Levels, b"A   1\nA1  2\nA1\n", Err((3, Short))),
    // the response before the codes
    (Shape::Levels, b"Tx -1\n", Err((1, Negative))),
    (
        Shape::Listed,
        b"A1  1\nP2  2\n",
        Ok(b"T P1 A1 A2 P2 |2 1 1|4 2 1/0"),
    ),
    (Shape::Listed, b"P1  1\n", Err((1, NotLeaf))),
    (Shape::Listed, b"T   1\n", Err((1, NotLeaf))),
    (Shape::Listed, b"A3  1\n", Err((1, UnknownCode))),
    (
        Shape::Weighted,
        b"a              1    1.00\nb999999999999999999999.9\n",
        Ok(b"Total b a |2 1 100|1 999999999999999 99999990/0"),
    ),
    (
        Shape::Weighted,
        b"a              1    1.01\na              2       1\n",
        Ok(b"Total b a |2 1 101|2 2 100/0"),
    ),
    (
        Shape::Weighted,
        b"a              1   1.001\n",
        Err((1, BadNumber)),
    ),
    // the weight before the codes, behind the response
    (
        Shape::Weighted,
        b"a             -1    0.99\n",
        Err((1, Negative)),
    ),
    (
        Shape::Weighted,
        b"a              1    0.99\n",
        Err((1, LightWeight)),
    ),
    (
        Shape::Weighted,
        b"a              11000000.\n",
        Err((1, BadNumber)),
    ),
    (
        Shape::Weighted,
        b"a              1        \n",
        Err((1, BadNumber)),
    ),
    // decimals, and numbers of 15 and 16 digits
    (
        Shape::Wide,
        b"x                   1.5\ny                    .5\nb                  2.07\nx                    3.\nx                     4\n",
        Ok(b"Total b x y |2 150 1|3 50 1|1 207 1|2 300 1|2 400 1/0"),
    ),
    (
        Shape::Wide,
        b"x      9999999999999.99\nx     09999999999999.00\n",
        Ok(b"Total b x |2 999999999999999 1|2 999999999999900 1/0"),
    ),
    (
        Shape::Wide,
        b"x      9999999999999.99\nx     10000000000000.00\n",
        Err((2, BadNumber)),
    ),
    (
        Shape::Wide,
        b"x        10000000000000\n",
        Err((1, BadNumber)),
    ),
    (
        Shape::Wide,
        b"x                 1.500\n",
        Err((1, BadNumber)),
    ),
    (
        Shape::Wide,
        b"x                  1.5.\n",
        Err((1, BadNumber)),
    ),
    (
        Shape::Wide,
        b"x                     .\n",
        Err((1, BadNumber)),
    ),
    (
        Shape::Wide,
        b"x                    +1\n",
        Err((1, BadNumber)),
    ),
    (
        Shape::Wide,
        b"x                   -.5\n",
        Err((1, Negative)),
    ),
    (
        Shape::Wide,
        b"x                     -\n",
        Err((1, Negative)),
    ),
    (
        Shape::Wide,
        b"x                   1-5\n",
        Err((1, BadNumber)),
    ),
    // the total's code, also behind a skipped record that has it
    (
        Shape::Wide,
        b"x                     1\nTotal                 2\n",
        Err((2, NotLeaf)),
    ),
    (
        Shape::Wide,
        b"Total               999\nTota                 99\n",
        Ok(b"Total b Tota |2 9900 1/1"),
    ),
    // thirteen records by two variables: without the last line end, and with a byte less
    (
        Shape::Two,
        b"a1b1c1 10\na1b1c2 10\na1b2c1 10\na1b2c1 10\na1b2c2 10\na1b2c2 20\na2b1c1  5\na2b1c1  5\na2b1c2 10\na2b1c2 10\na2b2c1 15\na2b2c2 10\na2b2c2 15",
        Ok(
            b"Total b a1 a2 Total b b1 b2 |2 2 10 1|2 2 10 1|2 3 10 1|2 3 10 1|2 3 10 1|2 3 20 1|3 2 5 1|3 2 5 1|3 2 10 1|3 2 10 1|3 3 15 1|3 3 10 1|3 3 15 1/0",
        ),
    ),
    (
        Shape::Two,
        b"a1b1c1 10\na1b1c2 10\na1b2c1 10\na1b2c1 10\na1b2c2 10\na1b2c2 20\na2b1c1  5\na2b1c1  5\na2b1c2 10\na2b1c2 10\na2b2c1 15\na2b2c2 10\na2b2c2 1",
        Err((13, Short)),
    ),
];

#[test]
fn records_at_every_cut(rt: HostRuntime) {
    for (shape, bytes, expected) in RECORDS {
        assert!(rt; agrees_at_cuts(rt.alloc(), shape, bytes, 1000, &expected));
    }
}

// In pieces of a few bytes, and whole.
#[test]
fn records_in_pieces(rt: HostRuntime) {
    let sizes = [1, 2, 3, 7, 1000];
    for (shape, bytes, expected) in &RECORDS {
        assert!(rt; agrees_by_sizes(rt.alloc(), *shape, bytes, &sizes, expected));
    }
}

// What is read of pieces that are all there.
fn read_texts(alloc: Global, pieces: &[&[u8]]) -> Result<Vec<u8>, RowError> {
    let pieces = texts(alloc, pieces)?;
    let layout = layout_of(alloc, Shape::Flat)?;
    let records = read_pieces(alloc, layout, pieces.as_slice())?;
    Ok(shown(alloc, &records)?)
}

// The pieces of records, and what is read of them.
const PIECES: [(&[&[u8]], Expected); 5] = [
    (&[], Ok(b"Total b /0")),
    (
        &[b"c  1\na  2\nb  3"],
        Ok(b"Total b a c |3 1 1|2 2 1|1 3 1/0"),
    ),
    (
        &[b"c", b"", b"  1\na  2\n", b"b  3"],
        Ok(b"Total b a c |3 1 1|2 2 1|1 3 1/0"),
    ),
    (&[b"a  1\nb 2", b"\n", b"c  1\n"], Err((2, Short))),
    (&[b"a  1\nb 2\n", b"c 1\n"], Err((2, Short))),
];

// A record may begin in one piece and end in another, and a fault in an early piece is the answer.
#[test]
fn records_of_pieces(rt: HostRuntime) {
    for (pieces, expected) in &PIECES {
        assert!(rt; agrees(&read_texts(rt.alloc(), pieces), expected));
    }
}
