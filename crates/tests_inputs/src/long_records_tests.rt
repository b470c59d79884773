use crate::microdata_tests::{Expected, agrees, agrees_at_cuts, read};
use crate::record_layouts::{Shape, layout_of};
use RowWhy::{Negative, TooLong};
use microdata::{Reader, RowError, RowWhy};
use sdc_base::Memory;
use std::alloc::Global;
use std::rt::HostRuntime;
use std::test::Fail;

// A record of so many bytes, and what follows it.
fn long_record(alloc: Global, length: usize, end: &[u8]) -> Result<Vec<u8>, Memory> {
    let mut bytes = Vec::from_slice(alloc, b"a  1")?;
    for _ in 4..length {
        bytes.push(b' ')?;
    }
    bytes.extend_from_slice(end)?;
    Ok(bytes)
}

// The lengths of records, what follows them, and what is read.
const LONG_RECORDS: [(usize, &[u8], Expected); 10] = [
    (1000, b"\n", Ok(b"Total b a |2 1 1/0")),
    (1000, b"\r\n", Ok(b"Total b a |2 1 1/0")),
    (1000, b"", Ok(b"Total b a |2 1 1/0")),
    (1001, b"\n", Err((1, TooLong))),
    (1001, b"\r\n", Err((1, TooLong))),
    (1001, b"", Err((1, TooLong))),
    (1000, b"\r", Err((1, TooLong))),
    (999, b"\r", Ok(b"Total b a |2 1 1/0")),
    (999, b"\r\r\n", Ok(b"Total b a |2 1 1/0")),
    (1000, b"\r\r\n", Err((1, TooLong))),
];

// Where a record is cut, and the sizes of the pieces behind.
const CUTS_AND_SIZES: [(usize, usize); 5] = [(0, 1), (0, 2), (0, 3), (0, 7), (500, 7)];

// Whether a long record is read so, cut at no byte or in its middle, by pieces of a few bytes.
fn agrees_by_pieces(
    alloc: Global,
    length: usize,
    end: &[u8],
    expected: &Expected,
) -> Result<bool, Memory> {
    let bytes = long_record(alloc, length, end)?;
    for (cut, size) in &CUTS_AND_SIZES {
        if !agrees(&read(alloc, Shape::Flat, &bytes, *cut, *size), expected) {
            return Ok(false);
        }
    }
    Ok(true)
}

#[test]
fn long_records_in_pieces(rt: HostRuntime) -> Result<(), Fail> {
    for (length, end, expected) in &LONG_RECORDS {
        assert!(rt; agrees_by_pieces(rt.alloc(), *length, end, expected)?);
    }
    Ok(())
}

// Whether a long record is read so at every cut.
fn agrees_however_cut(
    alloc: Global,
    length: usize,
    end: &[u8],
    expected: &Expected,
) -> Result<bool, Memory> {
    let bytes = long_record(alloc, length, end)?;
    Ok(agrees_at_cuts(alloc, Shape::Flat, &bytes, 2000, expected))
}

#[test]
fn long_records_at_every_cut(rt: HostRuntime) -> Result<(), Fail> {
    for (length, end, expected) in &LONG_RECORDS {
        assert!(rt; agrees_however_cut(rt.alloc(), *length, end, expected)?);
    }
    Ok(())
}

// Whether a reader of flat records takes the first piece, and answers this fault to each of the others and at the end.
fn stays(alloc: Global, first: &[u8], others: &[&[u8]], fault: RowError) -> Result<bool, Memory> {
    let mut reader = Reader::new(alloc, layout_of(alloc, Shape::Flat)?)?;
    if reader.feed(first) != Ok(()) {
        return Ok(false);
    }
    for piece in others {
        if reader.feed(piece) != Err(fault) {
            return Ok(false);
        }
    }
    Ok(reader.finish().err() == Some(fault))
}

// A record of 1,001 bytes whose last one is CR isn't too long as long as an LF may follow; an error stays.
#[test]
fn a_length_too_many_stays(rt: HostRuntime) -> Result<(), Fail> {
    let bytes = long_record(rt.alloc(), 1000, b"\r")?;
    let long = RowError::At {
        number: 1,
        why: TooLong,
    };
    assert!(rt; stays(rt.alloc(), &bytes, &[b"x", b"\nb  1\n"], long)?);
    Ok(())
}

// A record that has begun is looked at when it has ended; an error stays.
#[test]
fn a_negative_number_stays(rt: HostRuntime) -> Result<(), Fail> {
    let negative = RowError::At {
        number: 2,
        why: Negative,
    };
    let others: [&[u8]; 3] = [b"\na\n", b"", b"a  1\n"];
    assert!(rt; stays(rt.alloc(), b"a  1\na -1", &others, negative)?);
    Ok(())
}
