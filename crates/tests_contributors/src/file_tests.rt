ghost use Rattle.std.specs.Prelude.{IfSome};
ghost use Rattle.certificate.specs.ExtraTexts.{IsExtraSpellable};

use attackers::{Extra, read_extra, write_extra};
use certificate::{CertError, CertWhy};
use std::alloc::Global;
use std::rt::HostRuntime;
use std::test::Fail;

// The file of the codes of one record each, with one extra cell.
const FILE: &str =
    "argus contributors 1\nextra 3\nneed 3 1 2 above 1 0:1\nguard 1 above 1 1:12 3:-12\nguard 1 below 1 1:-12 3:12\nguard 2 above 1 2:9 3:-9\nguard 2 below 1 2:-9 3:9\nend\n";

// The line and the fault for which a text isn't read.
fn fault_of(alloc: Global, text: &str) -> Option<(u64, CertWhy)> {
    match read_extra(alloc, text.as_bytes()) {
        Ok(_) => None,
        Err(CertError::At { line, why }) => Some((line, why)),
        Err(CertError::Memory) => None,
    }
}

// What a text says, none where it isn't read.
fn extra_of(alloc: Global, text: &str) -> Option<Extra>
    ensures { IfSome result (λ extra. IsExtraSpellable extra) }
{
    match read_extra(alloc, text.as_bytes()) {
        Ok(extra) => Some(extra),
        Err(_) => None,
    }
}

// What is written for a text that is read.
fn written_again(alloc: Global, text: &str) -> Result<Option<Vec<u8>>, Fail> {
    let Some(extra) = extra_of(alloc, text) else {
        return Ok(None);
    };
    Ok(Some(write_extra(alloc, &extra)?))
}

// Whether what is read is written the same.
fn is_same_again(alloc: Global, text: &str) -> Result<bool, Fail> {
    let written = written_again(alloc, text)?;
    Ok(written.as_deref() == Some(text.as_bytes()))
}

// Where nothing need be hidden further, the file is its first and its last line.
const WITHOUT_EXTRA_CELLS: &str = "argus contributors 1\nend\n";

const WRITTEN: [&str; 2] = [FILE, WITHOUT_EXTRA_CELLS];

#[test]
fn contributors_file_is_written_as_it_was_read(rt: HostRuntime) -> Result<(), Fail> {
    let alloc = rt.alloc();
    for text in &WRITTEN {
        assert!(rt; is_same_again(alloc, text)?);
    }
    Ok(())
}

// Whether the one need is that of cell 3 against the first row, which would know cell 2. Rows are from 1 in the text.
fn has_need(extra: &Extra) -> bool {
    let Some(need) = extra.needs.as_slice().first() else {
        return false;
    };
    extra.needs.as_slice().len() == 1 && (need.subject, need.row, need.cell) == (3, 0, 2)
}

// Whether a file says one extra cell, its need and four guards.
fn says_one_cell(extra: &Extra) -> bool {
    extra.cells.as_slice() == [3].as_slice()
        && has_need(extra)
        && extra.guards.as_slice().len() == 4
}

#[test]
fn contributors_file_says_one_extra_cell(rt: HostRuntime) {
    let found = extra_of(rt.alloc(), FILE);
    assert!(rt; matches!(&found, Some(extra) if says_one_cell(extra)));
}

#[test]
fn file_of_two_lines_has_no_extra_cells(rt: HostRuntime) {
    let found = extra_of(rt.alloc(), WITHOUT_EXTRA_CELLS);
    assert!(rt; matches!(&found, Some(extra) if extra.cells.as_slice().is_empty()));
}

// Texts whose first line or end doesn't stand, and their faults.
const ENDS: [(&str, (u64, CertWhy)); 5] = [
    ("", (1, CertWhy::NoEnd)),
    ("argus certificate 1\nend\n", (1, CertWhy::Version)),
    ("argus contributors 1\n", (2, CertWhy::NoEnd)),
    ("argus contributors 1\nend", (2, CertWhy::Shape)),
    ("argus contributors 1\nend\nend\n", (3, CertWhy::Shape)),
];

#[test]
fn first_line_and_end_must_stand(rt: HostRuntime) {
    let alloc = rt.alloc();
    for (text, fault) in &ENDS {
        assert_eq!(rt; fault_of(alloc, text), Some(*fault));
    }
}

// Texts with a bad second line, and its fault. In a line all tokens are looked at for their form, then for their
// numbers, then for their order.
const BAD_LINES: [(&str, CertWhy); 9] = [
    ("argus contributors 1\nextra\nend\n", CertWhy::Shape),
    ("argus contributors 1\nextra 3 03\nend\n", CertWhy::Number),
    ("argus contributors 1\nextra 3 3\nend\n", CertWhy::Order),
    (
        "argus contributors 1\nneed 3 0 2 up 1 0:1\nend\n",
        CertWhy::Shape,
    ),
    (
        "argus contributors 1\nneed 3 0 2 above 1 0:1 0:1\nend\n",
        CertWhy::Number,
    ),
    (
        "argus contributors 1\nneed 3 1 2 above 1 0:1 0:1\nend\n",
        CertWhy::Order,
    ),
    (
        "argus contributors 1\nguard 1 above 0 12\nend\n",
        CertWhy::Shape,
    ),
    (
        "argus contributors 1\nguard 1 above 1 3:0 1:2\nend\n",
        CertWhy::Number,
    ),
    (
        "argus contributors 1\nguard 1 above 1 3:1 1:2\nend\n",
        CertWhy::Order,
    ),
];

#[test]
fn faults_of_a_line_come_in_order(rt: HostRuntime) {
    let alloc = rt.alloc();
    for (text, why) in &BAD_LINES {
        assert_eq!(rt; fault_of(alloc, text), Some((2, *why)));
    }
}
