use crate::jobs::{ONE_TABLE, ONE_TABLE_RELEASED, ONE_VARIABLE, SEVEN_RECORDS};
use crate::runs::{Pieces, run_alone};
use sdc_base::Memory;
use std::alloc::Global;
use std::rt::HostRuntime;
use std::test::Fail;

// So many blanks.
fn blanks(alloc: Global, count: u32) -> Result<String, Memory> {
    let mut text = String::new(alloc);
    for _ in 0..count {
        text.push(' ')?;
    }
    Ok(text)
}

// The seven records with so many blanks and this behind the last of them, which has four bytes itself.
fn ran_with_end(alloc: Global, count: u32, end: &str, bytes: u32) -> Result<String, Memory> {
    let blanks = blanks(alloc, count)?;
    let seven = SEVEN_RECORDS.trim_end();
    let records = format!(in alloc; "{seven}{blanks}{end}")?;
    let files = [
        ("r.job", ONE_TABLE),
        ("m.rda", ONE_VARIABLE),
        ("m.asc", records.as_str()),
    ];
    run_alone(alloc, &files, Pieces { bytes, failing: 0 }, 0)
}

// The end of a line, and how many bytes a piece of the file has.
const ENDS: [(&str, u32); 9] = [
    ("", 1),
    ("\n", 1),
    ("\r\n", 1),
    ("", 1000),
    ("\n", 1000),
    ("\r\n", 1000),
    ("", 4096),
    ("\n", 4096),
    ("\r\n", 4096),
];

// A record has at most 1,000 bytes, without the end of its line.
#[test]
fn long_records(rt: HostRuntime) -> Result<(), Fail> {
    for (end, bytes) in &ENDS {
        let got = ran_with_end(rt.alloc(), 996, end, *bytes)?;
        assert_eq!(rt; got.as_str(), ONE_TABLE_RELEASED);
    }
    Ok(())
}

// One of 1,001 bytes is too long.
#[test]
fn longer_records(rt: HostRuntime) -> Result<(), Fail> {
    for (end, bytes) in &ENDS {
        let got = ran_with_end(rt.alloc(), 997, end, *bytes)?;
        assert_eq!(rt; got.as_str(), "2 refused: record 7: TooLong\n");
    }
    Ok(())
}
