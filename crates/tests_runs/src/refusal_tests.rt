use crate::jobs::{LISTED, ONE_TABLE, ONE_VARIABLE, THIRTEEN_RECORDS, THREE_VARIABLES, TWO_WAY};
use crate::runs::{Pieces, run_alone, run_either_way};
use sdc_base::Memory;
use std::alloc::Global;
use std::rt::HostRuntime;
use std::test::Fail;

// The files of jobs with a fault in one of each kind, and what is said.
const REFUSALS: [(&[(&str, &str)], &str); 5] = [
    (
        &[(
            "r.job",
            "<OPENMICRODATA> \"m.asc\"\n<OPENMETADATA> \"m.rda\"\n<SPECIFYTABLE> \"A\"|\"V\"\n<SAFETYRULE> FREQ(3,30\n",
        )],
        "2 refused: job line 4: BadValue\n",
    ),
    (
        &[("r.job", ONE_TABLE), ("m.rda", "<X>"), ("m.asc", "a")],
        "2 refused: metadata line 1: UnknownKeyword\n",
    ),
    (
        &[
            ("r.job", ONE_TABLE),
            (
                "m.rda",
                "A 1 1\n<CODELIST> \"a.cdl\"\n<HIERARCHICAL>\n<HIERCODELIST> \"j.hrc\"\nV 2 3\n<NUMERIC>\n",
            ),
            ("a.cdl", "b,second\na,first\n"),
            ("j.hrc", "Nr\n@@1"),
            ("m.asc", "a"),
        ],
        "2 refused: hierarchy 1 line 2: Jump\n",
    ),
    (
        &[
            ("r.job", ONE_TABLE),
            ("m.rda", ONE_VARIABLE),
            ("m.asc", "a 10\na 2\n"),
        ],
        "2 refused: record 2: Short\n",
    ),
    (
        &[
            ("r.job", TWO_WAY),
            ("m.rda", THREE_VARIABLES),
            ("m.asc", THIRTEEN_RECORDS),
            ("p.hst", "a1,b2,c,5\na1,b2,c,6\n"),
        ],
        "2 refused: apriori table 1 line 2: Twice\n",
    ),
];

// The first fault is the same whether the files come whole or byte by byte.
#[test]
fn refusals_in_pieces(rt: HostRuntime) -> Result<(), Fail> {
    for (files, want) in &REFUSALS {
        let got = run_either_way(rt.alloc(), files)?;
        assert_eq!(rt; got.as_str(), *want);
    }
    Ok(())
}

// What each file of a job is called in reports, in the order in which they are read.
const NAMES: [&str; 6] = [
    "job",
    "metadata",
    "codelist 1",
    "hierarchy 1",
    "microdata",
    "apriori table 1",
];

// The files of a job that reads one of each kind, in this order.
const SIX_FILES: [(&str, &str); 6] = [
    (
        "r.job",
        "<OPENMICRODATA> \"m.asc\"\n<OPENMETADATA> \"m.rda\"\n<SPECIFYTABLE> \"A\"|\"V\"\n<SAFETYRULE> FREQ(3,30)\n<READMICRODATA>\n<APRIORI> \"p.hst\",1,\",\"\n<SUPPRESS> MOD()\n<WRITETABLE> (1,\"t.csv\")\n<CERTIFICATE> \"t.cert\"\n",
    ),
    ("m.rda", LISTED),
    ("a.cdl", "b,second\na,first\n"),
    ("a.hrc", "Nr\n@1\n@2\nOs\n@3\n"),
    ("m.asc", "1   10\n2   20\n3   30\n"),
    ("p.hst", "Total,p\n"),
];

// The first of these calls whose failure isn't answered by a fault of the file of this name.
fn first_wrong(
    alloc: Global,
    bytes: u32,
    calls: [u64; 3],
    name: &str,
) -> Result<Option<u64>, Memory> {
    let want = format!(in alloc; "5 read fault: {name}\n")?;
    for failing in calls {
        let got = run_alone(alloc, &SIX_FILES, Pieces { bytes, failing }, 0)?;
        if got.as_str() != want.as_str() {
            return Ok(Some(failing));
        }
    }
    Ok(None)
}

// The first of all calls that fail whose failure is answered otherwise, where files come in pieces of so many bytes. Of
// the calls to each file one begins it, one comes for each piece, and one finds the end.
fn wrong_call(alloc: Global, bytes: u32) -> Result<Option<u64>, Memory> {
    let mut before = 0u64;
    for (name, file) in NAMES.iter().zip(SIX_FILES) {
        let pieces = file.1.len().div_ceil(bytes.max(1) as usize) as u64;
        let first = before.saturating_add(1);
        let last = first.saturating_add(pieces).saturating_add(1);
        let wrong = first_wrong(alloc, bytes, [first, first.saturating_add(1), last], name)?;
        if wrong.is_some() {
            return Ok(wrong);
        }
        before = last;
    }
    Ok(None)
}

const PIECES: [u32; 3] = [1, 1000, 4096];

// The calls to each file that fail.
#[test]
fn each_file_in_turn(rt: HostRuntime) -> Result<(), Fail> {
    for bytes in &PIECES {
        let wrong = wrong_call(rt.alloc(), *bytes)?;
        assert_eq!(rt; wrong, None);
    }
    Ok(())
}
