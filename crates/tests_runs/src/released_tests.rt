use crate::jobs::{LISTED, ONE_TABLE, ONE_TABLE_RELEASED, ONE_VARIABLE, SEVEN_RECORDS};
use crate::runs::{WHOLE_FILES, run_alone, run_either_way, run_words};
use office_io::MemoryTray;
use sdc_base::Memory;
use std::alloc::Global;
use std::rt::HostRuntime;
use std::test::Fail;

// The job of one table whose rule wants one record.
const MINIMUM_OF_ONE: &str =
    "<OPENMICRODATA> \"m.asc\"\n<OPENMETADATA> \"m.rda\"\n<SPECIFYTABLE> \"A\"|\"V\"\n<SAFETYRULE> FREQ(1,30)\n<READMICRODATA>\n<SUPPRESS> MOD()\n<WRITETABLE> (1,\"t.csv\")\n<CERTIFICATE> \"t.cert\"\n";

// The files of jobs, and what is said and put: ends of lines of two bytes and a last line without its end, codes of a
// list, and codes of a hierarchy.
const RELEASES: [(&[(&str, &str)], &str); 3] = [
    (
        &[
            ("r.job", MINIMUM_OF_ONE),
            ("m.rda", ONE_VARIABLE),
            ("m.asc", "b 30\r\na 20\r\n\r\nb 60\r\na 40"),
        ],
        "0 released: 4 records, 0 skipped, 0 passed over, 3 cells, 0 primary, 0 hidden\nargus certificate 2\nmethod MOD\ncells 3\nrelations 1\nend\nA,V\nTotal,150\na,60\nb,90\n",
    ),
    (
        &[
            ("r.job", MINIMUM_OF_ONE),
            (
                "m.rda",
                "A 1 1\n<RECODEABLE>\n<CODELIST> \"a.cdl\"\nV 2 3\n<NUMERIC>\n",
            ),
            ("a.cdl", "b,second\na,first\n"),
            ("m.asc", "c 10\na 20\n"),
        ],
        "0 released: 2 records, 0 skipped, 0 passed over, 4 cells, 0 primary, 0 hidden\nargus certificate 2\nmethod MOD\ncells 4\nrelations 1\nend\nA,V\nTotal,30\nb,0\na,20\nc,10\n",
    ),
    (
        &[
            ("r.job", MINIMUM_OF_ONE),
            ("m.rda", LISTED),
            ("a.cdl", "b,second\na,first\n"),
            ("a.hrc", "Nr\n@1\n@2\nOs\n@3\n"),
            ("m.asc", "1   10\n2   20\n3   30\n"),
        ],
        "0 released: 3 records, 0 skipped, 0 passed over, 6 cells, 0 primary, 0 hidden\nargus certificate 2\nmethod MOD\ncells 6\nrelations 3\nend\nA,V\nTotal,60\nNr,30\n1,10\n2,20\nOs,30\n3,30\n",
    ),
];

// A release is the same whether the files come whole or byte by byte.
#[test]
fn releases_in_pieces(rt: HostRuntime) -> Result<(), Fail> {
    for (files, want) in &RELEASES {
        let got = run_either_way(rt.alloc(), files)?;
        assert_eq!(rt; got.as_str(), *want);
    }
    Ok(())
}

const SMALL_JOB: [(&str, &str); 3] = [
    ("r.job", ONE_TABLE),
    ("m.rda", ONE_VARIABLE),
    ("m.asc", SEVEN_RECORDS),
];

// By the put that fails: the files before it are whole, half of its own is there.
const FAILING_PUTS: [(u64, &str); 3] = [
    (
        1,
        "6 write fault: certificate\nargus certificate 2\nmethod ",
    ),
    (
        2,
        "6 write fault: table 1\nargus certificate 2\nmethod MOD\ncells 3\nrelations 1\nend\nA,V\nTotal,15",
    ),
    (3, ONE_TABLE_RELEASED),
];

#[test]
fn each_put_fails_in_turn(rt: HostRuntime) -> Result<(), Fail> {
    for (failing, want) in &FAILING_PUTS {
        let got = run_alone(rt.alloc(), &SMALL_JOB, WHOLE_FILES, *failing)?;
        assert_eq!(rt; got.as_str(), *want);
    }
    Ok(())
}

// What a run over these records says, and then what the tray holds.
fn run_onto(alloc: Global, microdata: &str, tray: &mut MemoryTray) -> Result<String, Memory> {
    let files = [
        ("r.job", ONE_TABLE),
        ("m.rda", ONE_VARIABLE),
        ("m.asc", microdata),
    ];
    run_words(alloc, &["run", "r.job"], &files, WHOLE_FILES, tray)
}

// The records of runs one after the other over one tray, whose third put fails.
const RUNS_IN_TURN: [(&str, &str); 4] = [
    (
        "",
        "0 released: 0 records, 0 skipped, 0 passed over, 1 cells, 0 primary, 0 hidden\nargus certificate 2\nmethod MOD\ncells 1\nrelations 0\nend\nA,V\nTotal,0\n",
    ),
    (
        SEVEN_RECORDS,
        "6 write fault: certificate\nargus certificate 2\nmethod A,V\nTotal,0\n",
    ),
    (
        "a",
        "2 refused: record 1: Short\nargus certificate 2\nmethod A,V\nTotal,0\n",
    ),
    (SEVEN_RECORDS, ONE_TABLE_RELEASED),
];

// A refusal leaves the tray as it was.
#[test]
fn a_tray_with_a_release(rt: HostRuntime) -> Result<(), Fail> {
    let mut tray = MemoryTray::new(rt.alloc(), vec![in rt.alloc(); 3u64]?);
    for (microdata, want) in &RUNS_IN_TURN {
        let got = run_onto(rt.alloc(), microdata, &mut tray)?;
        assert_eq!(rt; got.as_str(), *want);
    }
    Ok(())
}
