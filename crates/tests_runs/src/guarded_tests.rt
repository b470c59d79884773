use crate::jobs::{ONE_TABLE_GUARDED, ONE_VARIABLE};
use crate::runs::{WHOLE_FILES, run_over, run_words};
use office_io::MemoryTray;
use sdc_base::{Memory, Text};
use std::alloc::Global;
use std::rt::HostRuntime;
use std::test::Fail;

// Codes of one record each, of three and of four: each of the first two firms knows its own cell.
const FOUR_CODES: &str = "a 40\nb 30\nc 10\nc 10\nc 10\nd 20\nd 10\nd 10\nd 10\n";

// The files of a job that guards against contributors.
const GUARDED: [(&str, &str); 3] = [
    ("r.job", ONE_TABLE_GUARDED),
    ("m.rda", ONE_VARIABLE),
    ("m.asc", FOUR_CODES),
];

// What is said where a third cell is hidden against them.
const THREE_HIDDEN: &str =
    "0 released: 9 records, 0 skipped, 0 passed over, 5 cells, 2 primary, 3 hidden\n";

// What a run puts last: the end of the certificate, and these two files.
const PUT_LAST: &str =
    "end\nargus contributors 1\nextra 3\nneed 3 1 2 above 1 0:1\nguard 1 above 1 1:12 3:-12\nguard 1 below 1 1:-12 3:12\nguard 2 above 1 2:9 3:-9\nguard 2 below 1 2:-9 3:9\nend\nA,V\nTotal,150\na,x\nb,x\nc,x\nd,50\n";

// Whether a run says that a third cell is hidden and puts what hides it.
fn hides_third(answer: &str) -> bool {
    answer.starts_with(THREE_HIDDEN) && answer.ends_with(PUT_LAST)
}

// A job that guards against contributors: what is said and put, to the last byte.
#[test]
fn firms_that_know_their_own_cell(rt: HostRuntime) -> Result<(), Fail> {
    let got = run_over(rt.alloc(), &["run", "r.job"], &GUARDED)?;
    assert!(rt; hides_third(got.as_str()));
    Ok(())
}

// The put that fails, and how what is said begins.
const FAILING_PUTS: [(u64, &str); 4] = [
    (1, "6 write fault: certificate\n"),
    (2, "6 write fault: contributors\n"),
    (3, "6 write fault: table 1\n"),
    (4, THREE_HIDDEN),
];

// Whether a run whose put of this number fails says this, and whether it leaves a whole certificate.
fn put_fails(alloc: Global, failing: u64, said: &str) -> Result<(bool, bool), Memory> {
    let mut tray = MemoryTray::new(alloc, vec![in alloc; failing]?);
    let answer = run_words(alloc, &["run", "r.job"], &GUARDED, WHOLE_FILES, &mut tray)?;
    let name = Text::from_slice(alloc, b"t.cert")?;
    let certificate = tray.file(&name).unwrap_or(b"");
    Ok((answer.starts_with(said), certificate.ends_with(b"end\n")))
}

// The certificate is put first, then the contributors' file, then the table: where the second put fails, the certificate
// stands whole and the first bytes of that file may.
#[test]
fn contributors_file_is_put_second(rt: HostRuntime) -> Result<(), Fail> {
    for (failing, said) in &FAILING_PUTS {
        let got = put_fails(rt.alloc(), *failing, said)?;
        assert_eq!(rt; got, (true, *failing > 1));
    }
    Ok(())
}

// A put that fails: how what is said and left begins, and how it ends. What a tray in memory keeps of a text whose put
// fails is the first half of its bytes, rounded down.
#[derive(Clone, Copy)]
struct CutPut {
    failing: u64,
    start: &'static str,
    end: &'static str,
}

const CUT_PUTS: [CutPut; 3] = [
    CutPut {
        failing: 1,
        start: "6 write fault: certificate\nargus certificate 2\n",
        end: "",
    },
    CutPut {
        failing: 2,
        start: "6 write fault: contributors\nargus certificate 2\n",
        end: "end\nargus contributors 1\nextra 3\nneed 3 1 2 above 1 0:1\nguard 1 above 1 1:12 3:-12\ng",
    },
    CutPut {
        failing: 3,
        start: "6 write fault: table 1\nargus certificate 2\n",
        end: "end\nargus contributors 1\nextra 3\nneed 3 1 2 above 1 0:1\nguard 1 above 1 1:12 3:-12\nguard 1 below 1 1:-12 3:12\nguard 2 above 1 2:9 3:-9\nguard 2 below 1 2:-9 3:9\nend\nA,V\nTotal,150\na",
    },
];

// Whether a run with this put says and leaves what is wanted, and a second run over its tray then says and leaves what a
// run without a fault does.
fn is_mended(alloc: Global, put: &CutPut, release: &str) -> Result<bool, Memory> {
    let mut tray = MemoryTray::new(alloc, vec![in alloc; put.failing]?);
    let first = run_words(alloc, &["run", "r.job"], &GUARDED, WHOLE_FILES, &mut tray)?;
    let second = run_words(alloc, &["run", "r.job"], &GUARDED, WHOLE_FILES, &mut tray)?;
    let is_cut = first.starts_with(put.start) && first.ends_with(put.end);
    Ok(is_cut && second.as_str() == release)
}

// Each put fails in turn: the files before it stand whole, of its own there is the first half, and a second run mends it.
#[test]
fn second_run_mends_each_put(rt: HostRuntime) -> Result<(), Fail> {
    let release = run_over(rt.alloc(), &["run", "r.job"], &GUARDED)?;
    for put in &CUT_PUTS {
        assert!(rt; is_mended(rt.alloc(), put, release.as_str())?);
    }
    Ok(())
}
