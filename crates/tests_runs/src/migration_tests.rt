use crate::jobs::MIGRATED;
use crate::runs::{Pieces, WHOLE_FILES, run_words};
use office_io::MemoryTray;
use sdc_base::Memory;
use std::alloc::Global;
use std::rt::HostRuntime;
use std::test::Fail;

// The certificate of the hierarchical job in the first version of its text.
const FIRST_VERSION: &str =
    "argus certificate 1\nmethod MOD\ncells 6\nrelations 3\nhidden 1 3 4 5\nstep 1 0 4 1,4\nstep 1 1 1 1,3\nneed 1 4 above 1 0:1\nneed 3 4 above 1 0:1 1:1\nworld 4 above 1 -3 -3 3 3\nworld 4 below 1 3 3 -3 -3\nworld 5 above 1 -3 -3 3 3\nworld 5 below 1 3 3 -3 -3\nend\n";

// The call of the shelf that fails, and what is said and put.
const FAILING_READS: [(u64, &str); 4] = [
    (1, "5 read fault: certificate\n"),
    (2, "5 read fault: certificate\n"),
    (3, "5 read fault: certificate\n"),
    (4, MIGRATED),
];

// What is said and put where this call fails.
fn put_again_failing(alloc: Global, failing: u64) -> Result<String, Memory> {
    let files = [("old.cert", FIRST_VERSION)];
    let pieces = Pieces {
        bytes: 4096,
        failing,
    };
    let mut tray = MemoryTray::new(alloc, Vec::new(alloc));
    let words = ["migrate", "old.cert", "t.cert"];
    run_words(alloc, &words, &files, pieces, &mut tray)
}

// Each call of the shelf fails in turn: nothing is put before the certificate was read to its end.
#[test]
fn reads_that_fail(rt: HostRuntime) -> Result<(), Fail> {
    for (failing, want) in &FAILING_READS {
        let got = put_again_failing(rt.alloc(), *failing)?;
        assert_eq!(rt; got.as_str(), *want);
    }
    Ok(())
}

// A certificate of no hidden cell in the first version.
const SMALL: [(&str, &str); 1] = [(
    "x",
    "argus certificate 1\nmethod MOD\ncells 3\nrelations 1\nend\n",
)];

// Where the put fails, the first half of the text stands there.
#[test]
fn put_that_fails(rt: HostRuntime) -> Result<(), Fail> {
    let mut tray = MemoryTray::new(rt.alloc(), vec![in rt.alloc(); 1]?);
    let words = ["migrate", "x", "t.cert"];
    let got = run_words(rt.alloc(), &words, &SMALL, WHOLE_FILES, &mut tray)?;
    assert_eq!(rt;
        got.as_str(),
        "6 write fault: out\nargus certificate 2\nmethod "
    );
    Ok(())
}
