use crate::jobs::{
    FIRMS_CERTIFICATE, FOUR_RECORDS, FOUR_RELEASED, FOUR_ROUNDED, MARGINS, MIGRATED,
    THIRTEEN_RECORDS, THREE_VARIABLES, TWO_VARIABLES, TWO_WAY, TWO_WAY_CERTIFICATE,
    TWO_WAY_RELEASED, TWO_WAY_TABLE, USAGE,
};
use crate::runs::run_over;
use std::rt::HostRuntime;
use std::test::Fail;

// Words, the files over which they are asked, and what is said and put.
#[derive(Clone, Copy)]
struct Asked {
    words: &'static [&'static str],
    files: &'static [(&'static str, &'static str)],
    want: &'static str,
}

// Each command once, a run by a method that hides and by one that rounds, and no command. All else that whole runs say
// and put over files without faults is in the cases of the folder `cases`.
const COMMANDS: [Asked; 8] = [
    Asked {
        words: &["run", "r.job"],
        files: &[
            ("r.job", TWO_WAY),
            ("m.rda", THREE_VARIABLES),
            ("m.asc", THIRTEEN_RECORDS),
            ("p.hst", MARGINS),
        ],
        want: TWO_WAY_RELEASED,
    },
    Asked {
        words: &["run", "r.job"],
        files: &[
            ("r.job", FOUR_ROUNDED),
            ("m.rda", TWO_VARIABLES),
            ("m.asc", FOUR_RECORDS),
        ],
        want: FOUR_RELEASED,
    },
    Asked {
        words: &["check", "r.job"],
        files: &[
            ("r.job", TWO_WAY),
            ("m.rda", THREE_VARIABLES),
            ("m.asc", THIRTEEN_RECORDS),
            ("p.hst", MARGINS),
            ("t.cert", TWO_WAY_CERTIFICATE),
            ("t.csv", TWO_WAY_TABLE),
        ],
        want: "0 accepted\n",
    },
    Asked {
        words: &["intervals", "r.job", "out.csv"],
        files: &[
            ("r.job", TWO_WAY),
            ("m.rda", THREE_VARIABLES),
            ("m.asc", THIRTEEN_RECORDS),
            ("p.hst", MARGINS),
            ("t.csv", TWO_WAY_TABLE),
        ],
        want: "0 intervals: 4 cells\ncell,low,high\n4,0,50\n5,20,70\n7,0,50\n8,20,70\n",
    },
    Asked {
        words: &["audit", "r.job", "out.csv"],
        files: &[
            (
                "r.job",
                "<OPENMICRODATA> \"m.asc\"\n<OPENMETADATA> \"m.rda\"\n<SPECIFYTABLE> \"A\"|\"V\"\n<SAFETYRULE> FREQ(2,60)\n<APRIORI> \"p.hst\",1,\",\"\n<SUPPRESS> RND(5)\n<WRITETABLE> (1,\"t.csv\")\n<CERTIFICATE> \"t.cert\"\n",
            ),
            ("m.rda", "A 1 1\n<RECODEABLE>\nV 2 2\n<NUMERIC>\n"),
            ("m.asc", "a 7\n"),
            ("p.hst", "a,b,4,8\n"),
            ("t.csv", "A,V\nTotal,5\na,5\n"),
        ],
        want: "0 audited: 2 primary, 2 exposed\ncell,low,high,below,above\n0,4,8,no,no\n1,4,8,no,no\nworld 0 below 1 0:-3 1:-3\nstop 0 below 1 0:1\nworld 0 above 1 0:1 1:1\nstop 0 above 1 0:-1\nworld 1 below 1 0:-3 1:-3\nstop 1 below 1\nworld 1 above 1 0:1 1:1\nstop 1 above 1\n",
    },
    Asked {
        words: &["migrate", "old.cert", "t.cert"],
        files: &[("old.cert", FIRMS_CERTIFICATE)],
        want: MIGRATED,
    },
    Asked {
        words: &["demo", "0", "1"],
        files: &[],
        want: "0 demo: status 0, 1 records, 0 skipped, 64 cells, 12 primary, 12 hidden\n",
    },
    Asked {
        words: &[],
        files: &[],
        want: USAGE,
    },
];

#[test]
fn commands(rt: HostRuntime) -> Result<(), Fail> {
    for asked in &COMMANDS {
        let got = run_over(rt.alloc(), asked.words, asked.files)?;
        assert_eq!(rt; got.as_str(), asked.want);
    }
    Ok(())
}
