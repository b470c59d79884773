use crate::runs::run_either_way;
use std::rt::HostRuntime;
use std::test::Fail;

// Two linked tables, the second down to the first level.
const SHALLOW_MARGIN: &str =
    "<OPENMICRODATA> \"m.asc\"\n<OPENMETADATA> \"m.rda\"\n<SPECIFYTABLE> \"A\"\"R\"|\"V\"\n<SPECIFYTABLE> \"A\"|\"V\"\n<SAFETYRULE> FREQ(1,30)\n<SUPPRESS> MOD()\n<WRITETABLE> (1,\"t.csv\")\n<WRITETABLE> (2,\"u.csv\")\n<CERTIFICATE> \"t.cert\"\n<DEPTH> (2,\"A\",1)\n";

// The first down to the first level, the second whole.
const DEEPER_MARGIN: &str =
    "<OPENMICRODATA> \"m.asc\"\n<OPENMETADATA> \"m.rda\"\n<SPECIFYTABLE> \"A\"\"R\"|\"V\"\n<SPECIFYTABLE> \"A\"|\"V\"\n<SAFETYRULE> FREQ(1,30)\n<SUPPRESS> MOD()\n<WRITETABLE> (1,\"t.csv\")\n<WRITETABLE> (2,\"u.csv\")\n<CERTIFICATE> \"t.cert\"\n<DEPTH> (1,\"A\",1)\n";

// Both whole.
const WHOLE: &str =
    "<OPENMICRODATA> \"m.asc\"\n<OPENMETADATA> \"m.rda\"\n<SPECIFYTABLE> \"A\"\"R\"|\"V\"\n<SPECIFYTABLE> \"A\"|\"V\"\n<SAFETYRULE> FREQ(1,30)\n<SUPPRESS> MOD()\n<WRITETABLE> (1,\"t.csv\")\n<WRITETABLE> (2,\"u.csv\")\n<CERTIFICATE> \"t.cert\"\n";

// Both whole, with lines that say so: to the depth of the tree, and past it.
const WHOLE_BY_LINES: &str =
    "<OPENMICRODATA> \"m.asc\"\n<OPENMETADATA> \"m.rda\"\n<SPECIFYTABLE> \"A\"\"R\"|\"V\"\n<SPECIFYTABLE> \"A\"|\"V\"\n<SAFETYRULE> FREQ(1,30)\n<SUPPRESS> MOD()\n<WRITETABLE> (1,\"t.csv\")\n<WRITETABLE> (2,\"u.csv\")\n<CERTIFICATE> \"t.cert\"\n<DEPTH> (1,\"A\",2)\n<DEPTH> (2,\"A\",9)\n";

// Both down to the first level.
const SHALLOW: &str =
    "<OPENMICRODATA> \"m.asc\"\n<OPENMETADATA> \"m.rda\"\n<SPECIFYTABLE> \"A\"\"R\"|\"V\"\n<SPECIFYTABLE> \"A\"|\"V\"\n<SAFETYRULE> FREQ(1,30)\n<SUPPRESS> MOD()\n<WRITETABLE> (1,\"t.csv\")\n<WRITETABLE> (2,\"u.csv\")\n<CERTIFICATE> \"t.cert\"\n<DEPTH> (1,\"A\",1)\n<DEPTH> (2,\"A\",1)\n";

// A depth of a variable that the second table doesn't have.
const OUTSIDE: &str =
    "<OPENMICRODATA> \"m.asc\"\n<OPENMETADATA> \"m.rda\"\n<SPECIFYTABLE> \"A\"\"R\"|\"V\"\n<SPECIFYTABLE> \"A\"|\"V\"\n<SAFETYRULE> FREQ(1,30)\n<SUPPRESS> MOD()\n<WRITETABLE> (1,\"t.csv\")\n<WRITETABLE> (2,\"u.csv\")\n<CERTIFICATE> \"t.cert\"\n<DEPTH> (2,\"R\",1)\n";

// An a priori file for the second table, which goes down to the first level.
const WITH_STATUS: &str =
    "<OPENMICRODATA> \"m.asc\"\n<OPENMETADATA> \"m.rda\"\n<SPECIFYTABLE> \"A\"\"R\"|\"V\"\n<SPECIFYTABLE> \"A\"|\"V\"\n<SAFETYRULE> FREQ(1,30)\n<SUPPRESS> MOD()\n<WRITETABLE> (1,\"t.csv\")\n<WRITETABLE> (2,\"u.csv\")\n<CERTIFICATE> \"t.cert\"\n<DEPTH> (2,\"A\",1)\n<APRIORI> \"p.hst\",2,\",\"\n";

// Metadata of a variable of two levels, a flat one and the response.
const TWO_LEVELS: &str =
    "A 1 2\n<RECODEABLE>\n<HIERARCHICAL>\n<HIERLEVELS> 1 1\nR 3 2\n<RECODEABLE>\nV 5 4\n<NUMERIC>\n";

// The same records with the first field cut behind the first level.
const CUT: &str = "A 1 1\n<RECODEABLE>\nR 3 2\n<RECODEABLE>\nV 5 4\n<NUMERIC>\n";

// A record of each place, each of another power of two.
const EIGHT_RECORDS: &str =
    "11r1   1\n12r1   2\n21r1   4\n22r1   8\n11r2  16\n12r2  32\n21r2  64\n22r2 128\n";

// Jobs with their metadata and the a priori file, and what is said and put, reckoned by hand: 21 cells, of which the second
// table has none of its own; 13 cells; the same with lines that change nothing; the same as with a shorter field; a depth
// of a variable that isn't in the table; and a code that lies below the table's last level.
const DEPTH_RUNS: [(&str, &str, &str, &str); 8] = [
    (
        SHALLOW_MARGIN,
        TWO_LEVELS,
        "",
        "0 released: 8 records, 0 skipped, 0 passed over, 21 cells, 0 primary, 0 hidden\nargus certificate 2\nmethod MOD\ncells 21\nrelations 16\nend\nA,R,V\nTotal,Total,255\nTotal,r1,15\nTotal,r2,240\n1,Total,51\n1,r1,3\n1,r2,48\n11,Total,17\n11,r1,1\n11,r2,16\n12,Total,34\n12,r1,2\n12,r2,32\n2,Total,204\n2,r1,12\n2,r2,192\n21,Total,68\n21,r1,4\n21,r2,64\n22,Total,136\n22,r1,8\n22,r2,128\nA,V\nTotal,255\n1,51\n2,204\n",
    ),
    (
        DEEPER_MARGIN,
        TWO_LEVELS,
        "",
        "0 released: 8 records, 0 skipped, 0 passed over, 13 cells, 0 primary, 0 hidden\nargus certificate 2\nmethod MOD\ncells 13\nrelations 8\nend\nA,R,V\nTotal,Total,255\nTotal,r1,15\nTotal,r2,240\n1,Total,51\n1,r1,3\n1,r2,48\n2,Total,204\n2,r1,12\n2,r2,192\nA,V\nTotal,255\n1,51\n11,17\n12,34\n2,204\n21,68\n22,136\n",
    ),
    (
        WHOLE,
        TWO_LEVELS,
        "",
        "0 released: 8 records, 0 skipped, 0 passed over, 21 cells, 0 primary, 0 hidden\nargus certificate 2\nmethod MOD\ncells 21\nrelations 16\nend\nA,R,V\nTotal,Total,255\nTotal,r1,15\nTotal,r2,240\n1,Total,51\n1,r1,3\n1,r2,48\n11,Total,17\n11,r1,1\n11,r2,16\n12,Total,34\n12,r1,2\n12,r2,32\n2,Total,204\n2,r1,12\n2,r2,192\n21,Total,68\n21,r1,4\n21,r2,64\n22,Total,136\n22,r1,8\n22,r2,128\nA,V\nTotal,255\n1,51\n11,17\n12,34\n2,204\n21,68\n22,136\n",
    ),
    (
        WHOLE_BY_LINES,
        TWO_LEVELS,
        "",
        "0 released: 8 records, 0 skipped, 0 passed over, 21 cells, 0 primary, 0 hidden\nargus certificate 2\nmethod MOD\ncells 21\nrelations 16\nend\nA,R,V\nTotal,Total,255\nTotal,r1,15\nTotal,r2,240\n1,Total,51\n1,r1,3\n1,r2,48\n11,Total,17\n11,r1,1\n11,r2,16\n12,Total,34\n12,r1,2\n12,r2,32\n2,Total,204\n2,r1,12\n2,r2,192\n21,Total,68\n21,r1,4\n21,r2,64\n22,Total,136\n22,r1,8\n22,r2,128\nA,V\nTotal,255\n1,51\n11,17\n12,34\n2,204\n21,68\n22,136\n",
    ),
    (
        SHALLOW,
        TWO_LEVELS,
        "",
        "0 released: 8 records, 0 skipped, 0 passed over, 9 cells, 0 primary, 0 hidden\nargus certificate 2\nmethod MOD\ncells 9\nrelations 6\nend\nA,R,V\nTotal,Total,255\nTotal,r1,15\nTotal,r2,240\n1,Total,51\n1,r1,3\n1,r2,48\n2,Total,204\n2,r1,12\n2,r2,192\nA,V\nTotal,255\n1,51\n2,204\n",
    ),
    (
        WHOLE,
        CUT,
        "",
        "0 released: 8 records, 0 skipped, 0 passed over, 9 cells, 0 primary, 0 hidden\nargus certificate 2\nmethod MOD\ncells 9\nrelations 6\nend\nA,R,V\nTotal,Total,255\nTotal,r1,15\nTotal,r2,240\n1,Total,51\n1,r1,3\n1,r2,48\n2,Total,204\n2,r1,12\n2,r2,192\nA,V\nTotal,255\n1,51\n2,204\n",
    ),
    (
        OUTSIDE,
        TWO_LEVELS,
        "",
        "2 refused: job line 10: NotInTable\n",
    ),
    (
        WITH_STATUS,
        TWO_LEVELS,
        "1,s\n11,s\n",
        "2 refused: apriori table 2 line 2: UnknownCode\n",
    ),
];

// Tables at several depths share their cells, and a depth that no code exceeds changes no byte.
#[test]
fn tables_at_depths(rt: HostRuntime) -> Result<(), Fail> {
    for (job, metadata, statuses, want) in &DEPTH_RUNS {
        let files = [
            ("r.job", *job),
            ("m.rda", *metadata),
            ("m.asc", EIGHT_RECORDS),
            ("p.hst", *statuses),
        ];
        let got = run_either_way(rt.alloc(), &files)?;
        assert_eq!(rt; got.as_str(), *want);
    }
    Ok(())
}
