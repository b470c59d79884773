use JobWhy::{
    BadLine, BadValue, Missing, NoSuchTable, NoSuchVariable, NoWeight, NotInTable, NotNumeric,
    NotSpanning, OtherResponse, SameName, TooMany, Twice, UnknownCommand,
};
use job_lang::{Command, JobError, JobWhy, OutputLine, bind, metadata_fit, read_job};
use rda_meta::read_meta;
use sdc_base::Dimension;
use std::alloc::Global;
use std::rt::HostRuntime;
use std::test::Fail;

// How many tables and rules a job has, or the line of its first fault and what is wrong with it.
type Answer = Result<(usize, usize), (u32, JobWhy)>;

// What reading the text gives; nothing where memory wants.
fn answer(alloc: Global, text: &[u8]) -> Option<Answer> {
    if text.len() > 10000 {
        return None;
    }
    match read_job(alloc, text) {
        Ok(job) => Some(Ok((job.tables.as_slice().len(), job.rules.list.as_slice().len()))),
        Err(JobError::At { line, why }) => Some(Err((line, why))),
        Err(JobError::Memory) => None,
    }
}

// Jobs, and what reading each gives.
const WHOLE_JOBS: [(&str, Answer); 20] = [
    // in any order of the lines, with CR and LF, without the last end
    (
        "<CERTIFICATE> \"c\"\r\n<WRITETABLE>(1,\"t\")\r\n<SUPPRESS>mod( )\r\n<SAFETYRULE>p(10)\r\n<SPECIFYTABLE>\"A\"|\"V\"\r\n<OPENMETADATA>\"m\"\r\n<OPENMICRODATA>\"d\"",
        Ok((1, 1)),
    ),
    // two outputs of one name: the earlier line
    (
        "<OPENMICRODATA> \"d\"\n<OPENMETADATA> \"m\"\n<SPECIFYTABLE> \"A\"|\"V\"\n<SPECIFYTABLE> \"B\"|\"V\"\n<WRITETABLE> (2,\"t\")\n<WRITETABLE> (1,\"t\")\n",
        Err((5, SameName)),
    ),
    (
        "<CERTIFICATE> \"t\"\n<SPECIFYTABLE> \"A\"|\"V\"\n<WRITETABLE> (1,\"t\")\n",
        Err((1, SameName)),
    ),
    (
        "<WRITETABLE> (1,\"d\")\n<SPECIFYTABLE> \"A\"|\"V\"\n<OPENMICRODATA> \"d\"\n",
        Err((1, SameName)),
    ),
    // what is missing
    ("", Err((0, Missing(Command::OpenMicrodata)))),
    (
        "<OPENMICRODATA> \"d\"",
        Err((0, Missing(Command::OpenMetadata))),
    ),
    (
        "<OPENMICRODATA> \"d\"\n<OPENMETADATA> \"d\"\n",
        Err((0, Missing(Command::SpecifyTable))),
    ),
    (
        "<OPENMICRODATA> \"d\"\n<OPENMETADATA> \"m\"\n<SPECIFYTABLE> \"A\"|\"V\"",
        Err((0, Missing(Command::SafetyRule))),
    ),
    (
        "<OPENMICRODATA> \"d\"\n<OPENMETADATA> \"m\"\n<SPECIFYTABLE> \"A\"|\"V\"\n<SAFETYRULE> P(1)",
        Err((0, Missing(Command::Suppress))),
    ),
    (
        "<OPENMICRODATA> \"d\"\n<OPENMETADATA> \"m\"\n<SPECIFYTABLE> \"A\"|\"V\"\n<SAFETYRULE> P(1)\n<SUPPRESS> GH(8)",
        Err((0, Missing(Command::WriteTable))),
    ),
    (
        "<OPENMICRODATA> \"d\"\n<OPENMETADATA> \"m\"\n<SPECIFYTABLE> \"A\"|\"V\"\n<SAFETYRULE> P(1)\n<SUPPRESS> RND(1000000000)\n<WRITETABLE> (1,\"t\")",
        Err((0, Missing(Command::Certificate))),
    ),
    // eight different variables, and one more
    (
        "<SPECIFYTABLE> \"A\"\"B\"\"C\"\"D\"|\"V\"\n<SPECIFYTABLE> \"E\"\"F\"\"G\"\"H\"|\"V\"\n<SPECIFYTABLE> \"A\"\"H\"|\"V\"",
        Err((0, Missing(Command::OpenMicrodata))),
    ),
    (
        "<SPECIFYTABLE> \"A\"\"B\"\"C\"\"D\"|\"V\"\n<SPECIFYTABLE> \"E\"\"F\"\"G\"\"H\"|\"V\"\n<SPECIFYTABLE> \"I\"|\"W\"\nx",
        Err((3, TooMany)),
    ),
    (
        "<SPECIFYTABLE> \"A\"|\"V\"\n<SPECIFYTABLE> \"B\"|\"v\"\nx",
        Err((2, OtherResponse)),
    ),
    // eight tables, and one more
    (
        "<SPECIFYTABLE>\"A\"|\"V\"\n<SPECIFYTABLE>\"A\"|\"V\"\n<SPECIFYTABLE>\"A\"|\"V\"\n<SPECIFYTABLE>\"A\"|\"V\"\n<SPECIFYTABLE>\"A\"|\"V\"\n<SPECIFYTABLE>\"A\"|\"V\"\n<SPECIFYTABLE>\"A\"|\"V\"\n<SPECIFYTABLE>\"A\"|\"V\"\nx",
        Err((9, BadLine)),
    ),
    (
        "<SPECIFYTABLE>\"A\"|\"V\"\n<SPECIFYTABLE>\"A\"|\"V\"\n<SPECIFYTABLE>\"A\"|\"V\"\n<SPECIFYTABLE>\"A\"|\"V\"\n<SPECIFYTABLE>\"A\"|\"V\"\n<SPECIFYTABLE>\"A\"|\"V\"\n<SPECIFYTABLE>\"A\"|\"V\"\n<SPECIFYTABLE>\"A\"|\"V\"\n<SPECIFYTABLE>\"A\"|\"V\"\n",
        Err((9, TooMany)),
    ),
    // depths: their range, one more for the same table and variable, and a variable of another table
    (
        "<DEPTH> (1,\"A\",1)\n<depth>( 2 , \"A\" , 09 )\n<DEPTH> (1,\"B\",10)",
        Err((3, BadValue)),
    ),
    (
        "<DEPTH> (1,\"A\",1)\n<DEPTH> (1,\"a\",1)\n<DEPTH> (01,\"A\",2)",
        Err((3, Twice)),
    ),
    (
        "<SPECIFYTABLE> \"A\"|\"V\"\n<SPECIFYTABLE> \"B\"|\"V\"\n<DEPTH> (1,\"B\",1)\n<DEPTH> (0,\"A\",1)",
        Err((4, NoSuchTable)),
    ),
    (
        "<SPECIFYTABLE> \"A\"|\"V\"\n<SPECIFYTABLE> \"B\"|\"V\"\n<DEPTH> (2,\"B\",1)\n<DEPTH> (1,\"B\",1)",
        Err((4, NotInTable)),
    ),
];

#[test]
fn whole_jobs(rt: HostRuntime) {
    for (text, expected) in &WHOLE_JOBS {
        assert_eq!(rt; answer(rt.alloc(), text.as_bytes()), Some(*expected));
    }
}

// Rules, and whether they are accepted.
const RULES: [(&str, bool); 51] = [
    ("FREQ(1,0)", true),
    ("FREQ(1000000,1000)", true),
    ("FREQ(0,30)", false),
    ("FREQ(1000001,30)", false),
    ("FREQ(3,1001)", false),
    ("NK(1,1)", true),
    ("NK(10,100)", true),
    ("NK(0,1)", false),
    ("NK(11,1)", false),
    ("NK(1,0)", false),
    ("NK(1,101)", false),
    ("P(0)", false),
    ("P(1)", true),
    ("P(1000)", true),
    ("P(1001)", false),
    ("P(10,1)", true),
    ("P(10,2)", false),
    ("P(10,)", false),
    ("PQ(1,1)", true),
    ("PQ(1000,1000)", true),
    ("pq ( 011 , 100 )", true),
    ("PQ(0,1)", false),
    ("PQ(1,0)", false),
    ("PQ(1001,1)", false),
    ("PQ(1,1001)", false),
    ("PQ(10)", false),
    ("PQ(10,100)|PQ(1,2)", true),
    ("ZERO(1)", true),
    ("Zero(1000000000)", true),
    ("ZERO(0)", false),
    ("ZERO(1000000001)", false),
    ("ZERO(1,1)", false),
    ("ZERO(5)|ZERO(5)", false),
    ("ZERO(5)|FREQ(3,30)|MAN(20)|WGT(1)", true),
    ("ZERO(5)|P(1)|P(1)|P(1)|P(1)|P(1)|P(1)|PQ(1,1)", true),
    ("ZERO(5)|P(1)|P(1)|P(1)|P(1)|P(1)|P(1)|P(1)|PQ(1,1)", false),
    ("P(1)|MAN(0)", true),
    ("P(1)|MAN(1001)", false),
    ("P(1)|MAN(1)|MAN(1)", false),
    ("MAN(20)", false),
    ("P(1)|WGT(1)", true),
    ("P(1)|WGT(2)", false),
    ("P(1)|WGT(0)|WGT(1)", false),
    ("FREQ(3,30)|FREQ(3,30)", false),
    ("freq ( 003 , 30 ) | wgt ( 1 )", true),
    ("P(1)|P(1)|P(1)|P(1)|P(1)|P(1)|P(1)|P(1)", true),
    ("P(1)|P(1)|P(1)|P(1)|P(1)|P(1)|P(1)|P(1)|P(1)", false),
    ("P(1)|", false),
    ("P(1) P(2)", false),
    ("P 1", false),
    ("", false),
];

// Whether the rules are accepted, as the line of them alone shows; nothing where it shows something else.
fn are_rules(alloc: Global, rules: &str) -> Result<Option<bool>, Fail> {
    let text = format!(in alloc; "<SAFETYRULE> {rules}\n")?;
    match answer(alloc, text.as_bytes()) {
        Some(Err((0, Missing(Command::OpenMicrodata)))) => Ok(Some(true)),
        Some(Err((1, BadValue))) => Ok(Some(false)),
        _ => Ok(None),
    }
}

#[test]
fn rules_and_their_bounds(rt: HostRuntime) -> Result<(), Fail> {
    for (rules, accepted) in &RULES {
        assert_eq!(rt; are_rules(rt.alloc(), rules)?, Some(*accepted));
    }
    Ok(())
}

// Lines behind the eight of a job, and what reading them all gives.
const NINTH_LINES: [(&str, Answer); 63] = [
    (" \t", Ok((1, 1))),
    ("  // <x", Ok((1, 1))),
    ("/ x", Err((9, BadLine))),
    ("STEPS 1", Err((9, BadLine))),
    ("<STEPS 1", Err((9, BadLine))),
    ("<>", Err((9, BadLine))),
    ("< STEPS> 1", Err((9, UnknownCommand))),
    ("<RECODE> \"A\"", Err((9, UnknownCommand))),
    ("<steps>001", Ok((1, 1))),
    ("<STEPS> 0", Err((9, BadValue))),
    ("<STEPS> 1000000000000", Ok((1, 1))),
    ("<STEPS> 1000000000001", Err((9, BadValue))),
    ("<NODES> 1 1", Err((9, BadValue))),
    ("<NODES> -1", Err((9, BadValue))),
    ("<COST> unit", Ok((1, 1))),
    ("<COST> price", Err((9, BadValue))),
    ("<OPENMICRODATA> \"x\"", Err((9, Twice))),
    ("<OPENMICRODATA> x", Err((9, BadValue))),
    ("<OPENMETADATA> \"x\"", Err((9, Twice))),
    ("<OPENMETADATA> \"\"", Err((9, BadValue))),
    ("<SAFETYRULE> P(1)", Err((9, Twice))),
    ("<READMICRODATA>", Err((9, Twice))),
    ("<READMICRODATA> x", Err((9, BadValue))),
    ("<SUPPRESS> GH(1)", Err((9, Twice))),
    ("<SUPPRESS> GH(9)", Err((9, BadValue))),
    ("<SUPPRESS> RND(0)", Err((9, BadValue))),
    ("<SUPPRESS> OPT(1)", Err((9, BadValue))),
    ("<CERTIFICATE> \"c\"", Err((9, Twice))),
    ("<CONTRIBUTORS> \"g\"", Ok((1, 1))),
    ("<contributors>\"g\" ", Ok((1, 1))),
    ("<CONTRIBUTORS>", Err((9, BadValue))),
    ("<CONTRIBUTORS> g", Err((9, BadValue))),
    ("<CONTRIBUTORS> \"\"", Err((9, BadValue))),
    ("<CONTRIBUTORS> \"g\" \"h\"", Err((9, BadValue))),
    ("<CONTRIBUTOR> \"g\"", Err((9, UnknownCommand))),
    (
        "<CONTRIBUTORS> \"g\"\n<CONTRIBUTORS> \"g\"",
        Err((10, Twice)),
    ),
    ("<CONTRIBUTORS> \"m.asc\"", Err((9, SameName))),
    ("<CONTRIBUTORS> \"t.csv\"", Err((7, SameName))),
    ("<CONTRIBUTORS> \"t.cert\"", Err((8, SameName))),
    ("<WRITETABLE> (01,\"u\")", Err((9, Twice))),
    ("<WRITETABLE> (2,\"u\")", Err((9, NoSuchTable))),
    ("<WRITETABLE> (0,\"u\")", Err((9, NoSuchTable))),
    (
        "<WRITETABLE> (99999999999999999999,\"u\")",
        Err((9, NoSuchTable)),
    ),
    ("<APRIORI> \"p\",1,\",\"", Ok((1, 1))),
    ("<APRIORI> \"p\" , 1 , \";\"", Ok((1, 1))),
    ("<APRIORI> \"p\",1,\"\t\"", Err((9, BadValue))),
    ("<APRIORI> \"p\",1,\"'\"", Ok((1, 1))),
    ("<APRIORI> \"p\",1,\"5\"", Err((9, BadValue))),
    ("<APRIORI> \"p\",1,\".\"", Err((9, BadValue))),
    ("<APRIORI> \"p\",1,\" \"", Err((9, BadValue))),
    ("<APRIORI> \"p\",1,\";;\"", Err((9, BadValue))),
    ("<APRIORI> \"p\",2,\",\"", Err((9, NoSuchTable))),
    ("<APRIORI> \"t.csv\",1,\",\"", Err((7, SameName))),
    ("<APRIORI> \"t.cert\",1,\",\"", Err((8, SameName))),
    ("<SPECIFYTABLE> \"B\"|\"W\"", Err((9, OtherResponse))),
    (
        "<SPECIFYTABLE> \"B\"|\"V\"",
        Err((0, Missing(Command::WriteTable))),
    ),
    (
        "<SPECIFYTABLE> \"B\"\"C\"\"D\"\"E\"\"F\"\"G\"|\"V\"|\"V\"|\"\"||",
        Err((0, Missing(Command::WriteTable))),
    ),
    ("<SPECIFYTABLE> \"B\"|\"V\"|\"B\"", Err((9, BadValue))),
    ("<SPECIFYTABLE> \"B\"|\"V\"||\"V\"", Err((9, BadValue))),
    ("<SPECIFYTABLE> \"B\"|\"V\" \"\"", Err((9, BadValue))),
    ("<SPECIFYTABLE> \"B\"\"C\"\"B\"|\"V\"", Err((9, BadValue))),
    (
        "<SPECIFYTABLE> \"B\"\"C\"\"D\"\"E\"\"F\"\"G\"\"H\"|\"V\"",
        Err((9, BadValue)),
    ),
    ("<SPECIFYTABLE> |\"V\"", Err((9, BadValue))),
];

// What reading a job of eight lines gives with these behind them.
fn answer_behind_eight(alloc: Global, lines: &str) -> Result<Option<Answer>, Fail> {
    let text = format!(in alloc;
        "<OPENMICRODATA> \"m.asc\"\n<OPENMETADATA> \"m.rda\"\n<SPECIFYTABLE> \"A\"|\"V\"\n<SAFETYRULE> FREQ(3,30)\n<READMICRODATA>\n<SUPPRESS> MOD()\n<WRITETABLE> (1,\"t.csv\")\n<CERTIFICATE> \"t.cert\"\n{lines}\n"
    )?;
    Ok(answer(alloc, text.as_bytes()))
}

#[test]
fn a_ninth_line(rt: HostRuntime) -> Result<(), Fail> {
    for (line, expected) in &NINTH_LINES {
        assert_eq!(rt; answer_behind_eight(rt.alloc(), line)?, Some(*expected));
    }
    Ok(())
}

// The line of a job's contributors' file, where the job names `g.txt`; or the line of its first fault and what is wrong
// with it.
type Contributors = Result<Option<u32>, (u32, JobWhy)>;

// What the text says of its contributors' file; nothing where memory wants or the file has another name than `g.txt`.
fn contributors_of(alloc: Global, text: &[u8]) -> Option<Contributors> {
    if text.len() > 10000 {
        return None;
    }
    match read_job(alloc, text) {
        Ok(job) => named_line(&job.contributors).map(Ok),
        Err(JobError::At { line, why }) => Some(Err((line, why))),
        Err(JobError::Memory) => None,
    }
}

// The line of the contributors' file, where there is one; nothing where it has another name than `g.txt`.
fn named_line(contributors: &Option<OutputLine>) -> Option<Option<u32>> {
    match contributors {
        None => Some(None),
        Some(output) => {
            if output.file.as_slice() == b"g.txt".as_slice() {
                Some(Some(output.line))
            } else {
                None
            }
        }
    }
}

// Methods, lines behind the eight of a job, and what these say of its contributors' file.
const CONTRIBUTORS_BY_METHOD: [(&str, &str, Contributors); 9] = [
    ("MOD()", "", Ok(None)),
    ("MOD()", "<CONTRIBUTORS> \"g.txt\"", Ok(Some(9))),
    ("GH(1)", "\n <contributors>\"g.txt\"", Ok(Some(10))),
    (
        "MOD()",
        "<CONTRIBUTORS> \"g.txt\"\n<WRITETABLE> (2,\"u\")",
        Err((10, NoSuchTable)),
    ),
    ("RND(5)", "", Ok(None)),
    ("RND(5)", "<CONTRIBUTORS> \"g.txt\"", Err((9, BadValue))),
    // before the number of no table on a line above it, and before its own name meets another
    (
        "RND(5)",
        "<WRITETABLE> (2,\"u\")\n<CONTRIBUTORS> \"g.txt\"",
        Err((10, BadValue)),
    ),
    ("RND(5)", "<CONTRIBUTORS> \"m.asc\"", Err((9, BadValue))),
    // behind the fault of a line below it
    (
        "RND(5)",
        "<CONTRIBUTORS> \"g.txt\"\n<RECODE> \"A\"",
        Err((10, UnknownCommand)),
    ),
];

// What a job of eight lines with this method says of its contributors' file, with these lines behind them.
fn contributors_behind_eight(
    alloc: Global,
    method: &str,
    lines: &str,
) -> Result<Option<Contributors>, Fail> {
    let text = format!(in alloc;
        "<OPENMICRODATA> \"m.asc\"\n<OPENMETADATA> \"m.rda\"\n<SPECIFYTABLE> \"A\"|\"V\"\n<SAFETYRULE> FREQ(3,30)\n<READMICRODATA>\n<SUPPRESS> {method}\n<WRITETABLE> (1,\"t.csv\")\n<CERTIFICATE> \"t.cert\"\n{lines}\n"
    )?;
    Ok(contributors_of(alloc, text.as_bytes()))
}

#[test]
fn contributors_by_method(rt: HostRuntime) -> Result<(), Fail> {
    for (method, lines, expected) in &CONTRIBUTORS_BY_METHOD {
        assert_eq!(rt;
            contributors_behind_eight(rt.alloc(), method, lines)?,
            Some(*expected)
        );
    }
    Ok(())
}

// The places of a bound job: how many variables span its tables, the response, the digits of a unit and the scale; or
// the line of the first fault and what is wrong with it.
type Places = Result<(usize, u32, u8, u32), (u32, JobWhy)>;

// What binding the job of one text to the metadata of another gives; nothing where one isn't read or memory wants.
fn places(alloc: Global, job: &[u8], meta: &[u8]) -> Option<Places> {
    metadata_fit();
    if job.len() > 10000 || meta.len() > 10000 {
        return None;
    }
    let Ok(job) = read_job(alloc, job) else {
        return None;
    };
    let Ok(meta) = read_meta(alloc, meta) else {
        return None;
    };
    match bind(alloc, &job, &meta) {
        Ok(bound) => Some(Ok((
            bound.spanning.as_slice().len(),
            bound.response,
            bound.decimals,
            bound.scale,
        ))),
        Err(JobError::At { line, why }) => Some(Err((line, why))),
        Err(JobError::Memory) => None,
    }
}

// A job of one variable.
const FLAT: &str =
    "<OPENMICRODATA> \"m.asc\"\n<OPENMETADATA> \"m.rda\"\n<SPECIFYTABLE> \"A\"|\"V\"\n<SAFETYRULE> FREQ(3,30)\n<SUPPRESS> MOD()\n<WRITETABLE> (1,\"t.csv\")\n<CERTIFICATE> \"t.cert\"\n";

// The same with a contributors' file, in its first line.
const GUARDED: &str =
    "<CONTRIBUTORS> \"g.txt\"\n<OPENMICRODATA> \"m.asc\"\n<OPENMETADATA> \"m.rda\"\n<SPECIFYTABLE> \"A\"|\"V\"\n<SAFETYRULE> FREQ(3,30)\n<SUPPRESS> MOD()\n<WRITETABLE> (1,\"t.csv\")\n<CERTIFICATE> \"t.cert\"\n";

// A job of two variables whose records have weights.
const WEIGHTED: &str =
    "<WRITETABLE> (1,\"t.csv\")\n<SAFETYRULE> P(10)|WGT(1)\n<OPENMICRODATA> \"m.asc\"\n<OPENMETADATA> \"m.rda\"\n<SPECIFYTABLE> \"B\"\"A\"|\"V\"\n<SUPPRESS> MOD()\n<CERTIFICATE> \"t.cert\"\n";

// Jobs, metadata, and what binding the one to the other gives.
const BOUND_JOBS: [(&str, &str, Places); 16] = [
    (FLAT, "A 1 1\nV 2 3\n<NUMERIC>\n", Ok((1, 1, 0, 1))),
    (
        FLAT,
        "V 2 3\n<NUMERIC>\n<DECIMALS> 2\nW 5 1\n<WEIGHT>\n<DECIMALS> 3\nA 1 1\n",
        Ok((1, 0, 2, 1)),
    ),
    (FLAT, "a 1 1\nV 2 3\n<NUMERIC>\n", Err((3, NoSuchVariable))),
    (
        FLAT,
        "A 1 1\n<NUMERIC>\nW 2 3\n<NUMERIC>\n",
        Err((3, NoSuchVariable)),
    ),
    (FLAT, "A 1 1\n<NUMERIC>\nV 2 3\n", Err((3, NotSpanning))),
    (FLAT, "A 1 1\nV 2 3\n", Err((3, NotNumeric))),
    (
        FLAT,
        "A 1 1\n<CODELIST> t.csv\nV 2 3\n<NUMERIC>\n",
        Err((6, SameName)),
    ),
    (
        FLAT,
        "A 1 1\n<HIERCODELIST> t.cert\nV 2 3\n<NUMERIC>\n",
        Err((7, SameName)),
    ),
    (
        FLAT,
        "A 1 1\nB 1 1\n<CODELIST> t.csv\nV 2 3\n<NUMERIC>\n<CODELIST> t.csv\n",
        Ok((1, 2, 0, 1)),
    ),
    (
        GUARDED,
        "A 1 1\n<CODELIST> c.txt\nV 2 3\n<NUMERIC>\n<CODELIST> g.txt\n",
        Ok((1, 1, 0, 1)),
    ),
    (
        GUARDED,
        "A 1 1\n<CODELIST> g.txt\nV 2 3\n<NUMERIC>\n",
        Err((1, SameName)),
    ),
    (
        GUARDED,
        "A 1 1\n<HIERCODELIST> g.txt\nV 2 3\n",
        Err((1, SameName)),
    ),
    (
        WEIGHTED,
        "A 1 1\nB 1 1\nV 2 3\n<NUMERIC>\n",
        Err((2, NoWeight)),
    ),
    (
        WEIGHTED,
        "A 1 1\n<CODELIST> t.csv\nB 1 1\nV 2 3\n<NUMERIC>\n",
        Err((1, SameName)),
    ),
    (
        WEIGHTED,
        "A 1 1\nC 1 1\nV 2 3\n<NUMERIC>\nW 5 3\n<WEIGHT>\n",
        Err((5, NoSuchVariable)),
    ),
    (
        WEIGHTED,
        "A 1 1\nB 1 1\nV 2 3\n<NUMERIC>\n<DECIMALS> 1\nW 5 3\n<WEIGHT>\n<DECIMALS> 2\n",
        Ok((2, 2, 3, 100)),
    ),
];

#[test]
fn jobs_bound_to_metadata(rt: HostRuntime) {
    for (job, meta, expected) in &BOUND_JOBS {
        assert_eq!(rt;
            places(rt.alloc(), job.as_bytes(), meta.as_bytes()),
            Some(*expected)
        );
    }
}

// The last variable of the last table of a bound job, with its depth; nothing where one isn't read or memory wants.
fn last_dimension(alloc: Global, job: &[u8], meta: &[u8]) -> Option<Dimension> {
    metadata_fit();
    if job.len() > 10000 || meta.len() > 10000 {
        return None;
    }
    let job = read_job(alloc, job).ok()?;
    let meta = read_meta(alloc, meta).ok()?;
    let bound = bind(alloc, &job, &meta).ok()?;
    let table = bound.tables.as_slice().last()?;
    table.as_slice().last().copied()
}

// A job of two tables, with a depth in the first and one in the second.
const TWO_DEPTHS: &str =
    "<DEPTH> (1,\"B\",3)\n<OPENMICRODATA> \"m.asc\"\n<OPENMETADATA> \"m.rda\"\n<SPECIFYTABLE> \"A\"\"B\"|\"V\"\n<SPECIFYTABLE> \"A\"\"B\"|\"V\"\n<SAFETYRULE> FREQ(3,30)\n<SUPPRESS> MOD()\n<WRITETABLE> (1,\"t.csv\")\n<WRITETABLE> (2,\"u.csv\")\n<CERTIFICATE> \"t.cert\"\n<DEPTH> (2,\"A\",2)\n<DEPTH> (2,\"B\",4)\n";

// Jobs, and the last dimension that each has: with all codes where no line says a depth.
const LAST_DIMENSIONS: [(&str, &str, u32, u32); 2] = [
    (FLAT, "V 2 3\n<NUMERIC>\nA 1 1\n", 0, 9),
    (TWO_DEPTHS, "B 1 1\nA 2 1\nV 3 3\n<NUMERIC>\n", 0, 4),
];

#[test]
fn dimensions_of_tables(rt: HostRuntime) {
    for (job, meta, variable, depth) in &LAST_DIMENSIONS {
        assert_eq!(rt;
            last_dimension(rt.alloc(), job.as_bytes(), meta.as_bytes()),
            Some(Dimension {
                variable: *variable,
                depth: *depth
            })
        );
    }
}
