use crate::jobs::{
    BY_INDUSTRY, FIRMS, FIRMS_CERTIFICATE, FIRMS_RELEASED, FIRMS_TABLE, FOUR_CERTIFICATE,
    FOUR_RECORDS, FOUR_RELEASED, FOUR_ROUNDED, FOUR_TABLE, MARGINS, ONE_TABLE, ONE_TABLE_RELEASED,
    ONE_VARIABLE, SEVEN_RECORDS, SURVEY, THIRTEEN_RECORDS, THREE_VARIABLES, TWO_VARIABLES, TWO_WAY,
    TWO_WAY_CERTIFICATE, TWO_WAY_RELEASED, TWO_WAY_TABLE,
};
use crate::runs::{Pieces, WHOLE_FILES, run_alone, run_words};
use office_io::MemoryTray;
use sdc_base::Memory;
use std::alloc::Global;
use std::ops::Range;
use std::rt::HostRuntime;
use std::test::Fail;

// A job of one table: its files in the order in which a run reads them, what they are called in reports, what a run says
// and puts, and the two texts of that which it puts.
#[derive(Clone, Copy)]
struct Job {
    files: &'static [(&'static str, &'static str)],
    names: &'static [&'static str],
    release: &'static str,
    certificate: &'static str,
    table: &'static str,
}

// A small job, a two-way table, a rounded one, and one by codes of two levels.
const JOBS: [Job; 4] = [
    Job {
        files: &[
            ("r.job", ONE_TABLE),
            ("m.rda", ONE_VARIABLE),
            ("m.asc", SEVEN_RECORDS),
        ],
        names: &["job", "metadata", "microdata"],
        release: ONE_TABLE_RELEASED,
        certificate: "argus certificate 2\nmethod MOD\ncells 3\nrelations 1\nend\n",
        table: "A,V\nTotal,150\na,60\nb,90\n",
    },
    Job {
        files: &[
            ("r.job", TWO_WAY),
            ("m.rda", THREE_VARIABLES),
            ("m.asc", THIRTEEN_RECORDS),
            ("p.hst", MARGINS),
        ],
        names: &["job", "metadata", "microdata", "apriori table 1"],
        release: TWO_WAY_RELEASED,
        certificate: TWO_WAY_CERTIFICATE,
        table: TWO_WAY_TABLE,
    },
    Job {
        files: &[
            ("r.job", FOUR_ROUNDED),
            ("m.rda", TWO_VARIABLES),
            ("m.asc", FOUR_RECORDS),
        ],
        names: &["job", "metadata", "microdata"],
        release: FOUR_RELEASED,
        certificate: FOUR_CERTIFICATE,
        table: FOUR_TABLE,
    },
    Job {
        files: &[("r.job", BY_INDUSTRY), ("m.rda", SURVEY), ("m.asc", FIRMS)],
        names: &["job", "metadata", "microdata"],
        release: FIRMS_RELEASED,
        certificate: FIRMS_CERTIFICATE,
        table: FIRMS_TABLE,
    },
];

// How many calls of the shelf a file takes: one begins it, one comes for each piece, and one finds the end.
fn calls_for(file: &str, bytes: u32) -> u64 {
    let pieces = file.len().div_ceil(bytes.max(1) as usize) as u64;
    pieces.saturating_add(2)
}

// The first of these calls whose failure isn't answered by this, the report and what is put on an empty tray.
fn first_wrong(
    alloc: Global,
    files: &[(&str, &str)],
    bytes: u32,
    calls: Range<u64>,
    want: &str,
) -> Result<Option<u64>, Memory> {
    for failing in calls {
        let got = run_alone(alloc, files, Pieces { bytes, failing }, 0)?;
        if got.as_str() != want {
            return Ok(Some(failing));
        }
    }
    Ok(None)
}

// Each call of the shelf fails in turn, and at last the call after the last, which no run makes. It gives the first
// that is answered otherwise than by a fault of the file that the run had come to with nothing put, or at last by the
// release.
//
// The files stand in the order in which a run reads them, each once and to its end, so the calls of each are those
// behind the calls of the files before it. By pieces of 1,000 bytes each file takes three calls, and the sixth is the
// last of the metadata.
fn wrong_call(alloc: Global, job: &Job, bytes: u32) -> Result<Option<u64>, Memory> {
    let mut first = 1u64;
    for (file, name) in job.files.iter().zip(job.names) {
        let want = format!(in alloc; "5 read fault: {name}\n")?;
        let next = first.saturating_add(calls_for(file.1, bytes));
        let wrong = first_wrong(alloc, job.files, bytes, first..next, want.as_str())?;
        if wrong.is_some() {
            return Ok(wrong);
        }
        first = next;
    }
    let end = first.saturating_add(1);
    first_wrong(alloc, job.files, bytes, first..end, job.release)
}

#[test]
fn calls_by_single_bytes(rt: HostRuntime) -> Result<(), Fail> {
    for job in &JOBS {
        let wrong = wrong_call(rt.alloc(), job, 1)?;
        assert_eq!(rt; wrong, None);
    }
    Ok(())
}

#[test]
fn calls_by_large_pieces(rt: HostRuntime) -> Result<(), Fail> {
    for job in &JOBS {
        let wrong = wrong_call(rt.alloc(), job, 1000)?;
        assert_eq!(rt; wrong, None);
    }
    Ok(())
}

// What a tray in memory keeps of a text whose put fails: the first half of its bytes, rounded down.
fn half_of(text: &str) -> &str {
    text.get(..text.len() / 2).unwrap_or(text)
}

// Whether a run whose put of this number fails says and leaves this, and a second run over its tray then says and
// leaves what a run without a fault does.
fn is_mended(alloc: Global, job: &Job, failing: u64, left: &str) -> Result<bool, Memory> {
    let mut tray = MemoryTray::new(alloc, vec![in alloc; failing]?);
    let first = run_words(alloc, &["run", "r.job"], job.files, WHOLE_FILES, &mut tray)?;
    let second = run_words(alloc, &["run", "r.job"], job.files, WHOLE_FILES, &mut tray)?;
    Ok(first.as_str() == left && second.as_str() == job.release)
}

// Whether a run of which the put of the certificate fails leaves half of it, and a second run mends it.
fn certificate_is_mended(alloc: Global, job: &Job) -> Result<bool, Memory> {
    let half = half_of(job.certificate);
    let left = format!(in alloc; "6 write fault: certificate\n{half}")?;
    is_mended(alloc, job, 1, left.as_str())
}

// Whether a run of which the put of the table fails leaves the certificate and half of the table, and a second run mends
// it.
fn table_is_mended(alloc: Global, job: &Job) -> Result<bool, Memory> {
    let (whole, half) = (job.certificate, half_of(job.table));
    let left = format!(in alloc; "6 write fault: table 1\n{whole}{half}")?;
    is_mended(alloc, job, 2, left.as_str())
}

// The first put fails.
#[test]
fn puts_of_certificates(rt: HostRuntime) -> Result<(), Fail> {
    for job in &JOBS {
        assert!(rt; certificate_is_mended(rt.alloc(), job)?);
    }
    Ok(())
}

// The second put fails.
#[test]
fn puts_of_tables(rt: HostRuntime) -> Result<(), Fail> {
    for job in &JOBS {
        assert!(rt; table_is_mended(rt.alloc(), job)?);
    }
    Ok(())
}

// The put after the last fails, which no run makes.
#[test]
fn puts_after_the_last(rt: HostRuntime) -> Result<(), Fail> {
    for job in &JOBS {
        let got = run_alone(rt.alloc(), job.files, WHOLE_FILES, 3)?;
        assert_eq!(rt; got.as_str(), job.release);
    }
    Ok(())
}
