use crate::runs::status_and_text;
use apriori::PriorWhy;
use certificate::CertWhy;
use code_trees::TreeFault;
use job_lang::{Command, JobWhy};
use job_run::{DemoSummary, Fault, FileRef, Report, Stuck, Summary};
use microdata::RowWhy;
use rda_meta::MetaWhy;
use sdc_base::{Items, Memory, Side};
use std::alloc::Global;
use std::rt::HostRuntime;
use std::test::Fail;
use worlds::Multipliers;

const SUMMARY: Summary = Summary {
    records: 1_000_000,
    skipped: 12,
    passed_over: 3,
    cells: 5001,
    primary: 45,
    hidden: 67,
};

// Whether the status and the text of this report are these.
fn says(alloc: Global, report: Report, want: &str) -> Result<bool, Memory> {
    let got = status_and_text(alloc, &report)?;
    Ok(got.as_str() == want)
}

// What is said of these numbers after a run, and after a demonstration.
const RELEASE_SAID: &str =
    "0 released: 1000000 records, 12 skipped, 3 passed over, 5001 cells, 45 primary, 67 hidden\n";

const DEMO_SAID: &str =
    "0 demo: status 0, 1000000 records, 12 skipped, 5001 cells, 45 primary, 67 hidden\n";

// The line of each answer of a run that released, here and in a demonstration.
#[test]
fn reports_of_releases(rt: HostRuntime) -> Result<(), Fail> {
    let demo = Report::Demo(DemoSummary {
        status: 0,
        summary: Some(SUMMARY),
        certificate: None,
        stopped: None,
    });
    assert!(rt; says(rt.alloc(), demo, DEMO_SAID)?);
    assert!(rt; says(rt.alloc(), Report::Released(SUMMARY), RELEASE_SAID)?);
    Ok(())
}

// The line of a demonstration that released nothing.
#[test]
fn report_of_a_demonstration(rt: HostRuntime) -> Result<(), Fail> {
    let demo = Report::Demo(DemoSummary {
        status: 4,
        summary: None,
        certificate: None,
        stopped: None,
    });
    assert!(rt; says(rt.alloc(), demo, "0 demo: status 4\n")?);
    Ok(())
}

// The lines about files that couldn't be read or put.
#[test]
fn reports_of_files(rt: HostRuntime) -> Result<(), Fail> {
    let read = Report::ReadFault(FileRef::Apriori(0));
    assert!(rt; says(rt.alloc(), read, "5 read fault: apriori table 1\n")?);
    let put = Report::WriteFault(FileRef::Table(4_294_967_295));
    assert!(rt; says(rt.alloc(), put, "6 write fault: table 4294967296\n")?);
    Ok(())
}

// The lines of what else may be said.
#[test]
fn reports_of_other_answers(rt: HostRuntime) -> Result<(), Fail> {
    let audited = Report::Audited {
        primary: 4_294_967_295,
        exposed: 12,
    };
    assert!(rt;
        says(
            rt.alloc(),
            audited,
            "0 audited: 4294967295 primary, 12 exposed\n"
        )?
    );
    assert!(rt; says(rt.alloc(), Report::Migrated, "0 migrated\n")?);
    assert!(rt; says(rt.alloc(), Report::Memory, "7 memory\n")?);
    Ok(())
}

// Each refusal and its line.
const REFUSALS: [(Fault, &str); 10] = [
    (
        Fault::TooLong(FileRef::CodeList(63)),
        "2 refused: codelist 64: TooLong\n",
    ),
    (
        Fault::Job {
            line: 0,
            why: JobWhy::Missing(Command::WriteTable),
        },
        "2 refused: job line 0: Missing WRITETABLE\n",
    ),
    (
        Fault::Meta {
            line: 7,
            why: MetaWhy::Clash,
        },
        "2 refused: metadata line 7: Clash\n",
    ),
    (
        Fault::Tree(FileRef::Hierarchy(0), TreeFault::TooDeep(10)),
        "2 refused: hierarchy 1 line 10: TooDeep\n",
    ),
    (
        Fault::Row {
            number: 1_000_001,
            why: RowWhy::TooMany,
        },
        "2 refused: record 1000001: TooMany\n",
    ),
    (
        Fault::Prior {
            table: 1,
            line: 12,
            why: PriorWhy::EmptyUnsafe,
        },
        "2 refused: apriori table 2 line 12: EmptyUnsafe\n",
    ),
    (Fault::Cells(7), "2 refused: table 8: TooManyCells\n"),
    (
        Fault::Contributors {
            line: 12,
            why: CertWhy::Order,
        },
        "2 refused: contributors line 12: Order\n",
    ),
    (
        Fault::Absent(FileRef::Contributors),
        "2 refused: contributors: Absent\n",
    ),
    (Fault::OutName, "2 refused: out: OutName\n"),
];

#[test]
fn reports_of_refusals(rt: HostRuntime) -> Result<(), Fail> {
    for (fault, want) in &REFUSALS {
        let got = status_and_text(rt.alloc(), &Report::Refused(*fault))?;
        assert_eq!(rt; got.as_str(), *want);
    }
    Ok(())
}

// These multipliers, of relations.
fn multipliers_of(alloc: Global, den: i128, terms: &[(u32, i128)]) -> Result<Multipliers, Memory> {
    Ok(Multipliers {
        den,
        by_relation: Items::new(Vec::from_slice(alloc, terms)?),
    })
}

// The lines of a cell that can't be protected.
#[test]
fn report_of_a_cell_without_protection(rt: HostRuntime) -> Result<(), Fail> {
    let report = Report::Cannot {
        cell: 5000,
        side: Side::Below,
        multipliers: multipliers_of(rt.alloc(), 3, &[(0, -1), (70_000, 12)])?,
    };
    let got = status_and_text(rt.alloc(), &report)?;
    assert_eq!(rt;
        got.as_str(),
        "3 cannot protect cell 5000 below\nmultipliers 3 0:-1 70000:12\n"
    );
    Ok(())
}

// And of one that can't be guarded against a contributor.
#[test]
fn report_of_a_cell_without_guard(rt: HostRuntime) -> Result<(), Fail> {
    let report = Report::CannotAgainst {
        row: 4_294_967_295,
        cell: 2,
        side: Side::Above,
        multipliers: multipliers_of(rt.alloc(), 1, &[(0, 1)])?,
    };
    let got = status_and_text(rt.alloc(), &report)?;
    assert_eq!(rt;
        got.as_str(),
        "3 cannot protect cell 2 above from row 4294967296\nmultipliers 1 0:1\n"
    );
    Ok(())
}

// The line of a search that is cut off.
#[test]
fn report_of_a_long_search(rt: HostRuntime) -> Result<(), Fail> {
    let report = Report::Undecided {
        stuck: Stuck::Nodes(1_000_000_000_000),
        repairs: Items::empty(rt.alloc()),
        shown: Items::empty(rt.alloc()),
        against: None,
    };
    let got = status_and_text(rt.alloc(), &report)?;
    assert_eq!(rt; got.as_str(), "4 undecided: nodes, 1000000000000\n");
    Ok(())
}
