ghost use Rattle.std.specs.Prelude.{◌≡◌, IfOk, Ok, Err};
ghost use Rattle.job_run.specs.Demos as demos;
ghost use Rattle.job_run.specs.Demos.{IsDemoOf, IsDemoReport};
ghost use Rattle.job_run.specs.Summaries.{demo_of, stuck_demo};

use crate::put::Release;
use crate::report::{DemoSummary, Report, Stuck};
use crate::running::run_job;
use demo_files::{SteadyShelf, SteadyTray, demo_files};
use interval_audit::AskFault;
use repair::Stopped;
use sdc_base::{Items, Memory, Text};
use std::alloc::Global;
use worlds::Refuted;

/// What comes of a survey of so many records, drawn from a seed, whose job is run in memory.
pub(crate) fn run_demo(alloc: Global, seed: u64, records: u32) -> Report
    ensures { IsDemoReport seed records result }
{
    match summary_of(alloc, seed, records) {
        Ok(summary) => Report::Demo(summary),
        Err(_) => Report::Memory,
    }
}

// The run of its job over a shelf and a tray in memory.
fn summary_of(alloc: Global, seed: u64, records: u32) -> Result<DemoSummary, Memory>
    ensures { IfOk result (λ demo. IsDemoOf seed records demo) }
{
    let files = demo_files(alloc, seed, records)?;
    let name = Text::from_slice(alloc, b"demo.job")?;
    let mut shelf = SteadyShelf::new(alloc, files);
    let mut tray = SteadyTray::new(alloc);
    summarize(run_job(alloc, &name, &mut shelf, &mut tray))
}

// What a demonstration says of how its run went on.
fn summarize(outcome: Result<Release, Report>) -> Result<DemoSummary, Memory>
    ensures { result ≡ demo_of outcome }
{
    match outcome {
        Ok(release) => Ok(DemoSummary {
            status: 0,
            summary: Some(release.summary),
            certificate: Some(release.certificate),
            stopped: None,
        }),
        Err(
            Report::Undecided {
                stuck,
                repairs,
                shown,
                ..
            },
        ) => Ok(with_question(stuck, repairs, shown)),
        Err(Report::Memory) => Err(Memory),
        Err(Report::Released(_)) => Ok(with_status(0)),
        Err(Report::Accepted) => Ok(with_status(0)),
        Err(Report::Intervals(_)) => Ok(with_status(0)),
        Err(Report::Audited { .. }) => Ok(with_status(0)),
        Err(Report::Demo(_)) => Ok(with_status(0)),
        Err(Report::Migrated) => Ok(with_status(0)),
        Err(Report::Usage) => Ok(with_status(1)),
        Err(Report::Refused(_)) => Ok(with_status(2)),
        Err(Report::Cannot { .. }) => Ok(with_status(3)),
        Err(Report::CannotAgainst { .. }) => Ok(with_status(3)),
        Err(Report::NoRounding) => Ok(with_status(3)),
        Err(Report::NotAccepted(_)) => Ok(with_status(3)),
        Err(Report::NotGuarded(_)) => Ok(with_status(3)),
        Err(Report::ReadFault(_)) => Ok(with_status(5)),
        Err(Report::WriteFault(_)) => Ok(with_status(6)),
    }
}

// A demonstration without a release.
fn with_status(status: u8) -> DemoSummary
    ensures { result ≡ demos.with_status status }
{
    DemoSummary {
        status,
        summary: None,
        certificate: None,
        stopped: None,
    }
}

// A demonstration of which a question stopped short.
fn with_question(stuck: Stuck, repairs: Items<Refuted>, shown: Items<u32>) -> DemoSummary
    ensures { result ≡ stuck_demo stuck repairs shown }
{
    let fault = match stuck {
        Stuck::Work(walk) => AskFault::Work(walk),
        Stuck::Wide(walk, place) => AskFault::Wide(walk, place),
        Stuck::Size { question, hidden } => AskFault::Size { question, hidden },
        Stuck::Nodes(_) => return with_status(4),
    };
    DemoSummary {
        status: 4,
        summary: None,
        certificate: None,
        stopped: Some(Stopped {
            fault,
            repairs,
            shown,
        }),
    }
}
