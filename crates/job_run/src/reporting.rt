ghost use Rattle.std.specs.Prelude.{◌≡◌};
ghost use Rattle.job_run.specs.Reporting as spec;

use crate::report::{Report, Stuck};
use attackers::Against;
use contributor_protection::GuardFailure;
use interval_audit::AskFault;
use job_inputs::{FileRef, InputStop};
use plain_text::Stop;
use repair::Stopped;
use rounding::RoundFault;
use sdc_base::{Items, Memory};
use std::alloc::Global;

impl From<Memory> for Report {
    ghost use Rattle.std.specs.Prelude.{◌≡◌};
    ghost use Rattle.job_run.specs.declared.report.Report.TheVariants as report;

    ghost from_gives = { λ _ e. e ≡ report.Memory };

    fn from(_: Memory) -> Self {
        Report::Memory
    }
}

impl From<InputStop> for Report {
    ghost use Rattle.std.specs.Prelude.{◌≡◌};
    ghost use Rattle.job_run.specs.Reporting.{inputs_report};

    ghost from_gives = { λ stop e. e ≡ inputs_report stop };

    fn from(stop: InputStop) -> Self {
        match stop {
            InputStop::Refused(fault) => Report::Refused(fault),
            InputStop::ReadFault(file) => Report::ReadFault(file),
            InputStop::Memory => Report::Memory,
        }
    }
}

impl From<Stopped> for Report {
    ghost use Rattle.std.specs.Prelude.{◌≡◌};
    ghost use Rattle.job_run.specs.Reporting.{stopped_report};

    ghost from_gives = { λ stopped e. e ≡ stopped_report stopped };

    fn from(stopped: Stopped) -> Self {
        stuck_report(stopped, None)
    }
}

impl From<GuardFailure> for Report {
    ghost use Rattle.std.specs.Prelude.{◌≡◌};
    ghost use Rattle.job_run.specs.Reporting.{guard_failure_report};

    ghost from_gives = { λ reason e. e ≡ guard_failure_report reason };

    fn from(reason: GuardFailure) -> Self {
        match reason {
            GuardFailure::CannotAgainst(found) => Report::CannotAgainst {
                row: found.attack.row,
                cell: found.attack.cell,
                side: found.attack.side,
                multipliers: found.multipliers,
            },
            GuardFailure::Undecided { stopped, against } => stuck_report(stopped, Some(against)),
            GuardFailure::Memory => Report::Memory,
        }
    }
}

impl From<Stop<FileRef>> for Report {
    ghost use Rattle.std.specs.Prelude.{◌≡◌};
    ghost use Rattle.job_run.specs.Reporting.{puts_report};

    ghost from_gives = { λ stop e. e ≡ puts_report stop };

    fn from(stop: Stop<FileRef>) -> Self {
        match stop {
            Stop::Fault(file) => Report::WriteFault(file),
            Stop::Memory => Report::Memory,
        }
    }
}

/// The report where the search for a rounding gave none: it has made no repairs and shown no cells again.
pub(crate) fn search_report(alloc: Global, fault: RoundFault) -> Report
    ensures { result ≡ spec.search_report fault }
{
    match fault {
        RoundFault::NoRounding => Report::NoRounding,
        RoundFault::Nodes(nodes) => Report::Undecided {
            stuck: Stuck::Nodes(nodes),
            repairs: Items::empty(alloc),
            shown: Items::empty(alloc),
            against: None,
        },
        RoundFault::Memory => Report::Memory,
    }
}

/// The report of a question about released tables that stopped short: nothing was repaired, and no cell shown again.
pub(crate) fn question_report(alloc: Global, fault: AskFault) -> Report
    ensures { result ≡ spec.question_report fault }
{
    let stopped = Stopped {
        fault,
        repairs: Items::empty(alloc),
        shown: Items::empty(alloc),
    };
    stuck_report(stopped, None)
}

// The report of a question that stopped short, and against whom it is.
fn stuck_report(stopped: Stopped, against: Option<Against>) -> Report
    ensures { result ≡ spec.stuck_report stopped.fault stopped.repairs stopped.shown against }
{
    let Stopped {
        fault,
        repairs,
        shown,
    } = stopped;
    let stuck = match fault {
        AskFault::Work(walk) => Stuck::Work(walk),
        AskFault::Wide(walk, place) => Stuck::Wide(walk, place),
        AskFault::Size { question, hidden } => Stuck::Size { question, hidden },
        AskFault::Memory => return Report::Memory,
    };
    Report::Undecided {
        stuck,
        repairs,
        shown,
        against,
    }
}
