ghost use Rattle.std.specs.Prelude.{◌≡◌};
ghost use Rattle.std.specs.Process.{exit_status};
ghost use Rattle.job_run.specs.ReportText.{status_of};
ghost use Rattle.job_run.specs.declared.report.Report.TheVariants as report;

use job_run::{Report, report_text};
use std::alloc::Global;
use std::process::ExitCode;

/// Prints the report's line and gives the status with which the program ends.
///
/// The status is the report's, whether or not the line was printed. Where there is no memory for
/// the line, nothing is printed.
pub fn ended_by<R: Print>(rt: &R, alloc: Global, report: &Report) -> ExitCode
    ensures { exit_status result ≡ status_of report.now }
{
    if let Ok(line) = report_text(alloc, report) {
        let _ = rt.write_all(line.as_slice());
    }
    ExitCode::from(report.status())
}

/// The status where there was no memory for the words: that of want of memory in a run.
pub fn without_words() -> ExitCode
    ensures { exit_status result ≡ status_of report.Memory }
{
    ExitCode::from(Report::Memory.status())
}
