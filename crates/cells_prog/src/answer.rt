ghost use Rattle.std.specs.Prelude.{◌≡◌, Err, IfOk};
ghost use Rattle.std.specs.Process.{exit_status};
ghost use Rattle.cell_listing.specs.declared.stop.ListingStop.{ListingStop as AnyStop};
ghost use Rattle.job_run.specs.ReportText.{status_of};
ghost use Rattle.job_run.specs.declared.report.Report.TheVariants as report;
ghost use Rattle.cells_prog.specs.Endings.{IsWrittenBy, interval_status, status_for};
ghost use Rattle.cells_prog.specs.Endings as spec;

use crate::output::Output;
use cell_listing::{IntervalFault, ListingStop};
use job_check::CheckStop;
use job_inputs::{Fault, InputStop};
use job_run::{FileRef, Report, report_text};
use std::alloc::Global;
use std::process::ExitCode;

const USAGE: &[u8] =
    b"usage: cells JOB | cells JOB --released | cells JOB --relations | cells JOB --released --intervals FILE\n";

/// Writes a listing to the output, or the usage line to standard output, or says on standard error why there is no
/// listing, and gives the status with which the program ends: 0 for a listing, and else argus's status for what went
/// wrong.
///
/// A listing that was made is written whole, by one write, unless the output refuses it: that is a fault in writing.
/// Whether a line was printed changes no status.
pub fn ended_by<R: Print + Eprint, O: Output>(
    rt: &R,
    output: &mut O,
    alloc: Global,
    answer: Result<Vec<u8>, ListingStop>,
) -> ExitCode
    ensures stopped { (stop : AnyStop) → answer ≡ Err stop → exit_status result ≡ status_for stop }
    ensures none_written { (stop : AnyStop) → answer ≡ Err stop → O.state output.new ≡ O.state output.old }
    ensures written { IfOk answer (λ bytes. IsWrittenBy bytes.items (exit_status result) (O.state output.old)
        (O.state output.new)) }
{
    match answer {
        Ok(bytes) => written_by(rt, output, alloc, bytes.as_slice()),
        Err(stop) => stopped_by(rt, alloc, stop),
    }
}

/// The status where there was no memory for the words: that of want of memory in a listing.
pub fn without_words() -> ExitCode
    ensures { exit_status result ≡ status_of report.Memory }
{
    ExitCode::from(Report::Memory.status())
}

// Writes a listing.
fn written_by<R: Eprint, O: Output>(rt: &R, output: &mut O, alloc: Global, bytes: &[u8]) -> ExitCode
    ensures { IsWrittenBy bytes.now (exit_status result) (O.state output.old) (O.state output.new) }
{
    match output.write(bytes) {
        Ok(()) => ExitCode::SUCCESS,
        Err(_) => exit_code_for(rt, alloc, &Report::WriteFault(FileRef::Out)),
    }
}

// Says why there is no listing.
fn stopped_by<R: Print + Eprint>(rt: &R, alloc: Global, stop: ListingStop) -> ExitCode
    ensures { exit_status result ≡ status_for stop }
{
    match stop {
        ListingStop::Usage => {
            let _ = rt.write_all(USAGE);
            ExitCode::from(Report::Usage.status())
        }
        ListingStop::Stopped(check) => exit_code_for(rt, alloc, &checked_report(check)),
        ListingStop::Intervals(fault) => stopped_by_intervals(rt, alloc, fault),
    }
}

// Says why an interval file isn't taken: in argus's words for a file that was put and for want of memory, or by the number
// of the line.
fn stopped_by_intervals<R: Eprint>(rt: &R, alloc: Global, fault: IntervalFault) -> ExitCode
    ensures { exit_status result ≡ interval_status fault }
{
    match fault {
        IntervalFault::Absent => refused_for(rt, alloc, Fault::Absent(FileRef::Out)),
        IntervalFault::TooLong => refused_for(rt, alloc, Fault::TooLong(FileRef::Out)),
        IntervalFault::Failed => exit_code_for(rt, alloc, &Report::ReadFault(FileRef::Out)),
        IntervalFault::Line(number) => {
            let _ = eprint!(rt; "refused: intervals line {number}\n");
            ExitCode::from(2)
        }
        IntervalFault::Memory => exit_code_for(rt, alloc, &Report::Memory),
    }
}

// Says that a file was refused.
fn refused_for<R: Eprint>(rt: &R, alloc: Global, fault: Fault) -> ExitCode
    ensures { exit_status result ≡ status_of (report.Refused fault) }
{
    exit_code_for(rt, alloc, &Report::Refused(fault))
}

// Says a report, in argus's words.
fn exit_code_for<R: Eprint>(rt: &R, alloc: Global, report: &Report) -> ExitCode
    ensures { exit_status result ≡ status_of report.now }
{
    if let Ok(line) = report_text(alloc, report) {
        if let Ok(text) = str::from_utf8(line.as_slice()) {
            let _ = eprint!(rt; "{text}");
        }
    }
    ExitCode::from(report.status())
}

// Why a check accepts nothing, as a report of a run.
fn checked_report(stop: CheckStop) -> Report
    ensures { result ≡ spec.checked_report stop }
{
    match stop {
        CheckStop::Inputs(input) => report_of(input),
        CheckStop::NotAccepted(why) => Report::NotAccepted(why),
        CheckStop::NotGuarded(why) => Report::NotGuarded(why),
    }
}

// What stopped the inputs, as a report of a run.
fn report_of(stop: InputStop) -> Report
    ensures { result ≡ spec.report_of stop }
{
    match stop {
        InputStop::Refused(fault) => Report::Refused(fault),
        InputStop::ReadFault(file) => Report::ReadFault(file),
        InputStop::Memory => Report::Memory,
    }
}
