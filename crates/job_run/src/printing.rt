ghost use Rattle.std.specs.Prelude.{◌≡◌, ◌++◌, ◌∷◌, [], IfOk, flat_map};
ghost use Rattle.job_run.specs.ReportText.{status_of};
ghost use Rattle.job_run.specs.ReportText as spec;
ghost use Rattle.job_run.specs.declared.report.Report.TheVariants as AnyReport;

use crate::check_texts::CheckKind;
use crate::guard_texts::GuardKind;
use crate::report::{DemoSummary, Report, Stuck, Summary};
use interval_audit::Question;
use sdc_base::{Memory, Side, Text};
use std::alloc::Global;
use std::fmt;
use std::fmt::Display;
use worlds::Multipliers;

impl Report {
    /// The status with which the program ends: 0 for a release, one that is accepted, intervals, an audit, a
    /// demonstration and a certificate that was put again, 1 for the usage line, 2 for a refusal, 3 for a cell that can't
    /// be protected or guarded, where there is no rounding, and for a release that isn't accepted or isn't guarded, 4
    /// where a question or the search for a
    /// rounding stopped short, 5 and 6 for a fault in reading and in writing, 7 for want of memory. The numbers are
    /// argus's own.
    pub fn status(&self) -> u8
        ensures { result ≡ status_of self.now }
    {
        match self {
            Report::Released(_) => 0,
            Report::Accepted => 0,
            Report::Intervals(_) => 0,
            Report::Audited { .. } => 0,
            Report::Demo(_) => 0,
            Report::Migrated => 0,
            Report::Usage => 1,
            Report::Refused(_) => 2,
            Report::Cannot { .. } => 3,
            Report::CannotAgainst { .. } => 3,
            Report::NoRounding => 3,
            Report::NotAccepted(_) => 3,
            Report::NotGuarded(_) => 3,
            Report::Undecided { .. } => 4,
            Report::ReadFault(_) => 5,
            Report::WriteFault(_) => 6,
            Report::Memory => 7,
        }
    }
}

/// The text of a report: one line, two where a cell can't be protected or guarded, each ended by LF. Variables are
/// numbered by their place in the metadata, tables in the order of the job and rows in the order of the records, from 1;
/// cells and relations from 0.
///
/// `Memory` is the only refusal. The cost is that of the lines, and their wording is argus's own.
pub fn report_text(alloc: Global, report: &Report) -> Result<Text, Memory>
    ensures { IfOk result (λ text. text ≡ spec.report_text report.now) }
{
    match report {
        Report::Cannot {
            cell,
            side,
            multipliers,
        } => cannot_text(alloc, *cell, *side, multipliers),
        Report::CannotAgainst {
            row,
            cell,
            side,
            multipliers,
        } => cannot_against_text(alloc, *row, *cell, *side, multipliers),
        Report::Released(summary) => Ok(text_of(format!(in alloc; "released: {summary}\n")?)),
        Report::Accepted => Ok(text_of(format!(in alloc; "accepted\n")?)),
        Report::Intervals(cells) => Ok(text_of(format!(in alloc; "intervals: {cells} cells\n")?)),
        Report::Audited { primary, exposed } => audit_text(alloc, *primary, *exposed),
        Report::Demo(demo) => demo_text(alloc, demo),
        Report::Migrated => Ok(text_of(format!(in alloc; "migrated\n")?)),
        Report::Usage => Ok(text_of(format!(in alloc;
            "usage: argus run JOB | check JOB | intervals JOB OUT | demo SEED RECORDS | migrate OLD NEW | audit JOB OUT\n"
        )?)),
        Report::Refused(fault) => Ok(text_of(format!(in alloc; "refused: {fault}\n")?)),
        Report::NoRounding => Ok(text_of(format!(in alloc; "no rounding\n")?)),
        Report::NotAccepted(why) => {
            let kind = CheckKind { why: *why };
            Ok(text_of(format!(in alloc; "not accepted: {kind}\n")?))
        }
        Report::NotGuarded(why) => {
            let kind = GuardKind { why: *why };
            Ok(text_of(format!(in alloc; "not guarded: {kind}\n")?))
        }
        Report::Undecided { stuck, .. } => Ok(text_of(format!(in alloc; "undecided: {stuck}\n")?)),
        Report::ReadFault(file) => Ok(text_of(format!(in alloc; "read fault: {file}\n")?)),
        Report::WriteFault(file) => Ok(text_of(format!(in alloc; "write fault: {file}\n")?)),
        Report::Memory => Ok(text_of(format!(in alloc; "memory\n")?)),
    }
}

// A line that was written, as a text.
fn text_of(line: String) -> Text
    ensures { result ≡ line.bytes.items }
{
    Text::new(line.into_bytes())
}

// The line of an audit: its primary cells, and those of them that are exposed.
fn audit_text(alloc: Global, primary: u32, exposed: u32) -> Result<Text, Memory>
    ensures { IfOk result (λ text. text ≡ spec.report_line (AnyReport.Audited primary exposed) ++ 10 ∷ []) }
{
    let line = format!(in alloc; "audited: {primary} primary, {exposed} exposed\n")?;
    Ok(text_of(line))
}

// The line of a demonstration: its status, and the numbers of its release.
fn demo_text(alloc: Global, demo: &DemoSummary) -> Result<Text, Memory>
    ensures { IfOk result (λ text. text ≡ spec.report_line (AnyReport.Demo demo.now) ++ 10 ∷ []) }
{
    let status = demo.status;
    if let Some(summary) = demo.summary {
        let numbers = DemoNumbers { summary };
        let line = format!(in alloc; "demo: status {status}, {numbers}\n")?;
        return Ok(Text::new(line.into_bytes()));
    }
    let line = format!(in alloc; "demo: status {status}\n")?;
    Ok(Text::new(line.into_bytes()))
}

// The lines of a cell that can't be protected to a side, with the multipliers that show it.
fn cannot_text(
    alloc: Global,
    cell: u32,
    side: Side,
    multipliers: &Multipliers,
) -> Result<Text, Memory>
    ensures { IfOk result (λ text. text ≡ spec.report_line (AnyReport.Cannot cell side multipliers.now) ++ 10 ∷ []) }
{
    let word = side.word();
    let reason = multipliers_text(alloc, multipliers)?;
    let text = format!(in alloc; "cannot protect cell {cell} {word}\n{reason}\n")?;
    Ok(Text::new(text.into_bytes()))
}

// The lines of a cell that can't be guarded to a side against a contributor, with the multipliers that show it.
fn cannot_against_text(
    alloc: Global,
    row: u32,
    cell: u32,
    side: Side,
    multipliers: &Multipliers,
) -> Result<Text, Memory>
    ensures { IfOk result (λ text. text
        ≡ spec.report_line (AnyReport.CannotAgainst row cell side multipliers.now) ++ 10 ∷ []) }
{
    let word = side.word();
    let number = u64::from(row) + 1;
    let reason = multipliers_text(alloc, multipliers)?;
    let text = format!(in alloc;
        "cannot protect cell {cell} {word} from row {number}\n{reason}\n"
    )?;
    Ok(Text::new(text.into_bytes()))
}

// The den of multipliers, and each relation that has one with its number.
fn multipliers_text(alloc: Global, multipliers: &Multipliers) -> Result<String, Memory>
    ensures { IfOk result (λ text. text.bytes.items ≡ spec.multipliers_text multipliers.now) }
{
    let den = multipliers.den;
    let terms = terms_text(alloc, multipliers.by_relation.as_slice())?;
    Ok(format!(in alloc; "multipliers {den}{terms}")?)
}

// Relations with their numbers, each behind a space.
fn terms_text(alloc: Global, terms: &[(u32, i128)]) -> Result<String, Memory>
    ensures { IfOk result (λ text. text.bytes.items ≡ flat_map spec.term_text terms.now) }
{
    let mut text = String::new(alloc);
    'terms: for term in terms {
        let more = term_text(alloc, *term)?;
        text.push_str(more.as_str())?;
    }
    Ok(text)
}

// A relation with its number, behind a space.
fn term_text(alloc: Global, term: (u32, i128)) -> Result<String, Memory>
    ensures { IfOk result (λ text. text.bytes.items ≡ spec.term_text term) }
{
    let (relation, number) = term;
    Ok(format!(in alloc; " {relation}:{number}")?)
}

impl Display for Summary {
    ghost use Rattle.std.specs.Prelude.{Some};
    ghost use Rattle.job_run.specs.ReportText.{summary_text};

    ghost output = { λ summary. Some (summary_text summary) };

    fn fmt<W: fmt::Write>(&self, f: &mut fmt::Formatter<W>) -> fmt::Result {
        let Summary {
            records,
            skipped,
            passed_over,
            cells,
            primary,
            hidden,
        } = *self;
        write!(
            f,
            "{records} records, {skipped} skipped, {passed_over} passed over, {cells} cells, {primary} primary, {hidden} hidden"
        )
    }
}

/// The numbers of a demonstration's release, as they are printed.
#[derive(Clone, Copy)]
struct DemoNumbers {
    summary: Summary,
}

impl Display for DemoNumbers {
    ghost use Rattle.std.specs.Prelude.{Some};
    ghost use Rattle.job_run.specs.ReportText.{demo_numbers_text};

    ghost output = { λ numbers. Some (demo_numbers_text numbers.summary) };

    fn fmt<W: fmt::Write>(&self, f: &mut fmt::Formatter<W>) -> fmt::Result {
        let Summary {
            records,
            skipped,
            cells,
            primary,
            hidden,
            ..
        } = self.summary;
        write!(
            f,
            "{records} records, {skipped} skipped, {cells} cells, {primary} primary, {hidden} hidden"
        )
    }
}

impl Display for Stuck {
    ghost use Rattle.std.specs.Prelude.{Some};
    ghost use Rattle.job_run.specs.ReportText.{stuck_text};

    ghost output = { λ stuck. Some (stuck_text stuck) };

    fn fmt<W: fmt::Write>(&self, f: &mut fmt::Formatter<W>) -> fmt::Result {
        match self {
            Stuck::Work(walk) => {
                let Question { cell, side, .. } = walk.question;
                let word = side.word();
                let steps = walk.tableau.improved();
                write!(f, "work, cell {cell} {word}, {steps} steps")
            }
            Stuck::Wide(walk, _) => {
                let Question { cell, side, .. } = walk.question;
                let word = side.word();
                write!(f, "wide, cell {cell} {word}")
            }
            Stuck::Size { question, hidden } => {
                let Question { cell, side, .. } = *question;
                let word = side.word();
                write!(f, "size, cell {cell} {word}, {hidden} hidden")
            }
            Stuck::Nodes(nodes) => write!(f, "nodes, {nodes}"),
        }
    }
}
