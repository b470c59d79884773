ghost use Rattle.std.specs.Prelude.{◌≡◌, IfOk, codes};
ghost use Rattle.sdc_base.specs.Answers.{Gives};
ghost use Rattle.certificate.specs.Faults.{cert_fault_of};
ghost use Rattle.certificate.specs.TokenLists.{end_of};
ghost use Rattle.certificate.specs.LineReadings.{step_of, refutation_of, world_of};
ghost use Rattle.certificate.specs.MethodReadings.{method_of, count_of};
ghost use Rattle.certificate.specs.Certificates as certificates;
ghost use Rattle.certificate.specs.Certificates.{item_at, items_at, certificate_of};
ghost use Rattle.certificate.specs.Spelling.{IsSpellable, IsTextOf, IsWithinTypes};

use crate::certificate::{Certificate, WorldLine};
use crate::faults::CertError;
use crate::line_kind::{read_item, read_items};
use crate::lines::{
    CellsLine, CountLine, MethodLine, RefutationLine, StepLine, TableLine, WordLine,
};
use crate::reader::{Reader, behind_version};
use crate::version::Version;
use sdc_base::{Items, Method, PlanStep};
use std::alloc::Global;
use worlds::Refuted;

/// The certificate of which these bytes are a text, in either version.
///
/// The fault is that of the first line, from 1, that isn't as the format says. `Version`: the first line is that of
/// neither version. `NoEnd`: the bytes end before the line `end`; its line is the one after the last. `Shape`: no LF
/// ends the line, its kind isn't the next one, its tokens are too few or too many, or a token has the wrong form.
/// `Number`: a number isn't spelled as this program writes it, or is out of range. `Order`: a list in the line doesn't
/// ascend. In one line all tokens are looked at for `Shape`, then for `Number`, then for `Order`; bytes behind the line
/// `end` are `Shape` at the next line. `Memory` may come at any point.
///
/// The two versions differ in the lines of complete tables alone. In the first such a line has one move for each hidden
/// cell, and one of 0 is no move. In the second it has the cells that move, each with its move: one of 0 is `Number`,
/// and cells that don't ascend are `Order`.
///
/// Which steps, repairs, needs and complete tables there should be is not looked at. A certificate that is read has
/// exactly these bytes as its text in their version, so each has one spelling per version. The cost is the number of
/// bytes; memory is taken for the lists of the certificate alone. The format is argus's own.
pub fn read_certificate(alloc: Global, bytes: &[u8]) -> Result<Certificate, CertError>
    ensures exact { Gives cert_fault_of (λ certificate. certificate) result (certificate_of bytes.now) }
    ensures spelling { IfOk result (λ certificate. IsTextOf bytes.now certificate) }
    ensures spellable { IfOk result (λ certificate. IsSpellable certificate) }
    ensures within { IfOk result (λ certificate. IsWithinTypes certificate) }
{
    let certificate = read_lines(alloc, bytes)?;
    Ok(certificate)
}

// The certificate of which the bytes are the text, line by line.
#[tactic(auto, unfolding(crate::specs::Certificates::certificate_of))]
fn read_lines(alloc: Global, bytes: &[u8]) -> Result<Certificate, CertError>
    ensures { Gives cert_fault_of (λ certificate. certificate) result (certificate_of bytes.now) }
{
    let (version, mut reader) = behind_version(bytes)?;
    let method = method_line(alloc, &mut reader)?;
    let cells = count_line(alloc, b"cells", &mut reader)?;
    let relations = count_line(alloc, b"relations", &mut reader)?;
    let hidden = hidden_at(alloc, &mut reader)?;
    let steps = step_lines(alloc, &mut reader)?;
    let repairs = refutation_lines(alloc, b"repair", &mut reader)?;
    let needs = refutation_lines(alloc, b"need", &mut reader)?;
    let worlds = world_lines(alloc, version, hidden.as_slice(), &mut reader)?;
    end_line(alloc, &mut reader)?;
    reader.end()?;
    Ok(Certificate {
        method,
        cells,
        relations,
        hidden,
        steps,
        repairs,
        needs,
        worlds,
    })
}

// The hidden cells, where there is a line of them.
#[tactic(auto, unfolding(crate::specs::Certificates::hidden_at))]
fn hidden_at(alloc: Global, reader: &mut Reader<'_>) -> Result<Items<u32>, CertError>
    ensures { Gives cert_fault_of (λ cells. (cells, reader.new)) result (certificates.hidden_at reader.old) }
{
    if reader.is_next(b"hidden") {
        return read_item(alloc, &CellsLine { word: b"hidden" }, reader);
    }
    Ok(Items::empty(alloc))
}

// The line of the method.
fn method_line(alloc: Global, reader: &mut Reader<'_>) -> Result<Method, CertError>
    ensures { Gives cert_fault_of (λ method. (method, reader.new)) result
        (item_at (codes "method") method_of reader.old) }
{
    read_item(alloc, &MethodLine, reader)
}

// A line of a count, by its word.
fn count_line(alloc: Global, word: &[u8], reader: &mut Reader<'_>) -> Result<u32, CertError>
    ensures { Gives cert_fault_of (λ count. (count, reader.new)) result (item_at word.now count_of reader.old) }
{
    read_item(alloc, &CountLine { word }, reader)
}

// The lines of the steps.
fn step_lines(alloc: Global, reader: &mut Reader<'_>) -> Result<Items<PlanStep>, CertError>
    ensures { Gives cert_fault_of (λ steps. (steps, reader.new)) result (items_at (codes "step") step_of reader.old) }
{
    read_items(alloc, &StepLine, reader)
}

// The lines of refutations, by their word.
fn refutation_lines(
    alloc: Global,
    word: &[u8],
    reader: &mut Reader<'_>,
) -> Result<Items<Refuted>, CertError>
    ensures { Gives cert_fault_of (λ all. (all, reader.new)) result (items_at word.now refutation_of reader.old) }
{
    read_items(alloc, &RefutationLine { word }, reader)
}

// The lines of the complete tables, in this version and with these hidden cells.
fn world_lines(
    alloc: Global,
    version: Version,
    hidden: &[u32],
    reader: &mut Reader<'_>,
) -> Result<Items<WorldLine>, CertError>
    ensures { Gives cert_fault_of (λ worlds. (worlds, reader.new)) result
        (items_at (codes "world") (world_of version hidden.now) reader.old) }
{
    let kind = TableLine {
        word: b"world",
        version,
        hidden,
    };
    read_items(alloc, &kind, reader)
}

// The last line.
fn end_line(alloc: Global, reader: &mut Reader<'_>) -> Result<(), CertError>
    ensures { Gives cert_fault_of (λ fine. (fine, reader.new)) result (item_at (codes "end") end_of reader.old) }
{
    read_item(alloc, &WordLine { word: b"end" }, reader)
}
