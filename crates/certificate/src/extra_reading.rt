ghost use Rattle.std.specs.Prelude.{◌≡◌, IfOk};
ghost use Rattle.sdc_base.specs.Answers.{Gives};
ghost use Rattle.certificate.specs.Faults.{cert_fault_of};
ghost use Rattle.certificate.specs.ExtraReadings as extra_readings;
ghost use Rattle.certificate.specs.ExtraReadings.{extra_of};
ghost use Rattle.certificate.specs.ExtraTexts.{extra_text, IsExtraSpellable, IsExtraWithinTypes};

use crate::extra::Extra;
use crate::extra_lines::NeedLine;
use crate::faults::CertError;
use crate::line_kind::{read_item, read_items};
use crate::lines::{CellsLine, TableLine, WordLine};
use crate::reader::{Reader, behind_heading};
use crate::version::Version;
use sdc_base::Items;
use std::alloc::Global;

/// The extra cells of which these bytes are the text.
///
/// The fault is that of the first line, from 1, that isn't as the format says, as `read_certificate` tells it; rows are
/// numbered from 1 in the text, and from 0 in the value. `Memory` may come at any point.
///
/// Whether the needs are those of the extra cells, and which complete tables there should be, is not looked at. Extra
/// cells that are read have exactly these bytes as their text, so they have one spelling. The cost is the number of
/// bytes; memory is taken for the lists alone. The format is argus's own.
pub fn read_extra(alloc: Global, bytes: &[u8]) -> Result<Extra, CertError>
    ensures exact { Gives cert_fault_of (λ extra. extra) result (extra_of bytes.now) }
    ensures spelling { IfOk result (λ extra. bytes.now ≡ extra_text extra) }
    ensures spellable { IfOk result (λ extra. IsExtraSpellable extra) }
    ensures within { IfOk result (λ extra. IsExtraWithinTypes extra) }
{
    let extra = extra_lines(alloc, bytes)?;
    Ok(extra)
}

// The extra cells of which the bytes are the text, line by line.
#[tactic(auto, unfolding(crate::specs::ExtraReadings::extra_of))]
fn extra_lines(alloc: Global, bytes: &[u8]) -> Result<Extra, CertError>
    ensures { Gives cert_fault_of (λ extra. extra) result (extra_of bytes.now) }
{
    let mut reader = behind_heading(b"argus contributors 1", bytes)?;
    let cells = cells_at(alloc, &mut reader)?;
    let needs = read_items(alloc, &NeedLine, &mut reader)?;
    let guard_line = TableLine {
        word: b"guard",
        version: Version::Two,
        hidden: &[],
    };
    let guards = read_items(alloc, &guard_line, &mut reader)?;
    read_item(alloc, &WordLine { word: b"end" }, &mut reader)?;
    reader.end()?;
    Ok(Extra {
        cells,
        needs,
        guards,
    })
}

// The extra cells, where there is a line of them.
#[tactic(auto, unfolding(crate::specs::ExtraReadings::cells_at))]
fn cells_at(alloc: Global, reader: &mut Reader<'_>) -> Result<Items<u32>, CertError>
    ensures { Gives cert_fault_of (λ cells. (cells, reader.new)) result (extra_readings.cells_at reader.old) }
{
    if reader.is_next(b"extra") {
        return read_item(alloc, &CellsLine { word: b"extra" }, reader);
    }
    Ok(Items::empty(alloc))
}
