ghost use Rattle.std.specs.Prelude.{◌≡◌, ◌+◌, ◌++◌, ◌∷◌, [], OnOk, IfOk, IsOk, Ok, flat_map, codes, decimal};
ghost use Rattle.std.specs.List.{AllByRecursion};
ghost use Rattle.certificate.specs.Spelling.{FitsIn32Bits};
ghost use Rattle.certificate.specs.Pieces.{space};
ghost use Rattle.certificate.specs.Texts.{line_text};
ghost use Rattle.certificate.specs.ExtraReadings.{extra_of};
ghost use Rattle.certificate.specs.ExtraTexts.{cells_tokens, need_tokens, extra_text};
ghost use Rattle.certificate.specs.ExtraTexts.{IsExtraSpellable, IsNeedWithinTypes};
ghost use Rattle.certificate.specs.ExtraTexts.{IsExtraWithinTypes};

use crate::appending::{add, add_all_with_mark, add_integer, add_pairs};
use crate::extra::{Extra, ExtraNeed};
use crate::writing::{add_worlds, side_word};
use sdc_base::{Items, Memory};
use std::alloc::Global;

/// The text of extra cells that have one.
///
/// They have one where the lists in its lines are as the format says: cells, relations and the cells of moves ascend,
/// rows are below 2^32 - 1, denominators are 1 or more, and no multiplier or move is 0. Rows are numbered from 1 in the
/// text, cells and relations from 0.
///
/// `Memory` is the only refusal, and the extra cells stay. The cost is the length of the text. The format is argus's
/// own.
pub fn write_extra(alloc: Global, extra: &Extra) -> Result<Vec<u8>, Memory>
    requires { IsExtraSpellable extra.now }
    ensures text { IfOk result (λ bytes. bytes.items ≡ extra_text extra.now) }
    ensures within { IsOk result → IsExtraWithinTypes extra.now }
    ensures read_back { IfOk result (λ bytes. extra_of bytes.items ≡ Ok extra.now) }
{
    let mut text = Items::empty(alloc);
    add(&mut text, b"argus contributors 1\n")?;
    add_cells(alloc, &mut text, extra.cells.as_slice())?;
    add_needs(alloc, &mut text, extra.needs.as_slice())?;
    add_worlds(alloc, &mut text, b"guard", extra.guards.as_slice())?;
    add(&mut text, b"end\n")?;
    Ok(text.into_vec())
}

// The line of the extra cells, where there are any.
fn add_cells(alloc: Global, text: &mut Items<u8>, cells: &[u32]) -> Result<(), Memory>
    ensures text { OnOk result (text.new ≡ text.old ++ flat_map line_text (cells_tokens cells.now)) }
    ensures short { OnOk result (AllByRecursion FitsIn32Bits cells.now) }
{
    if cells.is_empty() {
        return Ok(());
    }
    add(text, b"extra")?;
    add_all_with_mark(alloc, text, b' ', cells)?;
    add(text, b"\n")?;
    Ok(())
}

// The first words of a need's line.
fn add_need_head(
    alloc: Global,
    text: &mut Items<u8>,
    subject: u32,
    row: u32,
    cell: u32,
) -> Result<(), Memory>
    ensures text { OnOk result (text.new ≡ text.old ++ (codes "need" ++ space ∷ (decimal subject
        ++ space ∷ (decimal (row + 1) ++ space ∷ (decimal cell ++ space ∷ []))))) }
    ensures subject { OnOk result (FitsIn32Bits subject) }
    ensures cell { OnOk result (FitsIn32Bits cell) }
{
    let number = u64::from(row) + 1;
    let head = format!(in alloc; "need {subject} {number} {cell} ")?;
    add(text, head.as_bytes())?;
    Ok(())
}

// The line of a need.
fn add_need(alloc: Global, text: &mut Items<u8>, need: &ExtraNeed) -> Result<(), Memory>
    ensures text { OnOk result (text.new ≡ text.old ++ line_text (need_tokens need.now)) }
    ensures wide { OnOk result (IsNeedWithinTypes need.now) }
{
    add_need_head(alloc, text, need.subject, need.row, need.cell)?;
    add(text, side_word(need.side))?;
    add_integer(alloc, text, &need.multipliers.den)?;
    add_pairs(alloc, text, need.multipliers.by_relation.as_slice())?;
    add(text, b"\n")?;
    Ok(())
}

// The lines of needs.
fn add_needs(alloc: Global, text: &mut Items<u8>, needs: &[ExtraNeed]) -> Result<(), Memory>
    ensures text { OnOk result (text.new ≡ text.old ++ flat_map (λ need. line_text (need_tokens need)) needs.now) }
    ensures wide { OnOk result (AllByRecursion IsNeedWithinTypes needs.now) }
{
    'needs: for need in needs {
        add_need(alloc, text, need)?;
    }
    Ok(())
}
