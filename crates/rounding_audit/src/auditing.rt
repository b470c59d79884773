ghost use Rattle.std.specs.Prelude.{◌≡◌, ◌≤◌, ◌<◌, All, Bool, IfErr, IfOk, IfSome, IsOk, List, true, ℕ};
ghost use Rattle.sdc_base.specs.Kinds.{is_primary_at};
ghost use Rattle.sdc_base.specs.Roundings.{IsRounding};
ghost use Rattle.sdc_base.specs.Signs.{AreSigns, HasNone};
ghost use Rattle.sdc_base.specs.declared.side.Side.TheVariants.{Above, Below};
ghost use Rattle.interval_audit.specs.Ends.{IsIntervalCause, IsTrueEnd, IsWholeEnd};
ghost use Rattle.interval_audit.specs.WalkLimits.{HasNoWalk as HasNoQuestionWalk};
ghost use Rattle.cell_intervals.specs.IntervalFaults.{HasBothEnds, HasSmallComponent};
ghost use Rattle.rounding_audit.specs.AuditFaults.{HasNoWalk, IsAuditFault, IsQuestionFault};
ghost use Rattle.rounding_audit.specs.Audits.{HasWholeEnds, IsAudit, IsAuditedCell, IsAuditedEnd, IsIntegral};
ghost use Rattle.rounding_audit.specs.EndValues.{AreWholeEnds, IsEndValue};
ghost use Rattle.rounding_audit.specs.ReaderFaults.{truths_of};
ghost use Rattle.rounding_audit.specs.Readers.{CanBeAudited};
ghost use Rattle.rounding_audit.specs.Readers as readers;

use crate::audit_fault::AuditFault;
use crate::audited::{AuditedCell, AuditedEnd};
use crate::reader::Reader;
use crate::reading::reader_cells;
use cell_intervals::{EndSearch, Ratio, UpperEnd, interval_from};
use interval_audit::{Answer, AskFault, SignedSystem, TwoEnds, signed_interval};
use sdc_base::{Cell, Hidden, Items, Side, System};
use std::alloc::Global;
use worlds::reaches;

/// What a rounded release protects: for each primary cell, in ascending order of the cells' numbers, its least and its
/// greatest value among the tables that a reader of the release can't rule out, a table that attains each, multipliers
/// that show that none goes further, and whether such a table takes the cell to each side by at least its level.
///
/// The conditions are those of [`reader_cells`]; `limit`, 1 or more, says how many improvements each question may make.
/// A reader can't rule a table out in which every relation holds and every value, be it whole or a fraction, lies within
/// the bounds that [`reader_cells`] gives.
///
/// The refusals, in this order: `Reader` with the first fault of the values; `Question` with the fault of the first
/// question that has no answer, below before above, the primary cells ascending: `Size` where the component of its cell
/// has more than 4,000 cells, `Work` and `Wide` where its walk stops short. Want of memory may come at any time. What is
/// lent stays as it was.
///
/// Where the system has signs all ends are whole numbers of units, the tables beside them are in whole units, and neither
/// `Work` nor `Wide` comes.
///
/// Where the system has no signs, and no component has more than 4,000 cells, searches that are kept from cell to cell
/// answer the questions ([`EndSearch`]), and a walk those that these don't. Else, or where a question has no answer
/// then, all are asked one by one. The signs are looked for once. By searches a primary cell costs a few steps and two
/// walks through the relations and the cells, else as much as two questions.
///
/// The ends are those of the feasibility interval in Hundepool et al., Statistical Disclosure Control, chapter on
/// magnitude tables; that a rounded release is audited so is argus's own.
pub fn audit_of(
    alloc: Global,
    system: &System,
    cells: &[Cell],
    values: &[i128],
    base: i128,
    limit: u64,
) -> Result<Items<AuditedCell>, AuditFault>
    requires can { CanBeAudited system.now cells.now values.now base }
    requires limit { 1 ≤ limit }
    ensures audit { IfOk result (IsAudit system.now cells.now values.now base) }
    ensures rounded { IsOk result → IsRounding system.now (truths_of cells.now) base values.now }
    ensures whole { (signs : List Bool) → AreSigns system.now.relations signs → IfOk result (All HasWholeEnds) }
    ensures small { IfOk result (λ _. (number : ℕ) → is_primary_at cells.now number ≡ true
        → HasSmallComponent system.now (readers.all_hidden system.now.cells) number) }
    ensures fault { IfErr result (IsAuditFault system.now cells.now values.now base limit) }
    ensures signed { (signs : List Bool) → AreSigns system.now.relations signs → IfErr result HasNoWalk }
{
    let known = reader_cells(alloc, system, cells, values, base)?;
    let hidden = Hidden::of_all(alloc, system.cells)?;
    let signed = SignedSystem::of(alloc, system)?;
    let reader = Reader {
        system: &signed,
        cells,
        values,
        base,
        known: known.as_slice(),
        hidden: &hidden,
    };
    if let Some(found) = find_cells(alloc, &reader, limit) {
        return Ok(found);
    }
    let audited = audit_cells(alloc, &reader, limit)?;
    Ok(audited)
}

// What the release leaves open of each primary cell by searches that are kept from cell to cell; none where there are no
// searches, or where a cell has no ends.
fn find_cells(alloc: Global, reader: &Reader<'_>, limit: u64) -> Option<Items<AuditedCell>>
    requires limit { 1 ≤ limit }
    ensures audit { IfSome result (IsAudit reader.now.system.now reader.now.cells.now reader.now.values.now
        reader.now.base) }
    ensures no_signs { IfSome result (λ _. HasNone reader.now.system.now.relations) }
    ensures small { IfSome result (λ _. (number : ℕ) → is_primary_at reader.now.cells.now number ≡ true
        → HasSmallComponent reader.now.system.now (readers.all_hidden reader.now.system.now.cells) number) }
{
    let mut search = EndSearch::of(alloc, reader.system, reader.known, reader.hidden)?;
    let mut audited = Items::empty(alloc);
    'cells: for number in 0..reader.system.system().cells {
        if reader.cells[number as usize].kind.is_primary() {
            let one = find_cell(alloc, &mut search, reader, number, limit)?;
            let Ok(()) = audited.push(one) else {
                return None;
            };
        }
    }
    Some(audited)
}

// What the release leaves open of a cell, if a search or a walk ends.
fn find_cell(
    alloc: Global,
    search: &mut EndSearch,
    reader: &Reader<'_>,
    number: u32,
    limit: u64,
) -> Option<AuditedCell>
    requires inside { number < reader.now.system.now.cells }
    requires limit { 1 ≤ limit }
    ensures number { IfSome result (λ one. one.cell ≡ number) }
    ensures right { IfSome result (IsAuditedCell reader.now.system.now reader.now.cells.now reader.now.values.now
        reader.now.base) }
{
    let ends = search.ends_of(
        alloc,
        reader.system,
        reader.known,
        reader.hidden,
        number,
        limit,
    )?;
    Some(cell_from(reader, number, ends))
}

// What the release leaves open of each primary cell by two questions for each.
fn audit_cells(
    alloc: Global,
    reader: &Reader<'_>,
    limit: u64,
) -> Result<Items<AuditedCell>, AskFault>
    requires limit { 1 ≤ limit }
    ensures audit { IfOk result (IsAudit reader.now.system.now reader.now.cells.now reader.now.values.now
        reader.now.base) }
    ensures whole { (signs : List Bool) → AreSigns reader.now.system.now.relations signs
        → IfOk result (All HasWholeEnds) }
    ensures small { IfOk result (λ _. (number : ℕ) → is_primary_at reader.now.cells.now number ≡ true
        → HasSmallComponent reader.now.system.now (readers.all_hidden reader.now.system.now.cells) number) }
    ensures fault { IfErr result (IsQuestionFault reader.now.system.now reader.now.cells.now reader.now.known.now limit) }
    ensures signed { (signs : List Bool) → AreSigns reader.now.system.now.relations signs
        → IfErr result HasNoQuestionWalk }
{
    let mut audited = Items::empty(alloc);
    'cells: for number in 0..reader.system.system().cells {
        if reader.cells[number as usize].kind.is_primary() {
            let one = audited_cell(alloc, reader, number, limit)?;
            audited.push(one)?;
        }
    }
    Ok(audited)
}

// What the release leaves open of a cell.
fn audited_cell(
    alloc: Global,
    reader: &Reader<'_>,
    number: u32,
    limit: u64,
) -> Result<AuditedCell, AskFault>
    requires inside { number < reader.now.system.now.cells }
    requires limit { 1 ≤ limit }
    ensures number { IfOk result (λ one. one.cell ≡ number) }
    ensures right { IfOk result (IsAuditedCell reader.now.system.now reader.now.cells.now reader.now.values.now
        reader.now.base) }
    ensures whole { (signs : List Bool) → AreSigns reader.now.system.now.relations signs → IfOk result HasWholeEnds }
    ensures ended { IfOk result (λ _. HasBothEnds reader.now.system.now reader.now.known.now
        (readers.all_hidden reader.now.system.now.cells) number) }
    ensures cause { IfErr result (IsIntervalCause reader.now.system.now reader.now.known.now
        (readers.all_hidden reader.now.system.now.cells) number limit) }
    ensures signed { (signs : List Bool) → AreSigns reader.now.system.now.relations signs
        → IfErr result HasNoQuestionWalk }
{
    let ends = signed_interval(
        alloc,
        reader.system,
        reader.known,
        reader.hidden,
        number,
        limit,
    )?;
    Ok(cell_from(reader, number, ends))
}

// What the release leaves open of a cell whose two questions have these answers.
fn cell_from(reader: &Reader<'_>, number: u32, ends: TwoEnds) -> AuditedCell
    requires inside { number < reader.now.system.now.cells }
    requires below { IsTrueEnd reader.now.system.now reader.now.known.now reader.now.hidden.now.flags number Below
        ends.below }
    requires above { IsTrueEnd reader.now.system.now reader.now.known.now reader.now.hidden.now.flags number Above
        ends.above }
    ensures number { result.cell ≡ number }
    ensures right { IsAuditedCell reader.now.system.now reader.now.cells.now reader.now.values.now reader.now.base
        result }
    ensures whole { AreWholeEnds reader.now.system.now reader.now.known.now reader.now.hidden.now.flags number ends
        → HasWholeEnds result }
{
    let (low, high) = values_from(reader, number, &ends);
    let below = end_from(reader, number, Side::Below, low, ends.below);
    let above = end_from(reader, number, Side::Above, high, ends.above);
    AuditedCell {
        cell: number,
        below,
        above,
    }
}

// The least and the greatest value of a cell. No world takes a cell as far up as is asked, since the reader's bounds are
// less than that.
fn values_from(reader: &Reader<'_>, number: u32, ends: &TwoEnds) -> (Ratio, Ratio)
    requires inside { number < reader.now.system.now.cells }
    requires below { IsTrueEnd reader.now.system.now reader.now.known.now reader.now.hidden.now.flags number Below
        ends.now.below }
    requires above { IsTrueEnd reader.now.system.now reader.now.known.now reader.now.hidden.now.flags number Above
        ends.now.above }
    ensures low { IsEndValue reader.now.system.now reader.now.known.now reader.now.hidden.now.flags number Below
        result.0 }
    ensures high { IsEndValue reader.now.system.now reader.now.known.now reader.now.hidden.now.flags number Above
        result.1 }
    ensures whole { AreWholeEnds reader.now.system.now reader.now.known.now reader.now.hidden.now.flags number ends.now
        → (result.0.den ≡ 1) × (result.1.den ≡ 1) }
{
    let found = interval_from(
        reader.system.system(),
        reader.known,
        reader.hidden,
        number,
        ends,
    );
    let UpperEnd::At(high) = found.high else {
        unreachable!();
    };
    (found.low, high)
}

// The end of a cell's values to a side, by the answer of its question.
fn end_from(
    reader: &Reader<'_>,
    number: u32,
    side: Side,
    value: Ratio,
    answer: Answer,
) -> AuditedEnd
    requires inside { number < reader.now.system.now.cells }
    requires end { IsTrueEnd reader.now.system.now reader.now.known.now reader.now.hidden.now.flags number side answer }
    requires value { IsEndValue reader.now.system.now reader.now.known.now reader.now.hidden.now.flags number side
        value }
    ensures right { IsAuditedEnd reader.now.system.now reader.now.cells.now reader.now.values.now reader.now.base number
        side result }
    ensures whole { IsWholeEnd reader.now.system.now reader.now.known.now reader.now.hidden.now.flags number side answer
        → value.den ≡ 1 → IsIntegral result }
{
    match answer {
        Answer::Stops {
            world,
            multipliers,
            ..
        } => {
            let cell = &reader.cells[number as usize];
            let covered = reaches(cell, side, number, &world);
            AuditedEnd {
                value,
                covered,
                world,
                stop: multipliers,
            }
        }
        Answer::Reaches(_) => unreachable!(),
    }
}
