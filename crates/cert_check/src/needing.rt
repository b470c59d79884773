ghost use Rattle.std.specs.Prelude.{◌≡◌, ◌∷◌, ◌++◌, [], ◌<◌, ◌^◌, length, All, slice_get, true, IfOk, OnOk};
ghost use Rattle.sdc_base.specs.Patterns.{IsPattern};
ghost use Rattle.sdc_base.specs.Answers.{Gives};
ghost use Rattle.sdc_base.specs.HiddenSets.{is_hidden};
ghost use Rattle.repair.specs.Needs.{others_hidden};
ghost use Rattle.cert_check.specs.FirstFault.{check_fault_of};
ghost use Rattle.cert_check.specs.NeedList.{need_fault, place_fault, each_need_fault, needs_fault};

use crate::case::Case;
use crate::faults::CheckFault;
use crate::numbering::number_of;
use sdc_base::{Cell, Hidden, Memory};
use std::alloc::Global;
use worlds::{Refuted, check_refutation};

/// Refuses needs that aren't one for each hidden cell that isn't primary. The hidden set is as before.
pub(crate) fn check_needs(
    alloc: Global,
    case: &Case<'_>,
    hidden: &mut Hidden,
    needs: &[Refuted],
    scratch: &mut [i128],
) -> Result<(), CheckFault>
    requires ground { IsPattern case.now.system.now case.now.cells.now hidden.old.flags }
    requires scratch { length scratch.old ≡ case.now.system.now.cells }
    requires asked { All (λ need. need.cell < case.now.system.now.cells) needs.now }
    ensures exact { Gives check_fault_of (λ u. u) result
        (needs_fault case.now.system.now case.now.cells.now hidden.old.flags needs.now) }
    ensures hidden { OnOk result (hidden.new.flags ≡ hidden.old.flags) }
    ensures length { length scratch.new ≡ length scratch.old }
{
    let subjects = subjects_of(alloc, case.cells, hidden.flags.as_slice())?;
    check_each(case, hidden, &subjects, needs, scratch)
}

// The hidden cells that aren't primary.
fn subjects_of(alloc: Global, cells: &[Cell], flags: &[bool]) -> Result<Vec<u32>, Memory>
    requires flags { length flags.now ≡ length cells.now }
    requires fewer_than_2_32 { length cells.now < 2 ^ 32 }
    ensures subjects { IfOk result (λ subjects. subjects.items ≡ others_hidden flags.now 0 cells.now) }
{
    let mut subjects = Vec::new(alloc);
    for (number, cell) in cells.iter().enumerate() {
        add_subject(&mut subjects, number as u32, cell, flags)?;
    }
    Ok(subjects)
}

// Adds a cell that is hidden and isn't primary.
fn add_subject(
    subjects: &mut Vec<u32>,
    number: u32,
    cell: &Cell,
    flags: &[bool],
) -> Result<(), Memory>
    requires { number < length flags.now }
    ensures { OnOk result (subjects.new.items ≡ subjects.old.items ++ others_hidden flags.now number (cell.now ∷ [])) }
{
    if flags[number as usize] && !cell.kind.is_primary() {
        subjects.push(number)?;
    }
    Ok(())
}

// The first fault of the needs, one for each subject.
fn check_each(
    case: &Case<'_>,
    hidden: &mut Hidden,
    subjects: &[u32],
    needs: &[Refuted],
    scratch: &mut [i128],
) -> Result<(), CheckFault>
    requires ground { IsPattern case.now.system.now case.now.cells.now hidden.old.flags }
    requires scratch { length scratch.old ≡ case.now.system.now.cells }
    requires subjects { subjects.now ≡ others_hidden hidden.old.flags 0 case.now.cells.now }
    requires asked { All (λ need. need.cell < case.now.system.now.cells) needs.now }
    ensures exact { result ≡
        each_need_fault case.now.system.now case.now.cells.now hidden.old.flags 0 subjects.now needs.now }
    ensures hidden { OnOk result (hidden.new.flags ≡ hidden.old.flags) }
    ensures length { length scratch.new ≡ length scratch.old }
{
    for (place, need) in needs.iter().enumerate() {
        check_place(case, hidden, subjects, place, need, scratch)?;
    }
    if needs.len() < subjects.len() {
        return Err(CheckFault::NeedCell(number_of(needs.len())));
    }
    Ok(())
}

// The fault of the need at a place.
fn check_place(
    case: &Case<'_>,
    hidden: &mut Hidden,
    subjects: &[u32],
    place: usize,
    need: &Refuted,
    scratch: &mut [i128],
) -> Result<(), CheckFault>
    requires ground { IsPattern case.now.system.now case.now.cells.now hidden.old.flags }
    requires scratch { length scratch.old ≡ case.now.system.now.cells }
    requires subjects { subjects.now ≡ others_hidden hidden.old.flags 0 case.now.cells.now }
    requires asked { need.now.cell < case.now.system.now.cells }
    ensures exact { result ≡
        place_fault case.now.system.now case.now.cells.now hidden.old.flags place (slice_get subjects.now place)
        need.now }
    ensures hidden { OnOk result (hidden.new.flags ≡ hidden.old.flags) }
    ensures length { length scratch.new ≡ length scratch.old }
{
    match subject_at(subjects, place) {
        Some(subject) => check_need(case, hidden, number_of(place), subject, need, scratch),
        None => Err(CheckFault::NeedCell(number_of(place))),
    }
}

// The subject at a place.
fn subject_at(subjects: &[u32], place: usize) -> Option<u32>
    ensures { result ≡ slice_get subjects.now place }
{
    let subject = subjects.get(place)?;
    Some(*subject)
}

// The fault of a need with this subject, which is hidden.
fn check_need(
    case: &Case<'_>,
    hidden: &mut Hidden,
    number: u32,
    subject: u32,
    need: &Refuted,
    scratch: &mut [i128],
) -> Result<(), CheckFault>
    requires ground { IsPattern case.now.system.now case.now.cells.now hidden.old.flags }
    requires scratch { length scratch.old ≡ case.now.system.now.cells }
    requires within { subject < case.now.system.now.cells }
    requires hidden { is_hidden hidden.old.flags subject ≡ true }
    requires asked { need.now.cell < case.now.system.now.cells }
    ensures exact { result ≡
        need_fault case.now.system.now case.now.cells.now hidden.old.flags number subject need.now }
    ensures hidden { OnOk result (hidden.new.flags ≡ hidden.old.flags) }
    ensures length { length scratch.new ≡ length scratch.old }
{
    if need.subject != subject {
        return Err(CheckFault::NeedCell(number));
    }
    hidden.show(subject);
    if let Err(fault) = check_refutation(
        case.system,
        case.cells,
        hidden,
        need.cell,
        need.side,
        &need.multipliers,
        scratch,
    ) {
        return Err(CheckFault::Need(number, fault));
    }
    hidden.hide(subject);
    Ok(())
}
