ghost use Rattle.std.specs.Prelude.{◌≡◌, ◌<◌, Ok, length, All, IfOk};
ghost use Rattle.sdc_base.specs.Answers.{Gives};
ghost use Rattle.sdc_base.specs.Patterns.{IsPattern};
ghost use Rattle.worlds.specs.ProtectFaults.{line_number};
ghost use Rattle.worlds.specs.WorldFaults.{IsGivenWorld};
ghost use Rattle.repair.specs.HidingOrder.{protected_case};
ghost use Rattle.sdc_base.specs.HiddenSets.{show};
ghost use Rattle.attackers.specs.Extras as extras;
ghost use Rattle.attackers.specs.KnownCells as known;
ghost use Rattle.attackers.specs.ExtraFaults as spec;
ghost use Rattle.attackers.specs.ExtraFaults.{extra_fault_of};
ghost use Rattle.attackers.specs.ExtraAcceptance.{IsGuarding};

use crate::attack::Attack;
use crate::faults::ExtraFault;
use crate::known::{is_attack, is_primary_at, without_known};
use crate::meeting::check_attacks;
use certificate::{Extra, ExtraNeed, WorldLine};
use repair::is_free_at;
use sdc_base::{Cell, Hidden, Memory, Side, System, is_hidden};
use std::alloc::Global;
use worlds::{Pattern, check_refutation, check_world};

/// Whether extra cells beside a hidden set are needed, and guard with it against every contributor that alone makes up
/// some cell, as the worlds of a certificate and their own show.
///
/// There are a cell, a flag and an entry of the soles for each cell of the system, and the worlds are ones for the
/// hidden set. Any extra may be given.
///
/// The fault is the first in this order: the extra cells, one that isn't above the one before it, isn't free or is
/// hidden already; the needs' cells, where a need isn't that of its extra cell, its row alone makes up no cell, its cell
/// isn't primary or is known to the contributor, or a need is missing or too many; the needs, whose multipliers must
/// refute the level for the hidden set with all extra cells but its own, and without what its contributor knows; the
/// guards' cells, one that isn't primary or stands before the one before it, above before below; the guards' worlds,
/// which must be ones for the hidden set with the extra cells; and then the first contributor, primary cell that it
/// doesn't know, and side, for which no world takes the cell as far as its level and moves no cell that the contributor
/// knows. A place beyond the numbers of 32 bits has the greatest of them. Want of memory may come at any point.
///
/// It asks no question. Each need goes once through the cells and the parts of the relations that have a multiplier,
/// each guard through the parts of all relations. For each contributor, primary cell and side it takes one look at the
/// world of that cell and side, and where that one doesn't serve at the guards, and then at all worlds.
///
/// Extra cells are argus's own; the worlds are those of the handbook's feasibility interval.
pub fn accept_extra(
    alloc: Global,
    system: &System,
    cells: &[Cell],
    soles: &[Option<u32>],
    hidden: &Hidden,
    worlds: &[WorldLine],
    extra: &Extra,
) -> Result<(), ExtraFault>
    requires ground { IsPattern system.now cells.now hidden.now.flags }
    requires worlds { All (λ line. IsGivenWorld system.now cells.now hidden.now.flags line.world) worlds.now }
    ensures exact { Gives extra_fault_of (λ u. u) result
        (spec.extra_fault (protected_case system.now cells.now) soles.now hidden.now.flags worlds.now extra.now) }
    ensures accepted { result ≡ Ok tt
        → IsGuarding (protected_case system.now cells.now) soles.now hidden.now.flags extra.now }
{
    let pattern = Pattern {
        system,
        cells,
        hidden,
    };
    extra_cells_fault(alloc, &pattern, soles, worlds, extra)
}

// The first fault.
fn extra_cells_fault(
    alloc: Global,
    pattern: &Pattern<'_>,
    soles: &[Option<u32>],
    worlds: &[WorldLine],
    extra: &Extra,
) -> Result<(), ExtraFault>
    ensures exact { Gives extra_fault_of (λ u. u) result
        (spec.extra_fault (protected_case pattern.now.system.now pattern.now.cells.now) soles.now
        pattern.now.hidden.now.flags worlds.now extra.now) }
{
    let cells = pattern.cells;
    let flags = pattern.hidden.flags.as_slice();
    check_cells(cells, flags, extra.cells.as_slice())?;
    check_need_cells(cells, soles, extra.cells.as_slice(), extra.needs.as_slice())?;
    let all = pattern.hidden.with_cells(alloc, extra.cells.as_slice())?;
    let extended = Pattern {
        system: pattern.system,
        cells,
        hidden: &all,
    };
    check_guarding(alloc, &extended, soles, worlds, extra)
}

// The first fault of the extra cells.
fn check_cells(cells: &[Cell], flags: &[bool], extras: &[u32]) -> Result<(), ExtraFault>
    ensures { result ≡ spec.cells_fault cells.now flags.now 0 0 extras.now }
{
    let mut least: u64 = 0;
    for (place, cell) in extras.iter().enumerate() {
        if !may_be_extra(cells, flags, least, *cell) {
            return Err(ExtraFault::Cell(number_of(place)));
        }
        least = u64::from(*cell) + 1;
    }
    Ok(())
}

// Whether a cell may be the next extra one.
fn may_be_extra(cells: &[Cell], flags: &[bool], least: u64, cell: u32) -> bool
    ensures { result ≡ spec.may_be_extra cells.now flags.now least cell }
{
    least <= u64::from(cell) && is_free_at(cells, cell) && !is_hidden(flags, cell as usize)
}

// The first fault of the needs' cells.
fn check_need_cells(
    cells: &[Cell],
    soles: &[Option<u32>],
    subjects: &[u32],
    needs: &[ExtraNeed],
) -> Result<(), ExtraFault>
    ensures { result ≡ spec.need_cells_fault cells.now soles.now 0 subjects.now needs.now }
{
    for (place, need) in needs.iter().enumerate() {
        if !is_need_at(cells, soles, subjects, place, need) {
            return Err(ExtraFault::NeedCell(number_of(place)));
        }
    }
    if needs.len() < subjects.len() {
        return Err(ExtraFault::NeedCell(number_of(needs.len())));
    }
    Ok(())
}

// Whether there is an extra cell at a place, and the need is that of it.
fn is_need_at(
    cells: &[Cell],
    soles: &[Option<u32>],
    subjects: &[u32],
    place: usize,
    need: &ExtraNeed,
) -> bool
    ensures { result ≡ spec.is_need_at cells.now soles.now subjects.now place need.now }
{
    match subjects.get(place) {
        Some(subject) => is_need_of(cells, soles, *subject, need),
        None => false,
    }
}

// Whether a need is that of an extra cell, and names an attack.
fn is_need_of(cells: &[Cell], soles: &[Option<u32>], subject: u32, need: &ExtraNeed) -> bool
    ensures { result ≡ spec.is_need_of cells.now soles.now subject need.now }
{
    need.subject == subject && is_attack(cells, soles, attack_of(need))
}

// The attack that a need names.
fn attack_of(need: &ExtraNeed) -> Attack
    ensures { result ≡ extras.attack_of need.now }
{
    Attack {
        row: need.row,
        cell: need.cell,
        side: need.side,
    }
}

// The first fault of what the extra says of the set with its cells.
fn check_guarding(
    alloc: Global,
    extended: &Pattern<'_>,
    soles: &[Option<u32>],
    worlds: &[WorldLine],
    extra: &Extra,
) -> Result<(), ExtraFault>
    requires needs { All (λ need. need.cell < length extended.now.cells.now) extra.now.needs }
    requires subjects { All (λ need. need.subject < length extended.now.cells.now) extra.now.needs }
    ensures { Gives extra_fault_of (λ u. u) result
        (spec.guarding_fault (protected_case extended.now.system.now extended.now.cells.now) soles.now
        extended.now.hidden.now.flags worlds.now extra.now) }
{
    let cells = extended.cells;
    let mut scratch = Vec::from_elem(alloc, 0, cells.len())?;
    check_needs(alloc, extended, soles, extra.needs.as_slice(), &mut scratch)?;
    check_guard_cells(cells, extra.guards.as_slice())?;
    check_guards(extended, extra.guards.as_slice(), &mut scratch)?;
    check_attacks(alloc, cells, soles, worlds, extra.guards.as_slice())
}

// The first fault of the needs.
fn check_needs(
    alloc: Global,
    extended: &Pattern<'_>,
    soles: &[Option<u32>],
    needs: &[ExtraNeed],
    scratch: &mut [i128],
) -> Result<(), ExtraFault>
    requires scratch { length scratch.old ≡ extended.now.system.now.cells }
    requires needs { All (λ need. need.cell < length extended.now.cells.now) needs.now }
    requires subjects { All (λ need. need.subject < length extended.now.cells.now) needs.now }
    ensures exact { Gives extra_fault_of (λ u. u) result
        (spec.needs_fault (protected_case extended.now.system.now extended.now.cells.now) soles.now
        extended.now.hidden.now.flags 0 needs.now) }
    ensures length { length scratch.new ≡ length scratch.old }
{
    for (place, need) in needs.iter().enumerate() {
        check_need(alloc, extended, soles, place, need, scratch)?;
    }
    Ok(())
}

// The fault of one need.
fn check_need(
    alloc: Global,
    extended: &Pattern<'_>,
    soles: &[Option<u32>],
    place: usize,
    need: &ExtraNeed,
    scratch: &mut [i128],
) -> Result<(), ExtraFault>
    requires scratch { length scratch.old ≡ extended.now.system.now.cells }
    requires cell { need.now.cell < length extended.now.cells.now }
    requires subject { need.now.subject < length extended.now.cells.now }
    ensures exact { Gives extra_fault_of (λ u. u) result
        (spec.need_fault (protected_case extended.now.system.now extended.now.cells.now) soles.now
        extended.now.hidden.now.flags place need.now) }
    ensures length { length scratch.new ≡ length scratch.old }
{
    let flags = extended.hidden.flags.as_slice();
    let left = set_without(alloc, soles, need.row, flags, need.subject)?;
    match check_refutation(
        extended.system,
        extended.cells,
        &left,
        need.cell,
        need.side,
        &need.multipliers,
        scratch,
    ) {
        Ok(()) => Ok(()),
        Err(why) => Err(ExtraFault::Need(number_of(place), why)),
    }
}

// The hidden set without a cell and without what a contributor knows.
fn set_without(
    alloc: Global,
    soles: &[Option<u32>],
    row: u32,
    flags: &[bool],
    cell: u32,
) -> Result<Hidden, Memory>
    requires { cell < length flags.now }
    ensures flags { IfOk result (λ left. left.flags ≡ known.without_known soles.now row (show flags.now cell)) }
{
    let mut less = flags.to_vec(alloc)?;
    less[cell as usize] = false;
    without_known(alloc, soles, row, &less)
}

// The first fault of the guards' cells.
fn check_guard_cells(cells: &[Cell], guards: &[WorldLine]) -> Result<(), ExtraFault>
    ensures { result ≡ spec.guard_cells_fault cells.now 0 0 guards.now }
{
    let mut least: u64 = 0;
    for (place, line) in guards.iter().enumerate() {
        if !may_be_guard(cells, least, line) {
            return Err(ExtraFault::GuardCell(place as u64));
        }
        least = rank_of(line);
    }
    Ok(())
}

// Whether a guard may be next.
fn may_be_guard(cells: &[Cell], least: u64, line: &WorldLine) -> bool
    ensures { result ≡ spec.may_be_guard cells.now least line.now }
{
    is_primary_at(cells, line.cell) && least <= rank_of(line)
}

/// Where a guard's cell and side stand in the order of all.
pub(crate) fn rank_of(line: &WorldLine) -> u64
    ensures { result ≡ spec.rank_of line.now }
{
    match line.side {
        Side::Above => 2 * u64::from(line.cell),
        Side::Below => 2 * u64::from(line.cell) + 1,
    }
}

// The first fault of the guards' worlds.
fn check_guards(
    extended: &Pattern<'_>,
    guards: &[WorldLine],
    scratch: &mut [i128],
) -> Result<(), ExtraFault>
    requires scratch { length scratch.old ≡ extended.now.system.now.cells }
    ensures { result ≡ spec.guards_fault (protected_case extended.now.system.now extended.now.cells.now)
        extended.now.hidden.now.flags 0 guards.now }
{
    for (place, line) in guards.iter().enumerate() {
        let checked = check_world(
            extended.system,
            extended.cells,
            extended.hidden,
            &line.world,
            scratch,
        );
        if let Err(why) = checked {
            return Err(ExtraFault::Guard(place as u64, why));
        }
    }
    Ok(())
}

// The number of a place in 32 bits, the greatest one for all beyond.
fn number_of(place: usize) -> u32
    ensures { result ≡ line_number place }
{
    place.min(4294967295) as u32
}
