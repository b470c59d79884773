ghost use Rattle.std.specs.Prelude.{◌≡◌, ◌↔◌, IsTrue, List, Bool, length, IfOk, IfErr};
ghost use Rattle.sdc_base.specs.HiddenSets.{full_set, IsPermitted};
ghost use Rattle.sdc_base.specs.Signs.{AreSigns};
ghost use Rattle.worlds.specs.ProtectFaults.{asked_of};
ghost use Rattle.repair.specs.HidingOrder.{protected_case, prices_of};
ghost use Rattle.repair.specs.KeptWorlds.{CanBeProtected};
ghost use Rattle.attackers.specs.AttackOrder as order;
ghost use Rattle.attackers.specs.KnownCells.{GuardsAll};
ghost use Rattle.attackers.specs.ContributorTasks.{case_of, IsExtendedUpTo};
ghost use Rattle.attackers.specs.Dropping.{IsReadyToTry};
ghost use Rattle.attackers.specs.GuardStops.{IsStopAsTold};
ghost use Rattle.attackers.specs.Guarding.{IsGuarded, is_cannot};
ghost use Rattle.attackers.specs.Narrowing.{IsOutcome};
ghost use Rattle.attackers.specs.Turns.{IsLeftOfTurns};
ghost use Rattle.attackers.specs.WholeGuards.{IsWholeGuarded, IsWholeGuardStop};

use crate::collecting::extra_of;
use crate::contributor_task::ContributorTask;
use crate::extra::{GuardStop, Guarded};
use crate::order::unserved_attacks;
use crate::serving::guard_all;
use crate::stopping::{out_of_memory, stop_with};
use crate::trying::try_all;
use certificate::{ExtraNeed, WorldLine};
use cost_rule::{CostRule, TellsCosts};
use interval_audit::SignedSystem;
use linked_tables::Mark;
use repair::{Progress, Trials, list_prices, questions_about, questions_of};
use sdc_base::{Cell, Hidden, Items, Side, System};
use std::alloc::Global;
use worlds::Protected;

/// Hides further cells until a protected hidden set guards against each contributor that alone makes up some cell, and
/// shows those that needn't be hidden.
///
/// Such a contributor knows its cells. The set guards against it where each primary cell that it doesn't know is open
/// to both sides by its levels without them. The contributors are asked about in ascending order of their rows, for
/// each the primary cells that it doesn't know ascending, above before below: whether some world for the hidden set
/// without what the contributor knows takes the cell as far as its level. A world at hand serves too, where it takes
/// the cell as far and moves no cell that the contributor knows. Where none does, multipliers show it, and among the
/// free cells that aren't hidden, aren't known to the contributor and count in them, the one of lowest price, then of
/// lowest number, is hidden too, as an extra cell; and the question is asked again. Where there is no such cell, not
/// even all cells that may be hidden guard against the contributor there: the answer is `CannotAgainst`, with these
/// multipliers.
///
/// Then each extra cell is tried as shown, in ascending order: where all questions are reached the cell is dropped; else
/// it stays hidden, and the first refutation is kept as its need. The answer is `Guards`, with the worlds that serve
/// beside those of the protection.
///
/// There are a cell, a mark, a flag and an entry of the soles for each cell of the system, in the order of their
/// numbers from 0; the protection is one of this system and these cells; the marks' facts are ones that the rule may be
/// asked about; levels are in units and at most `2^110`. A question takes at most `limit` improvements, 1 or more.
///
/// `GuardStop` has the fault of the question that stopped short: `Size` where its component has too many hidden cells,
/// `Work` after `limit` improvements, `Wide` where a number is wider than 128 bits, or `Memory`, which any call may give.
/// It tells the row of the contributor that was asked about, the extra cells so far and, ascending, those that were
/// dropped, of which the last was being tried; under `Memory` both lists are empty, and the row is 0. What was lent
/// stays as it was.
///
/// Where the relations have signs everything is in whole units: all denominators are 1, and no question stops short but
/// for its size or want of memory.
///
/// The rule is asked once for each cell without a price. For each contributor, primary cell and side it takes one look
/// at the protection's world, and only where that one doesn't serve one at the worlds at hand, and where none of them
/// does, a question. A trial goes once through those for which the protection's world doesn't serve. Where the system
/// has no signs, questions are asked of kept tables first ([`kept_questions`]), and of the walk where these have no
/// answer; multipliers are those of the walk's answer either way.
///
/// Extra cells are argus's own; the questions are those of the feasibility interval in Hundepool et al., Statistical
/// Disclosure Control, chapter on magnitude tables.
pub fn guard<F: TellsCosts>(
    alloc: Global,
    system: &System,
    cells: &[Cell],
    marks: &[Mark],
    rule: &CostRule<F>,
    soles: &[Option<u32>],
    protected: &Protected<'_>,
    limit: u64,
) -> Result<Guarded, GuardStop>
    requires can { CanBeProtected system.now cells.now marks.now limit }
    requires of_system { protected.now.system ≡ system.now }
    requires of_cells { protected.now.cells ≡ cells.now }
    requires each_flag { length protected.now.hidden.flags ≡ length cells.now }
    ensures guarded { IfOk result (IsGuarded (protected_case system.now cells.now) soles.now protected.now.hidden.flags
        protected.now.worlds) }
    ensures turns { IfOk result (IsLeftOfTurns (protected_case system.now cells.now) soles.now
        (prices_of rule.now cells.now marks.now) (order.attacks_of cells.now soles.now) protected.now.hidden.flags) }
    ensures cannot { IfOk result (λ guarded. IsTrue (is_cannot guarded)
        ↔ ¬ GuardsAll (protected_case system.now cells.now)
        soles.now (full_set cells.now) (order.attacks_of cells.now soles.now)) }
    ensures stopped { IfErr result (IsStopAsTold (protected_case system.now cells.now) soles.now
        (prices_of rule.now cells.now marks.now) (order.attacks_of cells.now soles.now) protected.now.hidden.flags
        limit) }
    ensures whole { (signs : List Bool) → AreSigns system.now.relations signs
        → IfOk result IsWholeGuarded }
    ensures whole_stop { (signs : List Bool) → AreSigns system.now.relations signs
        → IfErr result IsWholeGuardStop }
{
    let Ok(prices) = list_prices(alloc, cells, marks, rule) else {
        return Err(out_of_memory(alloc));
    };
    let Ok(asked) = questions_of(alloc, cells) else {
        return Err(out_of_memory(alloc));
    };
    let Ok(attacks) = unserved_attacks(alloc, cells, soles, &asked, protected.worlds()) else {
        return Err(out_of_memory(alloc));
    };
    let Ok(signed) = SignedSystem::of(alloc, system) else {
        return Err(out_of_memory(alloc));
    };
    let task = ContributorTask {
        system: &signed,
        cells,
        soles,
        prices: &prices,
        attacks: &attacks,
        limit,
    };
    resist_beside(alloc, &task, &asked, protected)
}

// Guards against the attacks that a protection's worlds don't serve, beside its hidden set.
fn resist_beside(
    alloc: Global,
    task: &ContributorTask<'_>,
    asked: &[(u32, Side)],
    protected: &Protected<'_>,
) -> Result<Guarded, GuardStop>
    requires of_system { protected.now.system ≡ task.now.system.now }
    requires of_cells { protected.now.cells ≡ task.now.cells.now }
    requires each_flag { length protected.now.hidden.flags ≡ length task.now.cells.now }
    requires asked { asked.now ≡ asked_of 0 task.now.cells.now }
    requires left { task.now.attacks.now
        ≡ order.unserved_attacks task.now.cells.now task.now.soles.now protected.now.worlds }
    ensures guarded { IfOk result (IsGuarded (case_of task.now) task.now.soles.now protected.now.hidden.flags
        protected.now.worlds) }
    ensures turns { IfOk result (IsLeftOfTurns (case_of task.now) task.now.soles.now task.now.prices.now
        (order.attacks_of task.now.cells.now task.now.soles.now) protected.now.hidden.flags) }
    ensures stopped { IfErr result (IsStopAsTold (case_of task.now) task.now.soles.now task.now.prices.now
        (order.attacks_of task.now.cells.now task.now.soles.now) protected.now.hidden.flags task.now.limit) }
    ensures whole { (signs : List Bool) → AreSigns task.now.system.now.relations signs
        → IfOk result IsWholeGuarded }
    ensures whole_stop { (signs : List Bool) → AreSigns task.now.system.now.relations signs
        → IfErr result IsWholeGuardStop }
{
    // for the proof: read, so that they are known to have no fault
    let _worlds = protected.worlds();
    resist(alloc, task, asked, protected.hidden())
}

// Guards against a list of attacks, beside a first hidden set.
fn resist(
    alloc: Global,
    task: &ContributorTask<'_>,
    asked: &[(u32, Side)],
    first: &Hidden,
) -> Result<Guarded, GuardStop>
    requires each { length first.now.flags ≡ task.now.system.now.cells }
    requires permitted { IsPermitted task.now.cells.now first.now.flags }
    requires asked { asked.now ≡ asked_of 0 task.now.cells.now }
    ensures guarded { IfOk result (IsOutcome task.now first.now.flags) }
    ensures stopped { IfErr result (IsStopAsTold (case_of task.now) task.now.soles.now task.now.prices.now
        task.now.attacks.now first.now.flags task.now.limit) }
{
    let Ok(flags) = first.flags.as_slice().to_vec(alloc) else {
        return Err(out_of_memory(alloc));
    };
    let mut progress = Progress {
        hidden: Hidden {
            flags: Items::new(flags),
        },
        tables: Items::empty(alloc),
        reasons: Items::empty(alloc),
        kept: questions_about(alloc, task.system, task.cells, first),
    };
    let outcome = guard_all(alloc, task, &mut progress);
    let found = match outcome {
        Ok(found) => found,
        Err(row_fault) => {
            return Err(stop_with(alloc, row_fault, progress.reasons, Items::empty(alloc)));
        }
    };
    match found {
        Some(one) => Ok(Guarded::CannotAgainst {
            row: one.attack.row,
            cell: one.attack.cell,
            side: one.attack.side,
            multipliers: one.multipliers,
        }),
        None => narrow(alloc, task, asked, first, progress),
    }
}

// Drops the extra cells that needn't be hidden, where guards hold against all attacks.
fn narrow(
    alloc: Global,
    task: &ContributorTask<'_>,
    asked: &[(u32, Side)],
    first: &Hidden,
    extended: Progress<WorldLine, ExtraNeed>,
) -> Result<Guarded, GuardStop>
    requires ready { IsReadyToTry task.now first.now.flags extended }
    requires asked { asked.now ≡ asked_of 0 task.now.cells.now }
    requires extended { IsExtendedUpTo task.now (length task.now.attacks.now) first.now.flags extended }
    ensures guarded { IfOk result (IsOutcome task.now first.now.flags) }
    ensures stopped { IfErr result (IsStopAsTold (case_of task.now) task.now.soles.now task.now.prices.now
        task.now.attacks.now first.now.flags task.now.limit) }
{
    let mut progress = extended;
    let mut found = Trials {
        needs: Items::empty(alloc),
        shown: Items::empty(alloc),
    };
    let outcome = try_all(alloc, task, first, &mut progress, &mut found);
    if let Err(row_fault) = outcome {
        return Err(stop_with(alloc, row_fault, progress.reasons, found.shown));
    }
    match extra_of(alloc, asked, progress.tables.as_slice(), found.needs) {
        Ok(extra) => Ok(Guarded::Guards(extra)),
        Err(_) => Err(out_of_memory(alloc)),
    }
}
