ghost use Rattle.std.specs.Prelude.{◌≡◌, ◌↔◌, IsTrue, List, Bool, length, All, IfOk, IfErr};
ghost use Rattle.sdc_base.specs.HiddenSets.{IsPermitted, full_set};
ghost use Rattle.sdc_base.specs.HiddenSets.{MayHide};
ghost use Rattle.sdc_base.specs.Signs.{AreSigns};
ghost use Rattle.sdc_base.specs.Trails.{corners_of};
ghost use Rattle.repair.specs.HidingOrder.{protected_case, prices_of, planned_set, ProtectsAll};
ghost use Rattle.repair.specs.KeptWorlds.{CanBeProtected};
ghost use Rattle.repair.specs.Tasks.{case_of};
ghost use Rattle.repair.specs.Stops.{IsStopAsTold};
ghost use Rattle.repair.specs.QuestionSteps.{IsRepairedForAll};
ghost use Rattle.repair.specs.Attempts.{IsServedSet};
ghost use Rattle.repair.specs.Verdicts.{IsVerdict, IsNarrowed, is_cannot};
ghost use Rattle.repair.specs.WholeVerdicts.{IsWholeVerdict, IsWholeStop};

use crate::asking::questions_about;
use crate::last_worlds::no_last;
use crate::planned::planned_hidden;
use crate::prices::list_prices;
use crate::progress::Progress;
use crate::questions::questions_of;
use crate::serving::serve_all;
use crate::stopped::{Stopped, out_of_memory, stop_with};
use crate::task::Task;
use crate::trials::Trials;
use crate::trying::{Findings, try_all};
use crate::verdict::Verdict;
use cost_rule::{CostRule, TellsCosts};
use interval_audit::SignedSystem;
use linked_tables::Mark;
use sdc_base::{Cell, Hidden, Items, System, Trail};
use std::alloc::Global;
use worlds::{Protected, Refuted, World};

/// Hides cells until each primary cell is open to both sides by its levels, and shows those that needn't be hidden.
///
/// The primary cells and the corners of the trail are hidden first. Then the primary cells are asked about in ascending
/// order, above before below: whether some world for the hidden set takes the cell as far as its level. Where none
/// does, multipliers show it, and among the free shown cells that count in them the one of lowest price, then of lowest
/// number, is hidden too; that is a repair, and the question is asked again. Where there is no such cell, no permitted
/// hidden set protects the cell to that side: the verdict is `Cannot`, with the multipliers that stopped this question.
///
/// Then each hidden free cell is tried as shown, in ascending order. The questions are gone through in their order, and
/// one is asked, with the cell shown, where neither its kept world nor the last that a trial found for it moves hidden
/// cells alone.
/// Where all are reached the cell is shown from then on. Else it stays hidden, and the first refutation is kept as its
/// need: every question before that of the need is protected with the cell shown.
///
/// At last each question whose world moves a cell that is shown gets an answer of its own that moves none: one that a
/// trial gave, or else it is asked once, of the final set. The verdict is `Protected`, with a world for each question:
/// one of the set of its question that takes the cell exactly to its level, and where there are signs the answer of
/// [`interval_audit::ask`].
///
/// Where the system has no signs, questions are asked of kept tables first ([`kept_questions`]), and of the walk where
/// these have no answer; multipliers are those of the walk's answer either way. Before a trial asks the walk, it looks
/// for a world at hand that serves the question: those that are kept for the questions, one each, and beside them the
/// walk's answers in trials, also those in vain; of these there are at most as many as questions, and none moves a cell
/// that is shown.
///
/// There are a cell and a mark for each cell of the system, in the order of their numbers from 0; the marks' facts are
/// ones that the rule may be asked about; levels are in units and at most `2^110`; the corners are numbers of cells
/// that aren't fixed. A question takes at most `limit` improvements, 1 or more.
///
/// `Stopped` has the fault of the question that stopped short: `Size` where its component has too many hidden cells,
/// `Work` after `limit` improvements, `Wide` where a number is wider than 128 bits, or `Memory`, which any call may
/// give. It tells the repairs so far and, ascending, the cells that were shown again, of which the last was being
/// tried where not all had been; under `Memory` both lists are empty. What was lent stays as it was.
///
/// Where the system has signs ([`sdc_base::signs`]), neither `Work` nor `Wide` comes, and each denominator is 1.
///
/// The rule is asked once for each cell without a price. There is a question for each primary cell and side and for
/// each repair; for each hidden free cell one for each question that neither its kept world nor its last one serves
/// with it shown; and at last at most one for each question. A repair goes once through the cells and the parts of the
/// relations that have a multiplier, and once through the kept tables; a trial goes once through the moves of all kept
/// and last worlds, and for each question that is to be asked of the walk through those of the worlds at hand.
///
/// Repairs and needs are this project's own; the questions are those of the feasibility interval in Hundepool et al.,
/// Statistical Disclosure Control, chapter on magnitude tables.
pub fn protect<'a, F: TellsCosts>(
    alloc: Global,
    system: &'a System,
    cells: &'a [Cell],
    marks: &[Mark],
    rule: &CostRule<F>,
    trail: &Trail,
    limit: u64,
) -> Result<Verdict<'a>, Stopped>
    requires can { CanBeProtected system.now cells.now marks.now limit }
    requires corners { All (MayHide cells.now) (corners_of trail.now.steps) }
    ensures verdict { IfOk result (λ verdict. IsVerdict (protected_case system.now cells.now)
        (prices_of rule.now cells.now marks.now) (planned_set cells.now (corners_of trail.now.steps)) verdict) }
    ensures cannot { IfOk result (λ verdict. IsTrue (is_cannot verdict)
        ↔ ¬ ProtectsAll (protected_case system.now cells.now) (full_set cells.now)) }
    ensures stopped { IfErr result (λ stopped. IsStopAsTold (protected_case system.now cells.now)
        (prices_of rule.now cells.now marks.now) (planned_set cells.now (corners_of trail.now.steps)) limit stopped) }
    ensures whole { (signs : List Bool) → AreSigns system.now.relations signs
        → IfOk result (λ verdict. IsWholeVerdict verdict) }
    ensures whole_stop { (signs : List Bool) → AreSigns system.now.relations signs
        → IfErr result (λ stopped. IsWholeStop stopped) }
{
    let Ok(prices) = list_prices(alloc, cells, marks, rule) else {
        return Err(out_of_memory(alloc));
    };
    let Ok(questions) = questions_of(alloc, cells) else {
        return Err(out_of_memory(alloc));
    };
    let Ok(hidden) = planned_hidden(alloc, cells, trail.steps.as_slice()) else {
        return Err(out_of_memory(alloc));
    };
    let Ok(mut scratch) = Vec::from_elem(alloc, 0, cells.len()) else {
        return Err(out_of_memory(alloc));
    };
    let Ok(signed) = SignedSystem::of(alloc, system) else {
        return Err(out_of_memory(alloc));
    };
    let task = Task {
        system: &signed,
        cells,
        prices: &prices,
        questions: &questions,
        limit,
    };
    repaired_verdict(alloc, &task, hidden, &mut scratch)
}

// Repairs a hidden set until it protects.
fn repaired_verdict<'a>(
    alloc: Global,
    task: &Task<'a, '_>,
    hidden: Hidden,
    scratch: &mut [i128],
) -> Result<Verdict<'a>, Stopped>
    requires scratch { length scratch.old ≡ task.now.system.now.cells }
    requires each { length hidden.flags ≡ task.now.system.now.cells }
    requires permitted { IsPermitted task.now.cells.now hidden.flags }
    ensures verdict { IfOk result (λ verdict. IsVerdict (case_of task.now) task.now.prices.now hidden.flags verdict) }
    ensures stopped { IfErr result (λ stopped. IsStopAsTold (case_of task.now) task.now.prices.now hidden.flags
        task.now.limit stopped) }
{
    let kept = questions_about(alloc, task.system, task.cells, &hidden);
    let mut progress = Progress {
        hidden,
        tables: Items::empty(alloc),
        reasons: Items::empty(alloc),
        kept,
    };
    let outcome = serve_all(alloc, task, scratch, &mut progress);
    let found = match outcome {
        Ok(found) => found,
        Err(fault) => {
            return Err(stop_with(alloc, fault, progress.reasons, Items::empty(alloc)));
        }
    };
    match found {
        Some(unprotected) => Ok(Verdict::Cannot {
            cell: unprotected.cell,
            side: unprotected.side,
            multipliers: unprotected.multipliers,
        }),
        None => narrowed_verdict(alloc, task, progress, scratch),
    }
}

// Shows again what needn't be hidden, where a hidden set serves all that is asked.
fn narrowed_verdict<'a>(
    alloc: Global,
    task: &Task<'a, '_>,
    repaired: Progress<World, Refuted>,
    scratch: &mut [i128],
) -> Result<Verdict<'a>, Stopped>
    requires scratch { length scratch.old ≡ task.now.system.now.cells }
    requires served { IsServedSet (case_of task.now) repaired.hidden.flags repaired.tables }
    ensures verdict { IfOk result (λ verdict. (planned : List Bool) → IsRepairedForAll task.now planned repaired
        → IsVerdict (case_of task.now) task.now.prices.now planned verdict) }
    ensures stopped { IfErr result (λ stopped. (planned : List Bool) → IsRepairedForAll task.now planned repaired
        → IsStopAsTold (case_of task.now) task.now.prices.now planned task.now.limit stopped) }
{
    let mut progress = repaired;
    let mut tried = Findings {
        trials: Trials {
            needs: Items::empty(alloc),
            shown: Items::empty(alloc),
        },
        reusable: Vec::new(alloc),
        last: no_last(alloc, task.questions.len()),
    };
    let outcome = try_all(alloc, task, &mut progress, &mut tried);
    if let Err(fault) = outcome {
        return Err(stop_with(alloc, fault, progress.reasons, tried.trials.shown));
    }
    Ok(verdict_of(task, progress, tried.trials.needs, scratch))
}

// The verdict that a hidden set protects, by the worlds that are kept for all questions.
fn verdict_of<'a>(
    task: &Task<'a, '_>,
    progress: Progress<World, Refuted>,
    needs: Items<Refuted>,
    scratch: &mut [i128],
) -> Verdict<'a>
    requires scratch { length scratch.old ≡ task.now.system.now.cells }
    requires served { IsServedSet (case_of task.now) progress.hidden.flags progress.tables }
    ensures { (planned : List Bool) → IsNarrowed task.now planned progress needs
        → IsVerdict (case_of task.now) task.now.prices.now planned result }
{
    match Protected::new(
        task.system.system(),
        task.cells,
        progress.hidden,
        progress.tables,
        scratch,
    ) {
        Ok(protected) => Verdict::Protected {
            protected,
            repairs: progress.reasons,
            needs,
        },
        Err(_) => unreachable!(),
    }
}
