ghost use Rattle.std.specs.Prelude.{◌≡◌, ◌+◌, ◌<◌, [], List, Bool, length, All, IfOk, IfErr, OnErr};
ghost use Rattle.sdc_base.specs.Worlds.{level};
ghost use Rattle.sdc_base.specs.declared.cell.Kind.TheVariants.{Primary as PrimaryKind};
ghost use Rattle.repair.specs.LevelQuestions.{IsLevelQuestion};
ghost use Rattle.repair.specs.HidingOrder.{IsOfKind};
ghost use Rattle.repair.specs.Tasks.{case_of};
ghost use Rattle.repair.specs.KeptWorlds.{HasModestLevels, AreServedBefore, IsStopped};
ghost use Rattle.repair.specs.Stops.{IsQuestion};
ghost use Rattle.repair.specs.QuestionSteps.{IsReadyForRepair, IsRepairedUpTo, IsRepairProgress, IsStep, IsUnprotected, AreServedOrUnprotected, IsHalted};

use crate::asking::{LevelQuestion, ask_level, widen_questions};
use crate::cheapest::subject_of;
use crate::progress::Progress;
use crate::step::Step;
use crate::task::Task;
use crate::unprotected_cell::UnprotectedCell;
use interval_audit::{AskFault, Question};
use kept_questions::KeptAnswer;
use sdc_base::{Cell, Memory, Side};
use std::alloc::Global;
use worlds::{Multipliers, Refuted, World};

// Asks all questions in their order, hiding cells on the way: a cell that can't be protected, if there is one.
pub(crate) fn serve_all(
    alloc: Global,
    task: &Task<'_, '_>,
    scratch: &mut [i128],
    progress: &mut Progress<World, Refuted>,
) -> Result<Option<UnprotectedCell>, AskFault>
    requires ready { IsReadyForRepair task.now scratch.old progress.old }
    requires no_worlds { progress.old.tables ≡ [] }
    requires no_repairs { progress.old.reasons ≡ [] }
    ensures ready { IsReadyForRepair task.now scratch.new progress.new }
    ensures ok { IfOk result (λ found. AreServedOrUnprotected (case_of task.now) (length task.now.questions.now)
        progress.new.hidden.flags progress.new.tables found) }
    ensures repaired { IfOk result (λ _. IsRepairedUpTo task.now (length task.now.questions.now)
        progress.old.hidden.flags progress.new) }
    ensures err { IfErr result (λ fault. IsHalted (case_of task.now) task.now.prices.now progress.old.hidden.flags
        progress.new.hidden.flags progress.new.reasons task.now.limit fault) }
{
    'places: for place in 0..task.questions.len() {
        let found = serve(alloc, task, place, scratch, progress)?;
        if let Some(unprotected) = found {
            return Ok(Some(unprotected));
        }
    }
    Ok(None)
}

// Asks the question at a place until a world serves it, hiding a cell each time that none does.
fn serve(
    alloc: Global,
    task: &Task<'_, '_>,
    place: usize,
    scratch: &mut [i128],
    progress: &mut Progress<World, Refuted>,
) -> Result<Option<UnprotectedCell>, AskFault>
    requires place { place < length task.now.questions.now }
    requires ready { IsReadyForRepair task.now scratch.old progress.old }
    requires served { AreServedBefore (case_of task.now) progress.old.hidden.flags place progress.old.tables }
    ensures ready { IsReadyForRepair task.now scratch.new progress.new }
    ensures repaired { IsRepairProgress task.now place progress.old progress.new }
    ensures ok { IfOk result (λ found. AreServedOrUnprotected (case_of task.now) (place + 1) progress.new.hidden.flags
        progress.new.tables found) }
    ensures err { IfErr result (λ fault. IsQuestion (case_of task.now) progress.new.hidden.flags task.now.limit fault
        place) }
{
    'repairs: loop {
        let step = ask_once(alloc, task, place, scratch, progress)?;
        match step {
            Step::Served => return Ok(None),
            Step::Widened => widen_questions(
                alloc,
                task.system,
                task.cells,
                &progress.hidden,
                &mut progress.kept,
            ),
            Step::Cannot(unprotected) => return Ok(Some(unprotected)),
        }
    }
}

// Asks the question at a place once: keeps its world, or else hides a cell, or finds that its cell can't be protected.
fn ask_once(
    alloc: Global,
    task: &Task<'_, '_>,
    place: usize,
    scratch: &mut [i128],
    progress: &mut Progress<World, Refuted>,
) -> Result<Step<UnprotectedCell>, AskFault>
    requires place { place < length task.now.questions.now }
    requires ready { IsReadyForRepair task.now scratch.old progress.old }
    requires served { AreServedBefore (case_of task.now) progress.old.hidden.flags place progress.old.tables }
    ensures ready { IsReadyForRepair task.now scratch.new progress.new }
    ensures repaired { IsRepairProgress task.now place progress.old progress.new }
    ensures ok { IfOk result (λ step. IsStep (case_of task.now) place progress.old.hidden.flags
        progress.new.hidden.flags progress.new.tables step) }
    ensures err { IfErr result (λ fault. IsQuestion (case_of task.now) progress.new.hidden.flags task.now.limit fault
        place) }
{
    let asked = task.questions[place];
    let question = LevelQuestion {
        system: task.system,
        cells: task.cells,
        hidden: &progress.hidden,
        asked,
        limit: task.limit,
    };
    let answer = ask_level(alloc, &question, &mut progress.kept)?;
    match answer {
        KeptAnswer::Reaches(world) => match progress.keep(world) {
            Ok(()) => Ok(Step::Served),
            Err(_) => Err(AskFault::Memory),
        },
        KeptAnswer::Stops(multipliers) => {
            match hide_one(task, asked, place, multipliers, scratch, progress) {
                Ok(step) => Ok(step),
                Err(_) => Err(AskFault::Memory),
            }
        }
    }
}

// Hides the cheapest cell that would break the multipliers of a question, or finds that there is none.
fn hide_one(
    task: &Task<'_, '_>,
    asked: (u32, Side),
    place: usize,
    multipliers: Multipliers,
    scratch: &mut [i128],
    progress: &mut Progress<World, Refuted>,
) -> Result<Step<UnprotectedCell>, Memory>
    requires ready { IsReadyForRepair task.now scratch.old progress.old }
    requires served { AreServedBefore (case_of task.now) progress.old.hidden.flags place progress.old.tables }
    requires stopped { IsStopped (case_of task.now) progress.old.hidden.flags place asked multipliers }
    ensures ready { IsReadyForRepair task.now scratch.new progress.new }
    ensures repaired { IsRepairProgress task.now place progress.old progress.new }
    ensures ok { IfOk result (λ step. IsStep (case_of task.now) place progress.old.hidden.flags
        progress.new.hidden.flags progress.new.tables step) }
    ensures err { OnErr result (progress.new.hidden.flags ≡ progress.old.hidden.flags) }
{
    let subject = subject_of(task, &progress.hidden, asked, &multipliers, scratch);
    match subject {
        None => Ok(Step::Cannot(UnprotectedCell {
            cell: asked.0,
            side: asked.1,
            multipliers,
        })),
        Some(subject) => {
            let repair = Refuted {
                subject,
                cell: asked.0,
                side: asked.1,
                multipliers,
            };
            progress.hide_for(subject, repair)?;
            Ok(Step::Widened)
        }
    }
}

/// The question whether a primary cell can be moved to a side by its level, which is at most `2^110` units.
///
/// The cell is asked about by its number from 0 among these cells. Nothing is refused; it takes one look and no memory.
/// Levels are those of the handbook's feasibility interval.
pub fn level_question(cells: &[Cell], asked: (u32, Side)) -> Question
    requires primary { IsOfKind cells.now asked.0 PrimaryKind }
    requires modest { All HasModestLevels cells.now }
    ensures { IsLevelQuestion cells.now asked result }
{
    let target = level_of(&cells[asked.0 as usize], asked.1);
    Question {
        cell: asked.0,
        side: asked.1,
        target,
    }
}

// How far a cell must be open to a side.
fn level_of(cell: &Cell, side: Side) -> i128
    ensures { result ≡ level side cell.now }
{
    match side {
        Side::Above => cell.up,
        Side::Below => cell.down,
    }
}
