ghost use Rattle.std.specs.Prelude.{◌≡◌, ◌<◌, ◌+◌, Some, slice_get, length, IfOk, IfErr, OnOk, OnErr};
ghost use Rattle.std.specs.List.{list_any};
ghost use Rattle.sdc_base.specs.declared.cell.Cell.{Cell as AnyCell};
ghost use Rattle.sdc_base.specs.declared.cell.Kind.TheVariants.{Primary as PrimaryKind};
ghost use Rattle.worlds.specs.ProtectFaults.{asked_of};
ghost use Rattle.repair.specs.HidingOrder.{IsOfKind, StandsAt, ProtectsBefore};
ghost use Rattle.repair.specs.Tasks.{case_of};
ghost use Rattle.repair.specs.Stops.{IsQuestion};
ghost use Rattle.repair.specs.CellTrials.{AreKept, AreReusableTables, AreLast, ProtectsBeforeOr, HasFault};
ghost use Rattle.repair.specs.Attempts.{AreAtHand, StayTrialAnswers};
ghost use Rattle.repair.specs.CellTrials as spec;

use crate::asking::{LevelQuestion, ask_kept, ask_walk};
use crate::attempt::Attempt;
use crate::last_worlds::{has_fitting, keep_last};
use interval_audit::AskFault;
use kept_questions::{KeptAnswer, KeptQuestions};
use sdc_base::{Cell, Memory, Side, is_hidden};
use std::alloc::Global;
use worlds::{Refuted, World, reaches};

/// A world at hand beside the kept ones: the answer of the question at a place while some cell was tried.
#[derive(Drop)]
pub(crate) struct ReusableTable {
    pub(crate) place: usize,
    pub(crate) world: World,
}

// The first question, with its multipliers, that no world serves with the cell shown, if there is one. Only what neither
// its kept world nor its last serves is asked, and the answers are kept.
pub(crate) fn first_need(
    alloc: Global,
    attempt: &Attempt<'_, '_, '_>,
    reusable: &mut Vec<ReusableTable>,
    last: &mut Vec<Option<World>>,
    kept: &mut Option<KeptQuestions>,
) -> Result<Option<Refuted>, AskFault>
    requires at_hand { AreAtHand attempt.now.task.now attempt.now.worlds.now reusable.old.items last.old.items }
    ensures last { AreLast (case_of attempt.now.task.now) last.new.items }
    ensures reusable { IfOk result (λ _. AreReusableTables (case_of attempt.now.task.now) reusable.new.items) }
    ensures answers { IfOk result (λ _. StayTrialAnswers (case_of attempt.now.task.now) (attempt.now.cell + 1)
        attempt.now.hidden.now.flags reusable.old.items reusable.new.items) }
    ensures ok { IfOk result (λ need. ProtectsBeforeOr (case_of attempt.now.task.now) attempt.now.hidden.now.flags
        attempt.now.cell (length attempt.now.task.now.questions.now) need) }
    ensures err { IfErr result (λ fault. HasFault (case_of attempt.now.task.now) attempt.now.hidden.now.flags
        attempt.now.task.now.limit fault) }
{
    'places: for place in 0..attempt.task.questions.len() {
        let need = need_at(alloc, attempt, place, reusable, last, kept)?;
        if let Some(need) = need {
            return Ok(Some(need));
        }
    }
    Ok(None)
}

// The multipliers of the question at a place, where no world serves it with the cell shown.
fn need_at(
    alloc: Global,
    attempt: &Attempt<'_, '_, '_>,
    place: usize,
    reusable: &mut Vec<ReusableTable>,
    last: &mut Vec<Option<World>>,
    kept: &mut Option<KeptQuestions>,
) -> Result<Option<Refuted>, AskFault>
    requires place { place < length attempt.now.task.now.questions.now }
    requires count { length attempt.now.worlds.now ≡ length attempt.now.task.now.questions.now }
    requires before { ProtectsBefore (case_of attempt.now.task.now) attempt.now.hidden.now.flags place }
    requires at_hand { AreAtHand attempt.now.task.now attempt.now.worlds.now reusable.old.items last.old.items }
    ensures last { AreLast (case_of attempt.now.task.now) last.new.items }
    ensures reusable { IfOk result (λ _. AreReusableTables (case_of attempt.now.task.now) reusable.new.items) }
    ensures answers { IfOk result (λ _. StayTrialAnswers (case_of attempt.now.task.now) (attempt.now.cell + 1)
        attempt.now.hidden.now.flags reusable.old.items reusable.new.items) }
    ensures ok { IfOk result (λ need. ProtectsBeforeOr (case_of attempt.now.task.now) attempt.now.hidden.now.flags
        attempt.now.cell (place + 1) need) }
    ensures err { IfErr result (λ fault. IsQuestion (case_of attempt.now.task.now) attempt.now.hidden.now.flags
        attempt.now.task.now.limit fault place) }
{
    let task = attempt.task;
    let worlds = attempt.worlds;
    let flags = attempt.hidden.flags.as_slice();
    if fits(&worlds[place], flags) {
        return Ok(None);
    }
    if has_fitting(last.as_slice(), place, flags) {
        return Ok(None);
    }
    let asked = task.questions[place];
    let question = LevelQuestion {
        system: task.system,
        cells: task.cells,
        hidden: attempt.hidden,
        asked,
        limit: task.limit,
    };
    let Some(answer) = ask_kept(alloc, &question, kept) else {
        return walked_refusal(alloc, attempt, place, asked, reusable);
    };
    match answer {
        KeptAnswer::Reaches(world) => {
            keep_last(last, place, world);
            Ok(None)
        }
        KeptAnswer::Stops(multipliers) => Ok(Some(Refuted {
            subject: attempt.cell,
            cell: asked.0,
            side: asked.1,
            multipliers,
        })),
    }
}

// The same by the walk, where no world at hand serves the question.
fn walked_refusal(
    alloc: Global,
    attempt: &Attempt<'_, '_, '_>,
    place: usize,
    asked: (u32, Side),
    reusable: &mut Vec<ReusableTable>,
) -> Result<Option<Refuted>, AskFault>
    requires stands { StandsAt attempt.now.task.now.cells.now asked place }
    requires before { ProtectsBefore (case_of attempt.now.task.now) attempt.now.hidden.now.flags place }
    requires kept { AreKept (case_of attempt.now.task.now) (asked_of 0 attempt.now.task.now.cells.now)
        attempt.now.worlds.now }
    requires reusable { AreReusableTables (case_of attempt.now.task.now) reusable.old.items }
    ensures reusable { IfOk result (λ _. AreReusableTables (case_of attempt.now.task.now) reusable.new.items) }
    ensures answers { IfOk result (λ _. StayTrialAnswers (case_of attempt.now.task.now) (attempt.now.cell + 1)
        attempt.now.hidden.now.flags reusable.old.items reusable.new.items) }
    ensures ok { IfOk result (λ need. ProtectsBeforeOr (case_of attempt.now.task.now) attempt.now.hidden.now.flags
        attempt.now.cell (place + 1) need) }
    ensures err { IfErr result (λ fault. IsQuestion (case_of attempt.now.task.now) attempt.now.hidden.now.flags
        attempt.now.task.now.limit fault place) }
{
    let task = attempt.task;
    let flags = attempt.hidden.flags.as_slice();
    if is_at_hand(
        task.cells,
        asked,
        flags,
        attempt.worlds,
        reusable.as_slice(),
    ) {
        return Ok(None);
    }
    let question = LevelQuestion {
        system: task.system,
        cells: task.cells,
        hidden: attempt.hidden,
        asked,
        limit: task.limit,
    };
    let answer = ask_walk(alloc, &question)?;
    match answer {
        KeptAnswer::Reaches(world) => {
            let Ok(()) = keep_spare(
                reusable,
                ReusableTable { place, world },
                task.questions.len(),
            ) else {
                return Err(AskFault::Memory);
            };
            Ok(None)
        }
        KeptAnswer::Stops(multipliers) => Ok(Some(Refuted {
            subject: attempt.cell,
            cell: asked.0,
            side: asked.1,
            multipliers,
        })),
    }
}

// Whether a world at hand, one that is kept or a spare one, takes a cell to its level to a side with hidden cells alone.
fn is_at_hand(
    cells: &[Cell],
    asked: (u32, Side),
    flags: &[bool],
    worlds: &[World],
    reusable: &[ReusableTable],
) -> bool
    requires primary { IsOfKind cells.now asked.0 PrimaryKind }
    ensures { (cell : AnyCell) → slice_get cells.now asked.0 ≡ Some cell
        → result ≡ spec.is_at_hand cell asked flags.now worlds.now reusable.now }
{
    let cell = &cells[asked.0 as usize];
    is_served(cell, asked, flags, worlds) || is_served_by_spare(cell, asked, flags, reusable)
}

// Whether one of these worlds takes a cell to its level to a side with hidden cells alone.
fn is_served(cell: &Cell, asked: (u32, Side), flags: &[bool], worlds: &[World]) -> bool
    ensures { result ≡ list_any (spec.serves_beside cell.now asked flags.now) worlds.now }
{
    worlds
        .iter()
        .any(|world| serves_beside(cell, asked, flags, world))
}

// The same of reusable tables.
fn is_served_by_spare(
    cell: &Cell,
    asked: (u32, Side),
    flags: &[bool],
    reusable: &[ReusableTable],
) -> bool
    ensures { result ≡ list_any (λ spare. spec.serves_beside cell.now asked flags.now spare.world) reusable.now }
{
    reusable
        .iter()
        .any(|spare| serves_beside(cell, asked, flags, &spare.world))
}

// Whether a world takes a cell to its level to a side with hidden cells alone.
fn serves_beside(cell: &Cell, asked: (u32, Side), flags: &[bool], world: &World) -> bool
    ensures { result ≡ spec.serves_beside cell.now asked flags.now world.now }
{
    reaches(cell, asked.1, asked.0, world) && fits(world, flags)
}

// Keeps a spare, where there aren't as many already as there may be.
fn keep_spare(
    reusable: &mut Vec<ReusableTable>,
    spare: ReusableTable,
    most: usize,
) -> Result<(), Memory>
    ensures ok { OnOk result (reusable.new.items ≡ spec.spares_with reusable.old.items most spare) }
    ensures err { OnErr result (reusable.new.items ≡ reusable.old.items) }
{
    if reusable.len() < most {
        reusable.push(spare)?;
    }
    Ok(())
}

// Whether a world moves only hidden cells.
pub(crate) fn fits(world: &World, flags: &[bool]) -> bool
    ensures { result ≡ spec.fits flags.now world.now }
{
    world
        .moves
        .as_slice()
        .iter()
        .all(|one| is_hidden(flags, one.cell as usize))
}
