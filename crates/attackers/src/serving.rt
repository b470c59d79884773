ghost use Rattle.std.specs.Prelude.{◌≡◌, ◌+◌, ◌<◌, [], List, Bool, true, Some, length, slice_get, IfOk, IfErr, OnErr};
ghost use Rattle.sdc_base.specs.HiddenSets.{is_hidden, IsPermitted};
ghost use Rattle.repair.specs.LevelQuestions.{HasCause};
ghost use Rattle.attackers.specs.KnownCells.{without_known, target_of, IsAttack};
ghost use Rattle.attackers.specs.ContributorTasks.{case_of, IsAnswerAgainst, IsReadySet, AreHeldBefore, IsExtendedUpTo, IsExtensionProgress, IsRefutedAt, IsStep, AreHeldOr, IsAskedOf, IsHalted};

use crate::asking::{ask_against, subject_against};
use crate::attack::{Attack, UnguardedAttack};
use crate::contributor_task::ContributorTask;
use crate::lines::is_served;
use certificate::{ExtraNeed, WorldLine};
use interval_audit::AskFault;
use kept_questions::{KeptAnswer, KeptQuestions};
use repair::{Progress, Step, widen_questions};
use sdc_base::Memory;
use std::alloc::Global;
use worlds::Multipliers;

/// Why a question has no answer, and whose row it was about.
#[derive(Drop)]
pub(crate) struct RowFault {
    pub(crate) fault: AskFault,
    pub(crate) row: u32,
}

// Guards against all attacks in their order, hiding extra cells on the way: one that can't be met, if there is one.
pub(crate) fn guard_all(
    alloc: Global,
    task: &ContributorTask<'_>,
    progress: &mut Progress<WorldLine, ExtraNeed>,
) -> Result<Option<UnguardedAttack>, RowFault>
    requires ready { IsReadySet task.now progress.old.hidden.flags }
    requires no_guards { progress.old.tables ≡ [] }
    requires no_extras { progress.old.reasons ≡ [] }
    ensures ready { IsReadySet task.now progress.new.hidden.flags }
    ensures ok { IfOk result (λ found. AreHeldOr task.now (length task.now.attacks.now) progress.new found) }
    ensures extended { IfOk result (λ _. IsExtendedUpTo task.now (length task.now.attacks.now)
        progress.old.hidden.flags progress.new) }
    ensures err { IfErr result
        (λ row_fault. IsHalted task.now progress.old.hidden.flags progress.new row_fault.fault row_fault.row) }
{
    'places: for place in 0..task.attacks.len() {
        let found = guard_at(alloc, task, place, progress)?;
        if let Some(one) = found {
            return Ok(Some(one));
        }
    }
    Ok(None)
}

// Guards against the attack at a place, hiding an extra cell each time that none serves.
fn guard_at(
    alloc: Global,
    task: &ContributorTask<'_>,
    place: usize,
    progress: &mut Progress<WorldLine, ExtraNeed>,
) -> Result<Option<UnguardedAttack>, RowFault>
    requires place { place < length task.now.attacks.now }
    requires ready { IsReadySet task.now progress.old.hidden.flags }
    requires held { AreHeldBefore task.now place progress.old }
    ensures ready { IsReadySet task.now progress.new.hidden.flags }
    ensures extended { IsExtensionProgress task.now place progress.old progress.new }
    ensures ok { IfOk result (λ found. AreHeldOr task.now (place + 1) progress.new found) }
    ensures err { IfErr result
        (λ row_fault. IsAskedOf task.now progress.new.hidden.flags row_fault.fault row_fault.row place) }
{
    'extras: loop {
        let step = guard_once(alloc, task, place, progress)?;
        match step {
            Step::Served => return Ok(None),
            Step::Widened => widen_questions(
                alloc,
                task.system,
                task.cells,
                &progress.hidden,
                &mut progress.kept,
            ),
            Step::Cannot(one) => return Ok(Some(one)),
        }
    }
}

// Asks about the attack at a place once, unless a kept world serves: keeps a world, or else hides an extra cell, or
// finds that the full set doesn't guard against it.
fn guard_once(
    alloc: Global,
    task: &ContributorTask<'_>,
    place: usize,
    progress: &mut Progress<WorldLine, ExtraNeed>,
) -> Result<Step<UnguardedAttack>, RowFault>
    requires place { place < length task.now.attacks.now }
    requires ready { IsReadySet task.now progress.old.hidden.flags }
    requires held { AreHeldBefore task.now place progress.old }
    ensures ready { IsReadySet task.now progress.new.hidden.flags }
    ensures extended { IsExtensionProgress task.now place progress.old progress.new }
    ensures ok { IfOk result (λ step. IsStep task.now place progress.old progress.new step) }
    ensures err { IfErr result
        (λ row_fault. IsAskedOf task.now progress.new.hidden.flags row_fault.fault row_fault.row place) }
{
    let attack = attack_at(task, place);
    if is_served(task.cells, task.soles, attack, progress.tables.as_slice()) {
        return Ok(Step::Served);
    }
    let answer = answer_against(
        alloc,
        task,
        progress.hidden.flags.as_slice(),
        attack,
        &mut progress.kept,
    )?;
    match step_by(alloc, task, attack, place, answer, progress) {
        Ok(step) => Ok(step),
        Err(_) => Err(RowFault {
            fault: AskFault::Memory,
            row: attack.row,
        }),
    }
}

/// The attack at a place.
pub(crate) fn attack_at(task: &ContributorTask<'_>, place: usize) -> Attack
    requires { place < length task.now.attacks.now }
    ensures stands { slice_get task.now.attacks.now place ≡ Some result }
    ensures is_attack { IsAttack task.now.cells.now task.now.soles.now result }
    ensures inside { result.cell < length task.now.cells.now }
    ensures hidden { (flags : List Bool) → IsPermitted task.now.cells.now flags → is_hidden flags result.cell ≡ true }
{
    task.attacks[place]
}

/// What asking about an attack comes to.
pub(crate) fn answer_against(
    alloc: Global,
    task: &ContributorTask<'_>,
    flags: &[bool],
    attack: Attack,
    kept: &mut Option<KeptQuestions>,
) -> Result<KeptAnswer, RowFault>
    requires each { length flags.now ≡ task.now.system.now.cells }
    requires is_attack { IsAttack task.now.cells.now task.now.soles.now attack }
    requires hidden { is_hidden flags.now attack.cell ≡ true }
    ensures ok { IfOk result (IsAnswerAgainst (case_of task.now) task.now.soles.now flags.now attack) }
    ensures err { IfErr result (λ row_fault. HasCause task.now.system.now task.now.cells.now
        (without_known task.now.soles.now attack.row flags.now) (target_of attack) task.now.limit row_fault.fault) }
    ensures row { IfErr result (λ row_fault. row_fault.row ≡ attack.row) }
{
    match ask_against(alloc, task, flags, attack, kept) {
        Ok(answer) => Ok(answer),
        Err(fault) => Err(RowFault {
            fault,
            row: attack.row,
        }),
    }
}

// What the answer about the attack at a place comes to: its world is kept, or else a cell is hidden, or the full set
// doesn't guard against it.
fn step_by(
    alloc: Global,
    task: &ContributorTask<'_>,
    attack: Attack,
    place: usize,
    answer: KeptAnswer,
    progress: &mut Progress<WorldLine, ExtraNeed>,
) -> Result<Step<UnguardedAttack>, Memory>
    requires ready { IsReadySet task.now progress.old.hidden.flags }
    requires held { AreHeldBefore task.now place progress.old }
    requires stands { slice_get task.now.attacks.now place ≡ Some attack }
    requires answered { IsAnswerAgainst (case_of task.now) task.now.soles.now progress.old.hidden.flags attack answer }
    ensures ready { IsReadySet task.now progress.new.hidden.flags }
    ensures extended { IsExtensionProgress task.now place progress.old progress.new }
    ensures ok { IfOk result (λ step. IsStep task.now place progress.old progress.new step) }
    ensures err { OnErr result (progress.new.hidden.flags ≡ progress.old.hidden.flags) }
{
    match answer {
        KeptAnswer::Reaches(world) => {
            progress.keep(WorldLine {
                cell: attack.cell,
                side: attack.side,
                world,
            })?;
            Ok(Step::Served)
        }
        KeptAnswer::Stops(multipliers) => {
            extend(alloc, task, attack, place, multipliers, progress)
        }
    }
}

// Hides the cheapest cell that would break the multipliers of an attack, or finds that there is none.
fn extend(
    alloc: Global,
    task: &ContributorTask<'_>,
    attack: Attack,
    place: usize,
    multipliers: Multipliers,
    progress: &mut Progress<WorldLine, ExtraNeed>,
) -> Result<Step<UnguardedAttack>, Memory>
    requires ready { IsReadySet task.now progress.old.hidden.flags }
    requires held { AreHeldBefore task.now place progress.old }
    requires refuted { IsRefutedAt (case_of task.now) task.now.soles.now task.now.attacks.now
        progress.old.hidden.flags place attack multipliers }
    ensures ready { IsReadySet task.now progress.new.hidden.flags }
    ensures extended { IsExtensionProgress task.now place progress.old progress.new }
    ensures ok { IfOk result (λ step. IsStep task.now place progress.old progress.new step) }
    ensures err { OnErr result (progress.new.hidden.flags ≡ progress.old.hidden.flags) }
{
    let flags = progress.hidden.flags.as_slice();
    let found = subject_against(alloc, task, flags, attack, &multipliers)?;
    match found {
        None => Ok(Step::Cannot(UnguardedAttack {
            attack,
            multipliers,
        })),
        Some(subject) => {
            let extra = ExtraNeed {
                subject,
                row: attack.row,
                cell: attack.cell,
                side: attack.side,
                multipliers,
            };
            progress.hide_for(subject, extra)?;
            Ok(Step::Widened)
        }
    }
}
