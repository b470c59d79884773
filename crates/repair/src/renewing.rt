ghost use Rattle.std.specs.Prelude.{◌≡◌, ◌<◌, ◌+◌, length, filter, take, IfErr, OnOk};
ghost use Rattle.worlds.specs.ProtectFaults.{asked_of};
ghost use Rattle.repair.specs.HidingOrder.{ProtectsBefore};
ghost use Rattle.repair.specs.Tasks.{case_of};
ghost use Rattle.repair.specs.KeptWorlds.{AreServed, AreServedBefore};
ghost use Rattle.repair.specs.CellTrials.{AreKept, AreReusableTables, HasFault};
ghost use Rattle.repair.specs.CellTrials as spec;
ghost use Rattle.repair.specs.Attempts.{IsTriedSet, StayOnWay, StayOnWayWith};

use crate::asking::{LevelQuestion, ask_level};
use crate::task::Task;
use crate::trial::{ReusableTable, fits};
use interval_audit::AskFault;
use kept_questions::{KeptAnswer, KeptQuestions};
use sdc_base::{Hidden, Items};
use std::alloc::Global;
use worlds::World;

// Keeps, for each question whose kept world moves a cell that is shown, an answer of its own that moves none: a spare of its
// place, or else a new one.
pub(crate) fn renew_all(
    alloc: Global,
    task: &Task<'_, '_>,
    hidden: &Hidden,
    worlds: &mut Items<World>,
    reusable: &mut Vec<ReusableTable>,
    kept: &mut Option<KeptQuestions>,
) -> Result<(), AskFault>
    requires set { IsTriedSet (case_of task.now) hidden.now.flags worlds.old }
    requires reusable { AreReusableTables (case_of task.now) reusable.old.items }
    requires protecting { ProtectsBefore (case_of task.now) hidden.now.flags (length task.now.questions.now) }
    ensures served { OnOk result (AreServed (case_of task.now) hidden.now.flags (asked_of 0 task.now.cells.now)
        worlds.new) }
    ensures answers { OnOk result (StayOnWayWith task.now hidden.now.flags reusable.old.items worlds.old worlds.new) }
    ensures err { IfErr result (λ fault. HasFault (case_of task.now) hidden.now.flags task.now.limit fault) }
{
    let flags = hidden.flags.as_slice();
    take_over(task, flags, worlds, reusable);
    'places: for place in 0..task.questions.len() {
        renew_question(alloc, task, place, hidden, worlds, kept)?;
    }
    Ok(())
}

// Keeps a spare that fits for its question, where the kept world doesn't.
fn take_over(
    task: &Task<'_, '_>,
    flags: &[bool],
    worlds: &mut Items<World>,
    reusable: &mut Vec<ReusableTable>,
)
    requires kept { AreKept (case_of task.now) (asked_of 0 task.now.cells.now) worlds.old }
    requires reusable { AreReusableTables (case_of task.now) reusable.old.items }
    ensures kept { AreKept (case_of task.now) (asked_of 0 task.now.cells.now) worlds.new }
    ensures answers { StayOnWayWith task.now flags.now reusable.old.items worlds.old worlds.new }
{
    'reusable: while let Some(spare) = reusable.pop() {
        offer(flags, worlds, spare);
    }
}

// Puts a spare in its place, where it fits and the world there doesn't.
fn offer(flags: &[bool], worlds: &mut Items<World>, spare: ReusableTable)
    requires { spare.place < length worlds.old }
    ensures { worlds.new ≡ spec.offered flags.now worlds.old spare }
{
    if !fits(&spare.world, flags) {
        return;
    }
    let kept = worlds.as_slice();
    if fits(&kept[spare.place], flags) {
        return;
    }
    worlds.set(spare.place, spare.world);
}

// Asks the question at a place again, where its kept world moves a cell that is shown, and keeps the answer.
fn renew_question(
    alloc: Global,
    task: &Task<'_, '_>,
    place: usize,
    hidden: &Hidden,
    worlds: &mut Items<World>,
    kept: &mut Option<KeptQuestions>,
) -> Result<(), AskFault>
    requires place { place < length task.now.questions.now }
    requires set { IsTriedSet (case_of task.now) hidden.now.flags worlds.old }
    requires protecting { ProtectsBefore (case_of task.now) hidden.now.flags (length task.now.questions.now) }
    requires count { length worlds.old ≡ length task.now.questions.now }
    requires served { AreServedBefore (case_of task.now) hidden.now.flags place (take place worlds.old) }
    ensures kept { OnOk result (AreKept (case_of task.now) (asked_of 0 task.now.cells.now) worlds.new) }
    ensures served { OnOk result (AreServedBefore (case_of task.now) hidden.now.flags (place + 1)
        (take (place + 1) worlds.new)) }
    ensures answers { OnOk result (StayOnWay task.now hidden.now.flags worlds.old worlds.new) }
    ensures err { IfErr result (λ fault. HasFault (case_of task.now) hidden.now.flags task.now.limit fault) }
{
    let own = worlds.as_slice();
    if fits(&own[place], hidden.flags.as_slice()) {
        return Ok(());
    }
    let question = LevelQuestion {
        system: task.system,
        cells: task.cells,
        hidden,
        asked: task.questions[place],
        limit: task.limit,
    };
    let answer = ask_level(alloc, &question, kept)?;
    match answer {
        KeptAnswer::Reaches(world) => {
            worlds.set(place, world);
            Ok(())
        }
        KeptAnswer::Stops(_multipliers) => unreachable!(),
    }
}

// Drops the reusable tables that move a cell that is shown.
pub(crate) fn drop_unfit(reusable: &mut Vec<ReusableTable>, flags: &[bool])
    ensures { reusable.new.items ≡ filter (λ spare. spec.fits flags.now spare.world) reusable.old.items }
{
    reusable.retain(|spare| fits(&spare.world, flags));
}
