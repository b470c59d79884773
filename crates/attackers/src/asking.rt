ghost use Rattle.std.specs.Prelude.{◌≡◌, true, length, IfOk, IfErr, IfNone, IfSome};
ghost use Rattle.sdc_base.specs.HiddenSets.{is_hidden};
ghost use Rattle.repair.specs.LevelQuestions.{HasCause};
ghost use Rattle.attackers.specs.KnownCells as known;
ghost use Rattle.attackers.specs.KnownCells.{IsAttack, target_of};
ghost use Rattle.attackers.specs.Extras.{Unguards};
ghost use Rattle.attackers.specs.ContributorTasks.{case_of, IsAnswerAgainst, NoneBreaksAgainst, IsCheapestAgainst};

use crate::attack::Attack;
use crate::contributor_task::ContributorTask;
use crate::known::{with_known, without_known};
use interval_audit::AskFault;
use kept_questions::{KeptAnswer, KeptQuestions};
use repair::{LevelQuestion, ask_level, find_cheapest};
use sdc_base::Memory;
use std::alloc::Global;
use worlds::{Multipliers, check_refutation};

/// Whether a hidden set, without what the contributor knows, takes the cell of an attack as far as its level: asked of
/// what is kept, or else of the walk.
pub(crate) fn ask_against(
    alloc: Global,
    task: &ContributorTask<'_>,
    flags: &[bool],
    attack: Attack,
    kept: &mut Option<KeptQuestions>,
) -> Result<KeptAnswer, AskFault>
    requires each { length flags.now ≡ task.now.system.now.cells }
    requires is_attack { IsAttack task.now.cells.now task.now.soles.now attack }
    requires hidden { is_hidden flags.now attack.cell ≡ true }
    ensures ok { IfOk result (IsAnswerAgainst (case_of task.now) task.now.soles.now flags.now attack) }
    ensures err { IfErr result (λ fault. HasCause task.now.system.now task.now.cells.now
        (known.without_known task.now.soles.now attack.row flags.now) (target_of attack) task.now.limit fault) }
{
    let left = without_known(alloc, task.soles, attack.row, flags)?;
    let question = LevelQuestion {
        system: task.system,
        cells: task.cells,
        hidden: &left,
        asked: (attack.cell, attack.side),
        limit: task.limit,
    };
    ask_level(alloc, &question, kept)
}

/// The cheapest cell that would break the refutation of an attack, of those that the contributor doesn't know.
pub(crate) fn subject_against(
    alloc: Global,
    task: &ContributorTask<'_>,
    flags: &[bool],
    attack: Attack,
    multipliers: &Multipliers,
) -> Result<Option<u32>, Memory>
    requires each { length flags.now ≡ task.now.system.now.cells }
    requires is_attack { IsAttack task.now.cells.now task.now.soles.now attack }
    requires refutes { Unguards (case_of task.now) task.now.soles.now flags.now attack multipliers.now }
    ensures none { IfOk result (λ subject. IfNone subject
        (NoneBreaksAgainst task.now flags.now attack multipliers.now)) }
    ensures cheapest { IfOk result (λ subject. IfSome subject
        (IsCheapestAgainst task.now flags.now attack multipliers.now)) }
{
    let left = without_known(alloc, task.soles, attack.row, flags)?;
    let closed = with_known(alloc, task.soles, attack.row, flags)?;
    let mut counts = Vec::from_elem(alloc, 0, task.cells.len())?;
    match check_refutation(
        task.system.system(),
        task.cells,
        &left,
        attack.cell,
        attack.side,
        multipliers,
        &mut counts,
    ) {
        Ok(()) => Ok(find_cheapest(task.cells, closed.flags.as_slice(), task.prices, &counts)),
        Err(_) => unreachable!(),
    }
}
