ghost use Rattle.std.specs.Prelude.{◌<◌, length, take, IfOk, IfErr};
ghost use Rattle.sdc_base.specs.HiddenSets.{hide};
ghost use Rattle.attackers.specs.ContributorTasks.{AreGuardsOf, IsAskedOf};
ghost use Rattle.attackers.specs.Dropping.{renewed_guards, IsRenewal, IsTrial, HasFaultOf};

use crate::attempt::Attempt;
use crate::lines::{is_served, is_still_served};
use crate::serving::{RowFault, answer_against, attack_at};
use certificate::{ExtraNeed, WorldLine};
use interval_audit::AskFault;
use kept_questions::{KeptAnswer, KeptQuestions};
use sdc_base::Items;
use std::alloc::Global;

/// What trying to show a cell comes to.
#[derive(Drop)]
pub(crate) enum Trial {
    /// With these new worlds all attacks are met.
    Renewed(Items<WorldLine>),
    /// An attack isn't.
    Refused(ExtraNeed),
}

// Asks again, with the cell shown, about the attacks against which no kept world serves that doesn't move it.
pub(crate) fn ask_anew(
    alloc: Global,
    attempt: &Attempt<'_, '_>,
    kept: &mut Option<KeptQuestions>,
) -> Result<Trial, RowFault>
    requires holds { AreGuardsOf attempt.now.task.now (hide attempt.now.hidden.now.flags attempt.now.cell)
        attempt.now.task.now.attacks.now attempt.now.guards.now }
    ensures ok { IfOk result (IsTrial attempt.now.task.now attempt.now.hidden.now.flags attempt.now.cell
        attempt.now.guards.now) }
    ensures err { IfErr result
        (λ row_fault. HasFaultOf attempt.now.task.now attempt.now.hidden.now.flags row_fault.fault row_fault.row) }
{
    let mut news = Items::empty(alloc);
    'places: for place in 0..attempt.task.attacks.len() {
        let renewal = renew_attack(alloc, attempt, place, &mut news, kept)?;
        if let Some(need) = renewal {
            return Ok(Trial::Refused(need));
        }
    }
    Ok(Trial::Renewed(news))
}

// Asks about one attack again, with the cell shown, where no kept world serves that doesn't move it.
fn renew_attack(
    alloc: Global,
    attempt: &Attempt<'_, '_>,
    place: usize,
    news: &mut Items<WorldLine>,
    kept: &mut Option<KeptQuestions>,
) -> Result<Option<ExtraNeed>, RowFault>
    requires place { place < length attempt.now.task.now.attacks.now }
    requires holds { AreGuardsOf attempt.now.task.now attempt.now.hidden.now.flags
        (take place attempt.now.task.now.attacks.now)
        (renewed_guards attempt.now.cell attempt.now.guards.now news.old) }
    ensures ok { IfOk result (IsRenewal attempt.now.task.now attempt.now.hidden.now.flags attempt.now.cell
        attempt.now.guards.now place news.new) }
    ensures err { IfErr result (λ row_fault. IsAskedOf attempt.now.task.now attempt.now.hidden.now.flags row_fault.fault
        row_fault.row place) }
{
    let task = attempt.task;
    let cell = attempt.cell;
    let attack = attack_at(task, place);
    if is_still_served(task.cells, task.soles, attack, cell, attempt.guards) {
        return Ok(None);
    }
    if is_served(task.cells, task.soles, attack, news.as_slice()) {
        return Ok(None);
    }
    let flags = attempt.hidden.flags.as_slice();
    let answer = answer_against(alloc, task, flags, attack, kept)?;
    match answer {
        KeptAnswer::Reaches(world) => {
            let line = WorldLine {
                cell: attack.cell,
                side: attack.side,
                world,
            };
            match news.push(line) {
                Ok(()) => Ok(None),
                Err(_) => Err(RowFault {
                    fault: AskFault::Memory,
                    row: attack.row,
                }),
            }
        }
        KeptAnswer::Stops(multipliers) => Ok(Some(ExtraNeed {
            subject: cell,
            row: attack.row,
            cell: attack.cell,
            side: attack.side,
            multipliers,
        })),
    }
}
