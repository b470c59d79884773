ghost use Rattle.std.specs.Prelude.{◌≡◌, ◌<◌, ◌++◌, [], ℕ, true, length, IfErr, OnOk};
ghost use Rattle.sdc_base.specs.HiddenSets.{is_hidden};
ghost use Rattle.attackers.specs.ContributorTasks.{IsReadySet};
ghost use Rattle.attackers.specs.Dropping.{is_beside, renewed_guards, IsReadyToTry, HasTried, TriesStopFor, IsCellTrial, IsCellTrialStop};

use crate::attempt::Attempt;
use crate::contributor_task::ContributorTask;
use crate::lines::drop_moved;
use crate::serving::RowFault;
use crate::trial::{Trial, ask_anew};
use certificate::{ExtraNeed, WorldLine};
use interval_audit::AskFault;
use repair::{Progress, Trials};
use sdc_base::{Hidden, Items, Memory, is_hidden};
use std::alloc::Global;

// Tries each extra cell as shown, in ascending order.
pub(crate) fn try_all(
    alloc: Global,
    task: &ContributorTask<'_>,
    first: &Hidden,
    progress: &mut Progress<WorldLine, ExtraNeed>,
    found: &mut Trials<ExtraNeed>,
) -> Result<(), RowFault>
    requires ready { IsReadyToTry task.now first.now.flags progress.old }
    requires within { (cell : ℕ) → is_hidden first.now.flags cell ≡ true
        → is_hidden progress.old.hidden.flags cell ≡ true }
    requires no_needs { found.old.needs ≡ [] }
    requires none_dropped { found.old.shown ≡ [] }
    ensures reasons { progress.new.reasons ≡ progress.old.reasons }
    ensures set { OnOk result (IsReadySet task.now progress.new.hidden.flags) }
    ensures ok { OnOk result (HasTried task.now first.now.flags progress.old.hidden.flags
        (length task.now.cells.now) progress.new found.new) }
    ensures err { IfErr result
        (λ row_fault. TriesStopFor task.now first.now.flags progress.old.hidden.flags row_fault.fault
        row_fault.row found.new.shown) }
{
    'cells: for number in 0..task.cells.len() {
        let cell = number as u32;
        if !is_extra(first, &progress.hidden, cell) {
            continue;
        }
        try_one(alloc, task, first, cell, progress, found)?;
    }
    Ok(())
}

// Whether a cell is hidden beside the first set.
fn is_extra(first: &Hidden, hidden: &Hidden, cell: u32) -> bool
    ensures { result ≡ is_beside first.now.flags hidden.now.flags cell }
{
    let place = cell as usize;
    is_hidden(hidden.flags.as_slice(), place) && !is_hidden(first.flags.as_slice(), place)
}

// Tries an extra cell as shown: drops it with new worlds, or hides it again and keeps the need.
fn try_one(
    alloc: Global,
    task: &ContributorTask<'_>,
    first: &Hidden,
    cell: u32,
    progress: &mut Progress<WorldLine, ExtraNeed>,
    found: &mut Trials<ExtraNeed>,
) -> Result<(), RowFault>
    requires inside { cell < length task.now.cells.now }
    requires extra { is_beside first.now.flags progress.old.hidden.flags cell ≡ true }
    requires ready { IsReadyToTry task.now first.now.flags progress.old }
    ensures reasons { progress.new.reasons ≡ progress.old.reasons }
    ensures set { OnOk result (IsReadySet task.now progress.new.hidden.flags) }
    ensures ok { OnOk result (IsCellTrial task.now first.now.flags cell progress.old found.old progress.new
        found.new) }
    ensures err { IfErr result
        (λ row_fault. IsCellTrialStop task.now first.now.flags cell progress.old found.old row_fault.fault
        row_fault.row found.new.shown) }
{
    let Ok(()) = found.shown.push(cell) else {
        return Err(out_of_memory());
    };
    progress.hidden.show(cell);
    let attempt = Attempt {
        task,
        cell,
        hidden: &progress.hidden,
        guards: progress.tables.as_slice(),
    };
    let trial = ask_anew(alloc, &attempt, &mut progress.kept)?;
    match trial {
        Trial::Renewed(news) => take_new(alloc, cell, news, progress),
        Trial::Refused(need) => match found.put_back(&mut progress.hidden, cell, need) {
            Ok(()) => Ok(()),
            Err(_) => Err(out_of_memory()),
        },
    }
}

// Want of memory.
fn out_of_memory() -> RowFault
    ensures { result.fault ≡ AskFault.Memory }
{
    RowFault {
        fault: AskFault::Memory,
        row: 0,
    }
}

// Lets go of the worlds that move a cell, and keeps the new ones.
fn take_new(
    alloc: Global,
    cell: u32,
    news: Items<WorldLine>,
    progress: &mut Progress<WorldLine, ExtraNeed>,
) -> Result<(), RowFault>
    ensures flags { progress.new.hidden.flags ≡ progress.old.hidden.flags }
    ensures reasons { progress.new.reasons ≡ progress.old.reasons }
    ensures tables { OnOk result (progress.new.tables ≡ renewed_guards cell progress.old.tables news) }
    ensures err { IfErr result (λ row_fault. row_fault.fault ≡ AskFault.Memory) }
{
    match replace_guards(alloc, cell, news, &mut progress.tables) {
        Ok(()) => Ok(()),
        Err(_) => Err(out_of_memory()),
    }
}

// The same of the worlds alone.
fn replace_guards(
    alloc: Global,
    cell: u32,
    news: Items<WorldLine>,
    guards: &mut Items<WorldLine>,
) -> Result<(), Memory>
    ensures { OnOk result (guards.new ≡ renewed_guards cell guards.old news) }
{
    drop_moved(alloc, guards, cell)?;
    add_all(guards, news)?;
    Ok(())
}

// Puts worlds behind others.
fn add_all(lines: &mut Items<WorldLine>, news: Items<WorldLine>) -> Result<(), Memory>
    ensures { OnOk result (lines.new ≡ lines.old ++ news) }
{
    'news: for line in news.into_vec() {
        lines.push(line)?;
    }
    Ok(())
}
