ghost use Rattle.std.specs.Prelude.{◌≡◌, true, IfErr, OnOk};
ghost use Rattle.sdc_base.specs.HiddenSets as hidden_set;
ghost use Rattle.sdc_base.specs.declared.cell.Kind.TheVariants.{Free as FreeKind};
ghost use Rattle.repair.specs.HidingOrder.{IsOfKind};
ghost use Rattle.repair.specs.HidingOrder as order;
ghost use Rattle.repair.specs.TriedCells as tried_cells;
ghost use Rattle.repair.specs.Tasks.{case_of};
ghost use Rattle.repair.specs.CellTrials.{TriesStopFor};
ghost use Rattle.repair.specs.Attempts.{IsServedSet, IsUntried, IsReadyToTry, IsCellTrial, IsCellTrialStop, HasTriedAll, KeepsAnswers};

use crate::attempt::Attempt;
use crate::progress::Progress;
use crate::renewing::{drop_unfit, renew_all};
use crate::task::Task;
use crate::trial::{ReusableTable, first_need};
use crate::trials::Trials;
use interval_audit::AskFault;
use sdc_base::{Cell, is_hidden};
use std::alloc::Global;
use worlds::{Refuted, World};

/// What was found of the hidden cells that aren't primary.
#[derive(Drop)]
pub(crate) struct Findings {
    /// Why cells must stay hidden, and which are shown.
    pub(crate) trials: Trials<Refuted>,
    /// Worlds at hand beside the kept ones, at most as many as there are questions; none moves a cell that is shown.
    pub(crate) reusable: Vec<ReusableTable>,
    /// For each question, in its order, the last world that a trial found for it, if any.
    pub(crate) last: Vec<Option<World>>,
}

// Tries each hidden free cell as shown, in ascending order; where cells are shown, each question then gets an answer of
// its own that moves none of them.
pub(crate) fn try_all(
    alloc: Global,
    task: &Task<'_, '_>,
    progress: &mut Progress<World, Refuted>,
    tried: &mut Findings,
) -> Result<(), AskFault>
    requires served { IsServedSet (case_of task.now) progress.old.hidden.flags progress.old.tables }
    requires untried { IsUntried task.now tried.old }
    ensures reasons { progress.new.reasons ≡ progress.old.reasons }
    ensures served { OnOk result (IsServedSet (case_of task.now) progress.new.hidden.flags progress.new.tables) }
    ensures answers { OnOk result (KeepsAnswers task.now progress.old progress.new) }
    ensures ok { OnOk result (HasTriedAll task.now progress.old.hidden.flags progress.new tried.new) }
    ensures err { IfErr result (λ fault. TriesStopFor (case_of task.now) progress.old.hidden.flags task.now.limit fault
        tried.new.trials.shown) }
{
    'cells: for number in 0..task.cells.len() {
        let cell = number as u32;
        if !is_open(task.cells, progress.hidden.flags.as_slice(), cell) {
            continue;
        }
        try_one(alloc, task, cell, progress, tried)?;
    }
    if tried.trials.shown.as_slice().is_empty() {
        return Ok(());
    }
    renew_all(
        alloc,
        task,
        &progress.hidden,
        &mut progress.tables,
        &mut tried.reusable,
        &mut progress.kept,
    )
}

// Whether a cell is hidden and free.
fn is_open(cells: &[Cell], flags: &[bool], cell: u32) -> bool
    ensures { result ≡ tried_cells.is_open (order.is_free_at cells.now) flags.now cell }
{
    is_hidden(flags, cell as usize) && is_free_at(cells, cell)
}

/// Whether the cell with this number is free, by the cells in the order of their numbers from 0. Nothing is refused; it
/// takes one look and no memory. Free cells are argus's own.
pub fn is_free_at(cells: &[Cell], cell: u32) -> bool
    ensures { result ≡ order.is_free_at cells.now cell }
{
    match cells.get(cell as usize) {
        Some(one) => one.kind.is_free(),
        None => false,
    }
}

// Tries a hidden free cell as shown: keeps it shown, or hides it again and keeps the need.
fn try_one(
    alloc: Global,
    task: &Task<'_, '_>,
    cell: u32,
    progress: &mut Progress<World, Refuted>,
    tried: &mut Findings,
) -> Result<(), AskFault>
    requires is_free { IsOfKind task.now.cells.now cell FreeKind }
    requires hidden { hidden_set.is_hidden progress.old.hidden.flags cell ≡ true }
    requires ready { IsReadyToTry task.now progress.old tried.old }
    ensures reasons { progress.new.reasons ≡ progress.old.reasons }
    ensures tables { progress.new.tables ≡ progress.old.tables }
    ensures ready { OnOk result (IsReadyToTry task.now progress.new tried.new) }
    ensures ok { OnOk result (IsCellTrial task.now cell progress.old tried.old progress.new tried.new) }
    ensures err { IfErr result (λ fault. IsCellTrialStop task.now cell progress.old tried.old fault tried.new.trials.shown) }
{
    let Ok(()) = tried.trials.shown.push(cell) else {
        return Err(AskFault::Memory);
    };
    progress.hidden.show(cell);
    let attempt = Attempt {
        task,
        cell,
        hidden: &progress.hidden,
        worlds: progress.tables.as_slice(),
    };
    let found = first_need(
        alloc,
        &attempt,
        &mut tried.reusable,
        &mut tried.last,
        &mut progress.kept,
    )?;
    match found {
        None => {
            drop_unfit(&mut tried.reusable, progress.hidden.flags.as_slice());
            Ok(())
        }
        Some(need) => {
            tried.trials.put_back(&mut progress.hidden, cell, need)?;
            Ok(())
        }
    }
}
