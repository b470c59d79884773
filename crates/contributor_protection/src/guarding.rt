ghost use Rattle.std.specs.Prelude.{◌≡◌, ◌≤◌, List, Bool, length, IfOk, IfErr};
ghost use Rattle.attackers.specs.AttackOrder.{attacks_of};
ghost use Rattle.attackers.specs.Guarding.{IsGuarded};
ghost use Rattle.attackers.specs.GuardStops.{IsStopAsTold};
ghost use Rattle.attackers.specs.Turns.{IsLeftOfTurns};
ghost use Rattle.attackers.specs.WholeGuards.{IsWholeGuarded, IsWholeGuardStop};
ghost use Rattle.cost_rule.specs.Costs.{IsTold};
ghost use Rattle.sdc_base.specs.Signs.{AreSigns};
ghost use Rattle.contributor_protection.specs.Guards.{case_of, prices_in, CanBeGuarded, IsGuardOf, HasExtraText};
ghost use Rattle.contributor_protection.specs.GuardParts.{FitTogether, IsMadeOf, IsStopOf};
ghost use Rattle.contributor_protection.specs.WholeOutcomes.{IsWholeOutcome};

use crate::shown_again::shown_again;
use attackers::{Against, Attack, Extra, GuardStop, Guarded, UnguardedAttack, guard, soles};
use certificate::Certificate;
use cost_rule::{CostKind, CostRule, TellsCosts};
use interval_audit::AskFault;
use linked_tables::Book;
use repair::Stopped;
use sdc_base::{Cell, CellFacts, Hidden, Memory, Row, System};
use std::alloc::{AllocError, Global};
use worlds::Protected;

/// Cells that a hidden set protects, with the tables and the records that they are of.
#[derive(Clone, Copy)]
pub struct ProtectedCells<'a> {
    /// The tables of the cells, with a mark for each cell.
    pub book: &'a Book,
    /// The records of the tables.
    pub rows: &'a [Row],
    /// The relations between the cells.
    pub system: &'a System,
    /// The cells, by their numbers.
    pub cells: &'a [Cell],
    /// The hidden set that protects them, with its complete tables.
    pub hidden_set: &'a Protected<'a>,
}

/// A hidden set that is guarded against contributors.
#[derive(Drop)]
pub struct GuardedCells {
    /// The certificate of the hidden set without the extra cells.
    pub certificate: Certificate,
    /// The cells that are hidden beside it, why each must be, and the complete tables that serve against contributors.
    pub extra: Extra,
    /// The hidden set with them.
    pub hidden: Hidden,
}

/// Why a hidden set isn't guarded against contributors.
#[derive(Drop)]
pub enum GuardFailure {
    /// Not even all cells that may be hidden guard against this attack, the first by row, then cell, then side, above
    /// before below.
    CannotAgainst(UnguardedAttack),
    /// A question against a contributor stopped short, of a hidden set with all these repairs and without these cells.
    Undecided { stopped: Stopped, against: Against },
    /// There was no memory.
    Memory,
}

impl From<Memory> for GuardFailure {
    ghost use Rattle.std.specs.Prelude.{◌≡◌};
    ghost use Rattle.contributor_protection.specs.declared.guarding.GuardFailure.TheVariants as guard_failure;

    ghost from_gives = { λ _ e. e ≡ guard_failure.Memory };

    fn from(_: Memory) -> Self {
        GuardFailure::Memory
    }
}

impl From<AllocError> for GuardFailure {
    ghost use Rattle.std.specs.Prelude.{◌≡◌};
    ghost use Rattle.contributor_protection.specs.declared.guarding.GuardFailure.TheVariants as guard_failure;

    ghost from_gives = { λ _ e. e ≡ guard_failure.Memory };

    fn from(_: AllocError) -> Self {
        GuardFailure::Memory
    }
}

/// Guards a protected hidden set against the contributors that alone make up some cell, the records that are the only
/// one of a cell: hides further cells until each primary cell stays open to both sides by its levels against each
/// contributor that doesn't know it, and shows those that needn't be hidden.
///
/// There is one cell for each cell of the system and for each mark of the book, whose marks tell how many of the
/// records, fewer than `2^32`, fall in each cell; levels are within the limits of a job. The certificate is that of the
/// hidden set. The costs are those of the kind that a job names, but for a cell's own price; a question takes at most
/// `limit` improvements, 1 or more.
///
/// It refuses where not even all cells that may be hidden guard against some contributor, where a question stopped
/// short, and for want of memory.
///
/// Where the relations have signs, no question stops short but for its size, and all denominators that it finds are 1:
/// of worlds, needs and reasons of the extra cells, and of the multipliers of `CannotAgainst`. Nothing is said of those
/// of the certificate.
///
/// The cost is that of finding who is alone, one look-up for each record and table, and of the questions. That a lone
/// contributor knows its cell is the handbook's, extra cells are argus's own.
pub fn guard_cells(
    alloc: Global,
    protected: &ProtectedCells<'_>,
    certificate: Certificate,
    cost: CostKind,
    limit: u64,
) -> Result<GuardedCells, GuardFailure>
    requires can { CanBeGuarded protected.now certificate limit }
    ensures outcome { IsGuardOf protected.now.book.now protected.now.rows.now (case_of protected.now)
        (prices_in cost protected.now) limit protected.now.hidden_set.now certificate result }
    ensures text { IfOk result HasExtraText }
    ensures whole { (signs : List Bool) → AreSigns protected.now.system.now.relations signs → IsWholeOutcome result }
{
    let alone = soles(alloc, protected.book, protected.rows)?;
    let f = |facts: &CellFacts| cost.cost(facts);
    let outcome = answer_by(alloc, protected, &alone, cost, f, limit);
    match outcome {
        Ok(answer) => guarded_by(alloc, protected.hidden_set.hidden(), certificate, answer),
        Err(stop) => Err(stopped_by(alloc, protected, certificate, stop)),
    }
}

// What guarding against those that alone make up cells comes to, where `f` tells the costs.
fn answer_by<F: TellsCosts + Drop>(
    alloc: Global,
    protected: &ProtectedCells<'_>,
    alone: &[Option<u32>],
    cost: CostKind,
    f: F,
    limit: u64,
) -> Result<Guarded, GuardStop>
    requires told_costs { IsTold F.may_ask F.may_say f cost }
    requires together { FitTogether protected.now }
    requires limit { 1 ≤ limit }
    ensures guarded { IfOk result (IsGuarded (case_of protected.now) alone.now
        protected.now.hidden_set.now.hidden.flags protected.now.hidden_set.now.worlds) }
    ensures turns { IfOk result (IsLeftOfTurns (case_of protected.now) alone.now (prices_in cost protected.now)
        (attacks_of protected.now.cells.now alone.now) protected.now.hidden_set.now.hidden.flags) }
    ensures stopped { IfErr result (IsStopAsTold (case_of protected.now) alone.now (prices_in cost protected.now)
        (attacks_of protected.now.cells.now alone.now) protected.now.hidden_set.now.hidden.flags limit) }
    ensures whole { (signs : List Bool) → AreSigns protected.now.system.now.relations signs
        → IfOk result IsWholeGuarded }
    ensures whole_stop { (signs : List Bool) → AreSigns protected.now.system.now.relations signs
        → IfErr result IsWholeGuardStop }
{
    let rule = CostRule::new(cost, f);
    guard(
        alloc,
        protected.system,
        protected.cells,
        protected.book.marks(),
        &rule,
        alone,
        protected.hidden_set,
        limit,
    )
}

// The guarded set of an answer, with its certificate, or that no set guards.
fn guarded_by(
    alloc: Global,
    hidden: &Hidden,
    certificate: Certificate,
    answer: Guarded,
) -> Result<GuardedCells, GuardFailure>
    ensures { IsMadeOf certificate hidden.now.flags answer result }
{
    match answer {
        Guarded::Guards(extra) => {
            let larger = hidden.with_cells(alloc, extra.cells.as_slice())?;
            Ok(GuardedCells {
                certificate,
                extra,
                hidden: larger,
            })
        }
        Guarded::CannotAgainst {
            row,
            cell,
            side,
            multipliers,
        } => {
            let attack = Attack { row, cell, side };
            Err(GuardFailure::CannotAgainst(UnguardedAttack {
                attack,
                multipliers,
            }))
        }
    }
}

// Why guarding stopped, with the repairs of the hidden set and the cells that were shown again.
fn stopped_by(
    alloc: Global,
    protected: &ProtectedCells<'_>,
    certificate: Certificate,
    stop: GuardStop,
) -> GuardFailure
    requires { length protected.now.cells.now ≡ protected.now.system.now.cells }
    ensures { IsStopOf (case_of protected.now) certificate protected.now.hidden_set.now.hidden.flags stop result }
{
    let hidden = protected.hidden_set.hidden();
    let Ok(shown) = shown_again(
        alloc,
        protected.system,
        protected.cells,
        &certificate,
        hidden,
    ) else {
        return GuardFailure::Memory;
    };
    let GuardStop { fault, against } = stop;
    match fault {
        AskFault::Memory => GuardFailure::Memory,
        other => GuardFailure::Undecided {
            stopped: Stopped {
                fault: other,
                repairs: certificate.repairs,
                shown,
            },
            against,
        },
    }
}
