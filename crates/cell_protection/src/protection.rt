ghost use Rattle.std.specs.Prelude.{◌≡◌, ◌≤◌, length, All, IfOk, IfErr};
ghost use Rattle.apriori.specs.CellLevels.{HasLevelsInRange};
ghost use Rattle.cost_rule.specs.Costs.{AreCosted, IsTold};
ghost use Rattle.modular_plan.specs.Plans.{trail_of, IsSameButHidden};
ghost use Rattle.repair.specs.HidingOrder.{protected_case, prices_of};
ghost use Rattle.repair.specs.Stops.{IsStopAsTold};
ghost use Rattle.repair.specs.Verdicts.{IsVerdict};
ghost use Rattle.sdc_base.specs.HiddenSets.{MayHide};
ghost use Rattle.sdc_base.specs.Trails.{corners_of};
ghost use Rattle.cell_protection.specs.Protections.{AreNarrow, HasText, IsProtectionOf, case_of, planned_from, prices_in, protection_by};
ghost use Rattle.modular_plan.specs.Methods.{passes_of};

use crate::certifying::{hidden_cells, world_lines};
use certificate::Certificate;
use cost_rule::{CostKind, CostRule, TellsCosts};
use linked_tables::{Book, Mark};
use modular_plan::trail_for;
use repair::{Stopped, UnprotectedCell, Verdict, protect};
use sdc_base::{Cell, CellFacts, Memory, Method, System, Trail};
use std::alloc::Global;
use worlds::Protected;

/// What becomes of cells that are to be protected.
#[derive(Drop)]
pub enum ProtectionOutcome<'a> {
    /// A hidden set protects every primary cell; this is its certificate.
    Protected {
        protected: Protected<'a>,
        certificate: Certificate,
    },
    /// No permitted hidden set protects this cell to this side.
    Cannot(UnprotectedCell),
    /// A question stopped short, so nothing is known.
    Undecided(Stopped),
}

/// Plans which cells are hidden beside the primary ones, by a method and its passes, and protects all primary cells
/// from there on: with a hidden set and its certificate, or with the first cell and side that no set protects.
///
/// There is one cell for each cell of the system and for each mark of the book, which has at most eight tables of one
/// to eight variables; truths, frequencies and levels are within the limits of a job. The costs are those of the kind
/// that a job names, but for a cell's own price; a question takes at most `limit` improvements, 1 or more. Afterwards
/// the marks of the book say which cells the plan hid, and what the release hides is in the answer alone. Its one
/// refusal is want of memory, which leaves the marks as `plan` says.
///
/// The cost is that of the plan and of the questions. The method is the handbook's, repairs and needs are argus's own.
pub fn protect_cells<'a>(
    alloc: Global,
    book: &mut Book,
    system: &'a System,
    cells: &'a [Cell],
    method: Method,
    cost: CostKind,
    limit: u64,
) -> Result<ProtectionOutcome<'a>, Memory>
    requires one_each { length cells.now ≡ system.now.cells }
    requires marks { length cells.now ≡ length book.old.marks }
    requires narrow { AreNarrow book.old.tables }
    requires costed { All (λ mark. AreCosted mark.facts) book.old.marks }
    requires levels { All HasLevelsInRange cells.now }
    requires limit { 1 ≤ limit }
    ensures outcome { IfOk result (IsProtectionOf (protected_case system.now cells.now)
        (prices_of cost cells.now book.old.marks) method (trail_of book.old cells.now cost (passes_of method)) limit) }
    ensures text { IfOk result HasText }
    ensures same { IsSameButHidden book.old book.new }
{
    // for the proof: what holds of every book
    let _known = book.cells();
    let trail = trail_for(alloc, book, cells, method, cost)?;
    let costed = CostedCells {
        system,
        cells,
        marks: book.marks(),
        cost,
    };
    let f = |facts: &CellFacts| cost.cost(facts);
    let outcome = verdict_by(alloc, &costed, &trail, f, limit);
    match outcome {
        Ok(verdict) => certificate_of(alloc, method, system, cells, trail, verdict),
        Err(stopped) => Ok(ProtectionOutcome::Undecided(stopped)),
    }
}

// Cells with their relations, and what hiding each of them costs: their marks and the kind of the costs.
#[derive(Clone, Copy)]
struct CostedCells<'a, 'b> {
    system: &'a System,
    cells: &'a [Cell],
    marks: &'b [Mark],
    cost: CostKind,
}

// The verdict on cells from a trail on, where `f` tells their costs.
fn verdict_by<'a, F: TellsCosts + Drop>(
    alloc: Global,
    costed: &CostedCells<'a, '_>,
    trail: &Trail,
    f: F,
    limit: u64,
) -> Result<Verdict<'a>, Stopped>
    requires told { IsTold F.may_ask F.may_say f costed.now.cost }
    requires one_each { length costed.now.cells.now ≡ costed.now.system.now.cells }
    requires marks { length costed.now.marks.now ≡ length costed.now.cells.now }
    requires costed { All (λ mark. AreCosted mark.facts) costed.now.marks.now }
    requires levels { All HasLevelsInRange costed.now.cells.now }
    requires corners { All (MayHide costed.now.cells.now) (corners_of trail.now.steps) }
    requires limit { 1 ≤ limit }
    ensures verdict { IfOk result (IsVerdict (case_of costed.now) (prices_in costed.now)
        (planned_from (case_of costed.now) trail.now.steps)) }
    ensures stopped { IfErr result (IsStopAsTold (case_of costed.now) (prices_in costed.now)
        (planned_from (case_of costed.now) trail.now.steps) limit) }
{
    let rule = CostRule::new(costed.cost, f);
    protect(
        alloc,
        costed.system,
        costed.cells,
        costed.marks,
        &rule,
        trail,
        limit,
    )
}

// A verdict with the certificate of its hidden set, where there is one.
fn certificate_of<'a>(
    alloc: Global,
    method: Method,
    system: &'a System,
    cells: &'a [Cell],
    trail: Trail,
    verdict: Verdict<'a>,
) -> Result<ProtectionOutcome<'a>, Memory>
    requires { length cells.now ≡ system.now.cells }
    ensures { IfOk result (λ made. made
        ≡ protection_by method (protected_case system.now cells.now) trail.steps verdict.entry) }
{
    match verdict {
        Verdict::Protected {
            protected,
            repairs,
            needs,
        } => {
            let hidden = hidden_cells(alloc, system.cells, protected.hidden().flags.as_slice())?;
            let worlds = world_lines(alloc, cells, protected.worlds())?;
            let certificate = Certificate {
                method,
                cells: system.cells,
                relations: system.relations.as_slice().len() as u32,
                hidden,
                steps: trail.steps,
                repairs,
                needs,
                worlds,
            };
            Ok(ProtectionOutcome::Protected {
                protected,
                certificate,
            })
        }
        Verdict::Cannot {
            cell,
            side,
            multipliers,
        } => Ok(ProtectionOutcome::Cannot(UnprotectedCell {
            cell,
            side,
            multipliers,
        })),
    }
}
