ghost use Rattle.std.specs.Prelude.{◌≡◌, length, All, IfOk};
ghost use Rattle.cost_rule.specs.Costs.{AreCosted, IsTold};
ghost use Rattle.modular_plan.specs.Plans.{trail_of, IsSameButHidden};
ghost use Rattle.sdc_base.specs.HiddenSets.{MayHide};
ghost use Rattle.sdc_base.specs.Trails.{corners_of};
ghost use Rattle.modular_plan.specs.Methods.{passes_of};

use crate::planning::plan;
use cost_rule::{CostKind, CostRule, TellsCosts};
use linked_tables::Book;
use sdc_base::{Cell, CellFacts, Memory, Method, Trail};
use std::alloc::Global;

/// The trail of cells by a method: the steps by which it hides cells beside the primary ones, none where it rounds.
///
/// There is one cell for each mark of the book, whose truths and frequencies are within the limits of a job. The costs
/// are those of the kind that a job names, but for a cell's own price. Each corner of a step is a cell that may be
/// hidden. Afterwards the marks of the book say which cells the trail hides; all else of the book stays. Its one
/// refusal is want of memory, which leaves the marks as `plan` says.
///
/// The cost is that of the plan. The method is the handbook's, the order of the steps argus's own.
pub fn trail_for(
    alloc: Global,
    book: &mut Book,
    cells: &[Cell],
    method: Method,
    cost: CostKind,
) -> Result<Trail, Memory>
    requires one_each { length cells.now ≡ length book.old.marks }
    requires costed { All (λ mark. AreCosted mark.facts) book.old.marks }
    ensures trail { IfOk result (λ trail. trail.steps ≡ trail_of book.old cells.now cost (passes_of method)) }
    ensures corners { IfOk result (λ trail. All (MayHide cells.now) (corners_of trail.steps)) }
    ensures same { IsSameButHidden book.old book.new }
{
    let f = |facts: &CellFacts| cost.cost(facts);
    trail_by(alloc, book, cells, method, cost, f)
}

// The same, where `f` tells the costs.
fn trail_by<F: TellsCosts + Drop>(
    alloc: Global,
    book: &mut Book,
    cells: &[Cell],
    method: Method,
    cost: CostKind,
    f: F,
) -> Result<Trail, Memory>
    requires told { IsTold F.may_ask F.may_say f cost }
    requires one_each { length cells.now ≡ length book.old.marks }
    requires costed { All (λ mark. AreCosted mark.facts) book.old.marks }
    ensures trail { IfOk result (λ trail. trail.steps ≡ trail_of book.old cells.now cost (passes_of method)) }
    ensures corners { IfOk result (λ trail. All (MayHide cells.now) (corners_of trail.steps)) }
    ensures same { IsSameButHidden book.old book.new }
{
    let rule = CostRule::new(cost, f);
    let trail = plan(alloc, book, cells, &rule, passes_in(method))?;
    Ok(trail)
}

/// How many passes a plan makes by a method: as many as it says, or one; none where it rounds.
///
/// Nothing is refused. The rule is the manual's.
pub fn passes_in(method: Method) -> u32
    ensures { result ≡ passes_of method }
{
    match method {
        Method::Gh(passes) => passes,
        Method::Modular => 1,
        Method::Rnd(_) => 0,
    }
}
