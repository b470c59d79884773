ghost use Rattle.std.specs.Prelude.{Bool, List, IfOk, IfErr};
ghost use Rattle.sdc_base.specs.Signs.{AreSigns};
ghost use Rattle.interval_audit.specs.WalkLimits.{HasNoWalk};
ghost use Rattle.interval_audit.specs.Ends.{IsEndQuestion, IsTrueEnd, IsEndAnswer, IsWholeEnd, IsEndCause};
ghost use Rattle.interval_audit.specs.Outcomes.{CanBeAsked, IsIntervalOutcome};

use crate::answer::{Answer, AskFault};
use crate::question::Question;
use crate::signed_system::SignedSystem;
use sdc_base::{Cell, Hidden, Side, System};
use std::alloc::Global;

/// How far a hidden cell can lie to both sides.
#[derive(Drop)]
pub struct TwoEnds {
    /// How far below the truth.
    pub below: Answer,
    /// How far above the truth.
    pub above: Answer,
}

/// How far a hidden cell can lie below the truth, and how far above: two questions with the target 2^110, in units,
/// below first. An end that reaches its target is open. Where the system has signs both ends are whole numbers of units,
/// and worlds in whole units attain them.
///
/// The conditions are those of [`ask`], and so are the refusals: those of the question below, and then those of the
/// question above. It costs as much as the two questions.
///
/// The two ends are those of the feasibility interval in Hundepool et al., Statistical Disclosure Control, chapter on
/// magnitude tables; that an end is open from 2^110 on is own.
pub fn interval(
    alloc: Global,
    system: &System,
    cells: &[Cell],
    hidden: &Hidden,
    cell: u32,
    limit: u64,
) -> Result<TwoEnds, AskFault>
    requires { CanBeAsked system.now cells.now hidden.now.flags cell limit }
    ensures { IsIntervalOutcome system.now cells.now hidden.now.flags cell limit result }
{
    let signed = SignedSystem::of(alloc, system)?;
    signed_interval(alloc, &signed, cells, hidden, cell, limit)
}

/// What [`interval`] answers for a cell of a system whose signs are known, under the same conditions and with the same
/// refusals.
pub fn signed_interval(
    alloc: Global,
    system: &SignedSystem<'_>,
    cells: &[Cell],
    hidden: &Hidden,
    cell: u32,
    limit: u64,
) -> Result<TwoEnds, AskFault>
    requires { CanBeAsked system.now cells.now hidden.now.flags cell limit }
    ensures { IsIntervalOutcome system.now cells.now hidden.now.flags cell limit result }
{
    let below = end_of(alloc, system, cells, hidden, (cell, Side::Below), limit)?;
    let above = end_of(alloc, system, cells, hidden, (cell, Side::Above), limit)?;
    Ok(TwoEnds { below, above })
}

// How far a hidden cell can lie to a side.
fn end_of(
    alloc: Global,
    system: &SignedSystem<'_>,
    cells: &[Cell],
    hidden: &Hidden,
    asked: (u32, Side),
    limit: u64,
) -> Result<Answer, AskFault>
    requires { CanBeAsked system.now cells.now hidden.now.flags asked.0 limit }
    ensures right { IfOk result (λ answer. IsTrueEnd system.now cells.now hidden.now.flags asked.0 asked.1 answer) }
    ensures read { IfOk result (λ answer. IsEndAnswer system.now cells.now hidden.now.flags asked.0 asked.1 answer) }
    ensures whole { (signs : List Bool) → AreSigns system.now.relations signs
        → IfOk result (λ answer. IsWholeEnd system.now cells.now hidden.now.flags asked.0 asked.1 answer) }
    ensures cause { IfErr result (λ fault. IsEndCause system.now cells.now hidden.now.flags asked.0 asked.1 limit
        fault) }
    ensures signed { (signs : List Bool) → AreSigns system.now.relations signs
        → IfErr result (λ fault. HasNoWalk fault) }
{
    let question = end_question(asked.0, asked.1);
    system.ask(alloc, cells, hidden, question, limit)
}

/// The question how far a cell lies to a side, with the target 2^110.
pub fn end_question(cell: u32, side: Side) -> Question
    ensures { IsEndQuestion cell side result }
{
    Question {
        cell,
        side,
        target: 1 << 110,
    }
}
