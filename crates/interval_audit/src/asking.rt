ghost use Rattle.std.specs.Prelude.{◌≡◌, ◌<◌, ◌^◌, ◌-◌, ℕ, length, true, IfOk, IfErr};
ghost use Rattle.sdc_base.specs.Patterns.{IsPattern};
ghost use Rattle.sdc_base.specs.HiddenSets.{is_hidden};
ghost use Rattle.sdc_base.specs.Signs.{AreSigns, HasNone};
ghost use Rattle.interval_audit.specs.Answers.{IsTrueAnswer, IsAnswerOf, IsWalkAnswer, IsStepOutcome};
ghost use Rattle.interval_audit.specs.Causes.{IsCauseOf};
ghost use Rattle.interval_audit.specs.FlowQuestions.{answer_of_flow};
ghost use Rattle.interval_audit.specs.Groups.{Group, IsComponentOf, members};
ghost use Rattle.interval_audit.specs.ProblemSizes.{IsAmpleForSize};
ghost use Rattle.interval_audit.specs.WalkLimits.{HasNoWalk, IsAmple, IsNotCutOff, IsWithinLimit, IsAnswerWithin};
ghost use Rattle.interval_audit.specs.Outcomes.{CanBeAsked, IsQuestionOutcome};
ghost use Rattle.interval_audit.specs.Inquiries as inquiries;

use crate::answer::{Answer, AskFault, Walk, WidePlace};
use crate::finish::{finish, read_state};
use crate::group::{list_of, members_of};
use crate::inquiry::Inquiry;
use crate::problem::problem_over;
use crate::question::Question;
use crate::signed_system::SignedSystem;
use flow_worlds::{FlowAnswer, flow};
use sdc_base::{Cell, Fraction, Hidden, Memory, System, components, rows_of};
use std::alloc::Global;
use tableau::{Step, Tableau};
use worlds::Pattern;

// The most hidden cells that a question is about.
const MOST_MEMBERS: usize = 4000;

/// Whether a hidden cell can lie in some world as far as a target to a side, and else how far it can lie there.
///
/// The target is in units, from 0 to 2^110, and the limit says how many improvements the walk on the question's problem
/// ([`crate::problem_of`]) may make. There are a cell and a flag for each cell of the system, the asked cell is hidden,
/// and the limit is 1 or more.
///
/// Where it can, the world takes the cell exactly to the target. Where it can't, no world takes the cell further than
/// the best value, which is below the target; the world takes it there, and the bound sum of the multipliers is exactly
/// their denominator times the best value, so that they refute the target.
///
/// Where the system has signs ([`sdc_base::signs`]), the answer is that of [`flow_worlds::flow`], whose denominators are
/// 1. Else a walk goes step by step from the first table of the problem to the first that is reached or blocked; the
/// world and the multipliers are read off that one, in lowest terms.
///
/// The refusals: `Size` exactly where the asked cell's component has more than 4,000 hidden cells. The others but want of
/// memory never come where the system has signs: `Work` where the walk made `limit` improvements and is neither reached
/// nor blocked; `Wide` at a pivot where it made fewer and is neither, and the next step needs a number of more than 128
/// bits at that place; `Wide` at a cell where it is blocked, and checking the multipliers, with the target as level,
/// needs such a number at that cell. So a walk that has made `limit` improvements and goes on is `Work`, also where its
/// next step is wide. The walk of a fault, and the one that an answer is read off, is one on the problem of this
/// question with at most `limit` improvements. Want of memory may come at any time. What is lent stays as it was.
///
/// No basis comes twice in a walk, so that `Work` never comes where the limit is 2 to the number of the problem's
/// columns and rows, the target's among them, or more. With h hidden cells and r relations in the component these are at
/// most 2h columns and 2h + 2r + 1 rows, so that 2^(4h + 2r + 1) is enough.
///
/// It goes three times through all relations and their parts, for the signs, for the components and for the arcs of the
/// cells or the relations of each component. From there on it costs what `flow` does, or goes only through the relations
/// of the asked cell's component: it makes the problem and at most so many steps. Whoever asks more than one question of
/// a system looks for its signs once ([`SignedSystem::ask`]).
///
/// The question is that of the feasibility interval in Hundepool et al., Statistical Disclosure Control, chapter on
/// magnitude tables; the order of the steps is own.
pub fn ask(
    alloc: Global,
    system: &System,
    cells: &[Cell],
    hidden: &Hidden,
    question: Question,
    limit: u64,
) -> Result<Answer, AskFault>
    requires { CanBeAsked system.now cells.now hidden.now.flags question.cell limit }
    ensures { IsQuestionOutcome system.now cells.now hidden.now.flags question limit result }
{
    let signed = SignedSystem::of(alloc, system)?;
    signed.ask(alloc, cells, hidden, question, limit)
}

/// The answer of a question to a system with signs.
pub(crate) fn ask_flow(
    alloc: Global,
    system: &System,
    cells: &[Cell],
    hidden: &Hidden,
    signs: &[bool],
    question: Question,
) -> Result<Answer, AskFault>
    requires ground { IsPattern system.now cells.now hidden.now.flags }
    requires hidden { is_hidden hidden.now.flags question.cell ≡ true }
    requires signs { AreSigns system.now.relations signs.now }
    ensures right { IfOk result (λ answer. IsTrueAnswer system.now cells.now hidden.now.flags question answer) }
    ensures read { IfOk result (λ answer. IsAnswerOf system.now cells.now hidden.now.flags question answer) }
    ensures cause { IfErr result (λ fault. (limit : ℕ)
        → IsCauseOf system.now cells.now hidden.now.flags question limit fault) }
    ensures within { IfErr result (λ fault. (limit : ℕ) → IsWithinLimit limit fault) }
    ensures no_walk { IfErr result (λ fault. HasNoWalk fault) }
{
    let size = component_size(alloc, system, hidden, question.cell)?;
    if size as usize > MOST_MEMBERS {
        return Err(AskFault::Size {
            question,
            hidden: size,
        });
    }
    let answer = flow(
        alloc,
        system,
        cells,
        hidden,
        signs,
        question.cell,
        question.side,
        question.target,
    )?;
    Ok(whole_answer(answer))
}

// How many cells the component of a hidden cell has.
fn component_size(alloc: Global, system: &System, hidden: &Hidden, cell: u32) -> Result<u32, Memory>
    requires each { length hidden.now.flags ≡ system.now.cells }
    requires hidden { is_hidden hidden.now.flags cell ≡ true }
    ensures { IfOk result (λ size. (group : Group) × IsComponentOf system.now.relations hidden.now.flags cell group
        × (size ≡ length (members group system.now.cells))) }
{
    let grouping = components(alloc, system, hidden)?;
    let members = members_of(alloc, grouping.of.as_slice(), cell, system.cells)?;
    Ok(members.len() as u32)
}

// The answer of a flow as that of a question.
fn whole_answer(answer: FlowAnswer) -> Answer
    ensures { result ≡ answer_of_flow answer }
{
    match answer {
        FlowAnswer::Reaches(world) => Answer::Reaches(world),
        FlowAnswer::Stops {
            best,
            world,
            multipliers,
        } => Answer::Stops {
            best: Fraction { num: best, den: 1 },
            world,
            multipliers,
        },
    }
}

/// The answer of a question by a walk on its problem.
pub(crate) fn ask_walk<'a>(
    alloc: Global,
    system: &'a System,
    cells: &'a [Cell],
    hidden: &'a Hidden,
    question: Question,
    limit: u64,
) -> Result<Answer, AskFault>
    requires asked { CanBeAsked system.now cells.now hidden.now.flags question.cell limit }
    requires no_signs { HasNone system.now.relations }
    ensures right { IfOk result (λ answer. IsTrueAnswer system.now cells.now hidden.now.flags question answer) }
    ensures read { IfOk result (λ answer. IsWalkAnswer system.now cells.now hidden.now.flags question answer) }
    ensures cause { IfErr result (λ fault. IsCauseOf system.now cells.now hidden.now.flags question limit fault) }
    ensures made { IfOk result
        (λ answer. IsAnswerWithin system.now cells.now hidden.now.flags question limit answer) }
    ensures within { IfErr result (λ fault. IsWithinLimit limit fault) }
    ensures short { IsAmple system.now cells.now hidden.now.flags question limit
        → IfErr result (λ fault. IsNotCutOff fault) }
    ensures size { IsAmpleForSize system.now hidden.now.flags question limit
        → IfErr result (λ fault. IsNotCutOff fault) }
{
    let grouping = components(alloc, system, hidden)?;
    let of = grouping.of.as_slice();
    let members = members_of(alloc, of, question.cell, system.cells)?;
    let size = members.len();
    if size > MOST_MEMBERS {
        return Err(AskFault::Size {
            question,
            hidden: size as u32,
        });
    }
    let lists = rows_of(alloc, system, &grouping)?;
    let rows = lists.as_slice();
    let met = list_of(rows, of, question.cell);
    let pattern = Pattern {
        system,
        cells,
        hidden,
    };
    let inquiry = Inquiry {
        pattern,
        of,
        met,
        question,
    };
    walk_on(alloc, &inquiry, limit)
}

// The answer of a walk of at most so many improvements.
fn walk_on(alloc: Global, inquiry: &Inquiry<'_, '_>, limit: u64) -> Result<Answer, AskFault>
    ensures right { IfOk result (λ answer. inquiries.IsRightFor inquiry.now answer) }
    ensures read { IfOk result (λ answer. inquiries.IsGivenByWalk inquiry.now answer) }
    ensures cause { IfErr result (λ fault. inquiries.IsCauseFor inquiry.now limit fault) }
    ensures made { IfOk result (λ answer. inquiries.IsGivenWithin inquiry.now limit answer) }
    ensures within { IfErr result (λ fault. IsWithinLimit limit fault) }
    ensures short { IfErr result (λ fault. inquiries.IsCutOffBelow inquiry.now limit fault) }
{
    let question = inquiry.question;
    let problem = problem_over(
        alloc,
        inquiry.pattern.system,
        inquiry.pattern.cells,
        inquiry.of,
        inquiry.met,
        question,
    )?;
    let mut tableau = Tableau::start(alloc, problem)?;
    'walk: for made in 0..limit {
        let _made = made;
        let step = step_on(&mut tableau)?;
        match step {
            Step::Improved => {}
            Step::Reached | Step::Blocked => {
                return finish(alloc, inquiry, tableau);
            }
            Step::Wide { row, column } => {
                // for the proof: what is known of a walk
                read_state(&tableau);
                let walk = Walk { question, tableau };
                return Err(AskFault::Wide(walk, WidePlace::Pivot { row, column }));
            }
        }
    }
    // for the proof: what is known of a walk
    read_state(&tableau);
    if tableau.can_improve() {
        return Err(AskFault::Work(Walk { question, tableau }));
    }
    finish(alloc, inquiry, tableau)
}

// Makes the next step of a walk, or says why there is none.
fn step_on(tableau: &mut Tableau) -> Result<Step, Memory>
    requires { tableau.old.improved < 2 ^ 64 - 1 }
    ensures problem { tableau.new.problem ≡ tableau.old.problem }
    ensures says { IfOk result (λ step. IsStepOutcome tableau.old tableau.new step) }
{
    tableau.improve()
}
