ghost use Rattle.std.specs.Prelude.{IfOk, IfErr, IfSome};
ghost use Rattle.repair.specs.KeptWorlds.{IsAskable};
ghost use Rattle.repair.specs.LevelQuestions.{HasCause, IsLevelAnswer};

use crate::serving::level_question;
use interval_audit::{Answer, AskFault, SignedSystem};
use kept_questions::{KeptAnswer, KeptQuestions};
use sdc_base::{Cell, Hidden, Side};
use std::alloc::Global;
use worlds::Pattern;

// The fewest steps that a job may allow for multipliers to be taken from what is kept. Where it allows fewer the walk is
// asked, so that work is cut off as the job wants it.
const LEAST_LIMIT: u64 = 1_000;

/// A question whether a primary cell can be moved to a side by its level, as it is asked of a hidden set.
#[derive(Drop)]
pub struct LevelQuestion<'a, 'b> {
    /// The relations between the cells, with their signs.
    pub system: &'b SignedSystem<'a>,
    /// The cells, in the order of their numbers.
    pub cells: &'b [Cell],
    /// Which cells are hidden, a flag for each.
    pub hidden: &'b Hidden,
    /// The primary cell, by its number from 0, and the side.
    pub asked: (u32, Side),
    /// How many improvements the walk may make, 1 or more.
    pub limit: u64,
    ghost is_askable: { IsAskable system.now cells.now hidden.now.flags asked limit },
}

/// Questions about these hidden cells, kept from one to the next; none where the system has signs, whose questions are
/// quick without.
///
/// Nothing is refused: where memory is wanting there are no answers later. It takes what [`KeptQuestions::new`] takes.
/// That answers are kept is argus's own.
pub fn questions_about(
    alloc: Global,
    system: &SignedSystem<'_>,
    cells: &[Cell],
    hidden: &Hidden,
) -> Option<KeptQuestions> {
    if system.has_signs() {
        return None;
    }
    Some(KeptQuestions::new(alloc, system.system(), cells, hidden))
}

/// Keeps questions about these hidden cells, which are those of the kept questions and more.
///
/// Nothing is refused. It takes what [`KeptQuestions::widen`] takes. That answers are kept is argus's own.
pub fn widen_questions(
    alloc: Global,
    system: &SignedSystem<'_>,
    cells: &[Cell],
    hidden: &Hidden,
    kept: &mut Option<KeptQuestions>,
) {
    let wider = match kept.take() {
        Some(questions) => Some(questions.widen(alloc, system.system(), cells, hidden)),
        None => questions_about(alloc, system, cells, hidden),
    };
    *kept = wider;
}

/// Whether a primary cell can be moved to a side by its level: asked of what is kept, or else of the walk.
///
/// Where it can, the world takes the cell exactly to its level; where it can't, the multipliers are those of the walk's
/// answer. The fault is the walk's, or want of memory. Kept multipliers are taken where at least 1,000 improvements are
/// allowed. It takes what [`KeptQuestions::ask`] and [`interval_audit::ask`] take.
///
/// The question is that of the handbook's feasibility interval; that what is kept is asked first is argus's own.
pub fn ask_level(
    alloc: Global,
    question: &LevelQuestion<'_, '_>,
    kept: &mut Option<KeptQuestions>,
) -> Result<KeptAnswer, AskFault>
    ensures ok { IfOk result (λ answer. IsLevelAnswer question.now.system.now question.now.cells.now
        question.now.hidden.now.flags question.now.asked answer) }
    ensures err { IfErr result (λ fault. HasCause question.now.system.now question.now.cells.now
        question.now.hidden.now.flags question.now.asked question.now.limit fault) }
{
    let found = ask_kept(alloc, question, kept);
    match found {
        Some(answer) => Ok(answer),
        None => ask_walk(alloc, question),
    }
}

// The same, asked of what is kept, where it has an answer.
pub(crate) fn ask_kept(
    alloc: Global,
    question: &LevelQuestion<'_, '_>,
    kept: &mut Option<KeptQuestions>,
) -> Option<KeptAnswer>
    ensures answer { IfSome result (λ answer. IsLevelAnswer question.now.system.now question.now.cells.now
        question.now.hidden.now.flags question.now.asked answer) }
{
    let answer = ask_table(alloc, question, kept)?;
    if question.limit < LEAST_LIMIT && matches!(&answer, KeptAnswer::Stops(_)) {
        return None;
    }
    Some(answer)
}

// What the kept table answers, however few steps the job allows.
fn ask_table(
    alloc: Global,
    question: &LevelQuestion<'_, '_>,
    kept: &mut Option<KeptQuestions>,
) -> Option<KeptAnswer>
    ensures answer { IfSome result (λ answer. IsLevelAnswer question.now.system.now question.now.cells.now
        question.now.hidden.now.flags question.now.asked answer) }
{
    if question.system.has_signs() {
        return None;
    }
    let questions = kept.as_mut()?;
    let pattern = Pattern {
        system: question.system.system(),
        cells: question.cells,
        hidden: question.hidden,
    };
    let aim = level_question(question.cells, question.asked);
    questions.ask(alloc, &pattern, aim)
}

// The same, asked of the walk.
pub(crate) fn ask_walk(
    alloc: Global,
    question: &LevelQuestion<'_, '_>,
) -> Result<KeptAnswer, AskFault>
    ensures ok { IfOk result (λ answer. IsLevelAnswer question.now.system.now question.now.cells.now
        question.now.hidden.now.flags question.now.asked answer) }
    ensures err { IfErr result (λ fault. HasCause question.now.system.now question.now.cells.now
        question.now.hidden.now.flags question.now.asked question.now.limit fault) }
{
    let aim = level_question(question.cells, question.asked);
    let answer = question.system.ask(alloc, question.cells, question.hidden, aim, question.limit)?;
    match answer {
        Answer::Reaches(world) => Ok(KeptAnswer::Reaches(world)),
        Answer::Stops { multipliers, .. } => Ok(KeptAnswer::Stops(multipliers)),
    }
}
