ghost use Rattle.interval_audit.specs.QuestionLaws.{PointsAreWorlds, WorldsArePoints, DualsBound, AttainedIsBest};
ghost use Rattle.interval_audit.specs.Answers.{AnswerIsOne};
ghost use Rattle.interval_audit.specs.FewerHidden.{ComponentExists, ComponentIsShared};
ghost use Rattle.interval_audit.specs.MovePairs.{MovePairStops};
ghost use Rattle.interval_audit.specs.Groups.{ComponentsAreGroups};

/// What the problem of a question has to do with worlds and multipliers: its points are the worlds, and its dual
/// multipliers make multipliers of relations whose bound sum is no greater than the dual value. A point that attains
/// the dual value makes the two equal, and then no world goes further.
pub fn question_laws()
    ensures groups { ComponentsAreGroups }
    ensures points { PointsAreWorlds }
    ensures worlds { WorldsArePoints }
    ensures bound { DualsBound }
    ensures best { AttainedIsBest }
{}

/// A question has one answer: any two that are right and are read off its walk are the same.
#[tactic(auto, using(crate::proofs::OneAnswer::answer_is_one))]
pub fn answer_is_one()
    ensures { AnswerIsOne }
{}

/// Every hidden cell has a component, which is that of all its cells.
pub fn components_exist()
    ensures component { ComponentExists }
    ensures shared { ComponentIsShared }
{}

/// Lists of the cells' moves and multipliers of the relations that show each other to be the best where fewer cells are
/// hidden give the multipliers of the question's answer there, whatever found them.
pub fn move_pair_stops()
    ensures { MovePairStops }
{}
