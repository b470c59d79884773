//! Laws of the definitions, each the contract of a function with an empty body.

ghost use Rattle.repair.specs.LevelQuestions.{StoppedAreGiven};
ghost use Rattle.repair.specs.Laws.{OpenSetHolds, QuestionsAreInOrder};

/// The cells that a protection hides before any is shown again are the primary cells, the corners and the subjects of
/// repairs.
#[tactic(auto, using(crate::proofs::Sayings::open_set_holds))]
pub fn open_set_holds()
    ensures { OpenSetHolds }
{}

/// Primary cells are asked about in ascending order, above before below.
#[tactic(auto, using(crate::proofs::Sayings::questions_are_in_order))]
pub fn questions_are_in_order()
    ensures { QuestionsAreInOrder }
{}

/// Where a system has no signs, the multipliers with which the walk of a level's question stops are those that the
/// question is given, unless a number is wider than 128 bits when they are checked.
pub fn stopped_are_given()
    ensures { StoppedAreGiven }
{}
