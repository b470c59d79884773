//! Laws of the definitions, each the contract of a function with an empty body.

ghost use Rattle.modular_plan.specs.DepthLaws.{NoDepthIsGreater};
ghost use Rattle.modular_plan.specs.StepLaws.{StepsAreWhole};

/// No subtable of tables of at most eight variables has a greater summed depth than the last that a plan comes to, so
/// a plan goes through all of them.
#[tactic(auto, using(crate::proofs::Shallow::no_depth_is_greater))]
pub fn no_depth_is_greater()
    ensures { NoDepthIsGreater }
{}

/// Each step of a trail is of a table of the book, with a parent for each of its variables, and has all corners of a
/// cube, by their numbers upwards; none of them is of a cell that is always shown.
#[tactic(auto, using(crate::proofs::WholeSteps::steps_are_whole))]
pub fn steps_are_whole()
    ensures { StepsAreWhole }
{}
