//! Laws of inputs, each the contract of a function with an empty body.

ghost use Rattle.job_inputs.specs.Laws.{OnlyCellsAreTooMany};

/// Tables of a bound job, over a tree for each of its spanning variables, make a book or have too many cells: a refusal
/// for the cells of a table comes for nothing else.
#[tactic(auto, using(crate::proofs::Books::only_cells_are_too_many))]
pub fn only_cells_are_too_many()
    ensures { OnlyCellsAreTooMany }
{}
