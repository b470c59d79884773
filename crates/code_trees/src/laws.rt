//! Laws of the definitions, each the contract of a function with an empty body.

ghost use Rattle.code_trees.specs.Laws.{FlatIsInOrder, MissingStandLast};

/// In a flat tree the codes stand in the given order, each right below the total.
pub fn flat_is_in_order()
    ensures { FlatIsInOrder }
{}

/// A tree with missing codes is the tree as it was, and behind it what it lacked, right below the total.
#[tactic(auto, using(crate::proofs::MissingLaw::missing_stand_last))]
pub fn missing_stand_last()
    ensures { MissingStandLast }
{}
