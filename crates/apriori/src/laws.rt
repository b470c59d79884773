//! Laws of a priori files, as contracts of functions that do nothing.

ghost use Rattle.apriori.specs.Laws.{OrderChangesNothing};

/// Files with the same lines in another order are both accepted, with the same priors but for the lines that these
/// keep, or both refused.
#[tactic(auto, using(crate::proofs::Order::order_changes_nothing))]
pub fn order_changes_nothing()
    ensures { OrderChangesNothing }
{}
