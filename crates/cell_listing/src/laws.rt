//! Laws of listings, each the contract of a function with an empty body.

ghost use Rattle.cell_listing.specs.Laws.{UnnamedAreDeclared, NamedAreDeclared, PricesAreCosts, ListingsCountAsReports, ShownAreValues};

/// A cell with `u` is declared unsafe; one that a rule names though it isn't primary is declared safe.
pub fn reasons_are_true()
    ensures unnamed { UnnamedAreDeclared }
    ensures named { NamedAreDeclared }
{}

/// A price is the one by which hiding is planned.
#[tactic(auto, using(crate::proofs::LawsOfCells::prices_are_costs))]
pub fn prices_are_costs()
    ensures { PricesAreCosts }
{}

/// A listing has as many cells, and as many primary ones, as the report of a release counts, and where a release that
/// hides cells shows one, it shows the value in its line.
pub fn listings_are_of_releases()
    ensures counts { ListingsCountAsReports }
    ensures values { ShownAreValues }
{}
