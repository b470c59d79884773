//! Laws of the rules, each the contract of a function with an empty body.

ghost use Rattle.primary_rules.specs.Naming.{NamesWhereDisclosing, RoundingIsLeast, NoneWhereNoneNames, LevelsAreGreatest};
ghost use Rattle.primary_rules.specs.EnoughForRules.{KeptAreEnough};
ghost use Rattle.primary_rules.specs.Units.{UnitsChangeNoNaming, RecordsAreRescaled};
ghost use Rattle.primary_rules.specs.Strictness.{StricterWantsMore, StricterLowersNone, FurtherLowersNone, MoreLowersNoManual, ValuesFromZeroAreEnough};
ghost use Rattle.primary_rules.specs.Contributors.{FurtherIsNotNamed};
ghost use Rattle.primary_rules.specs.PriorPosterior.{IsPercentOfHundred};

/// A rule names exactly the cells for which its inequality holds, which is strict.
#[tactic(auto, using(crate::proofs::NamedCells::names_where_disclosing))]
pub fn names_where_disclosing()
    ensures { NamesWhereDisclosing }
{}

/// Rounding up gives the least whole number, from one unit on, that reaches the quotient.
#[tactic(auto, using(crate::proofs::Rounding::rounding_is_least))]
pub fn rounding_is_least()
    ensures { RoundingIsLeast }
{}

/// A cell has no levels exactly where no rule names it.
#[tactic(auto, using(crate::proofs::NamedCells::none_where_none_names))]
pub fn none_where_none_names()
    ensures { NoneWhereNoneNames }
{}

/// The levels of a cell are the greatest of the rules that name it, the lower one no more than the truth.
pub fn levels_are_greatest()
    ensures { LevelsAreGreatest }
{}

/// As many of the largest contributions as the rules look at settle the levels.
#[tactic(auto, using(crate::proofs::KeptFigures::kept_are_enough))]
pub fn kept_are_enough()
    ensures { KeptAreEnough }
{}

/// Where all values are written in a smaller unit, and with them the level of the rule on zeros, truth and largest
/// contributions are, and the same cells are named; the levels stay but for rounding.
pub fn units_change_no_naming()
    ensures records { RecordsAreRescaled }
    ensures levels { UnitsChangeNoNaming }
{}

/// A stricter rule names more cells and wants them more open, in a list of rules too; a further rule lowers no level,
/// nor does a greater percentage for cells that are declared unsafe.
pub fn stricter_lowers_none()
    ensures wants { StricterWantsMore }
    ensures among_rules { StricterLowersNone }
    ensures further { FurtherLowersNone }
    ensures manual { MoreLowersNoManual }
    ensures from_zero { ValuesFromZeroAreEnough }
{}

/// Where each contribution is known to within 100 percent, the prior-posterior rule is the p-percent rule.
#[tactic(auto, using(crate::proofs::EqualRules::percent_of_hundred))]
pub fn prior_posterior_of_hundred()
    ensures { IsPercentOfHundred }
{}

/// A further contributor that isn't the largest never makes the p-percent rule name a cell, nor the prior-posterior
/// rule.
#[tactic(auto, using(crate::proofs::FurtherContributor::further_is_not_named))]
pub fn further_is_not_named()
    ensures { FurtherIsNotNamed }
{}
