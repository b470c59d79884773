ghost use Rattle.std.specs.Prelude.{◌≡◌, ◌≢◌, ◌≤◌, pos, ◌≤ℤ◌};
ghost use Rattle.std.specs.Option.{ForSome};
ghost use Rattle.sdc_base.specs.RuleLevels.{figures_of_facts, keep_of};
ghost use Rattle.sdc_base.specs.declared.cell.Kind.TheVariants.{Primary};
ghost use Rattle.primary_rules.specs.Ranges.{AreInRange};
ghost use Rattle.sdc_base.specs.Truths.{IsTruth};
ghost use Rattle.apriori.specs.Priors.{CanBeLevels, AreBounds, IsPriorOf};
ghost use Rattle.apriori.specs.Settling.{view_of_cell};
ghost use Rattle.apriori.specs.CellLevels.{AreOpen, HasLevelsInRange};
ghost use Rattle.apriori.specs.PrimaryShown.{clash_by_kind};
ghost use Rattle.apriori.specs.Settling as spec;
ghost use Rattle.apriori.specs.CellLevels as cell_levels;

use crate::prior::{Prior, Status};
use primary_rules::{level, manual};
use sdc_base::{Cell, CellFacts, Kind, Levels, Rules};

/// What a cell is to its protection.
pub(crate) fn settled_cell(rules: &Rules, facts: &CellFacts, prior: &Prior) -> Cell
    requires in_range { AreInRange rules.now }
    requires truth { IsTruth facts.now.truth }
    requires kept { keep_of rules.now.list ≤ facts.now.tops.keep }
    requires prior { IsPriorOf facts.now prior.now }
    ensures seen { view_of_cell result ≡ spec.settled_cell rules.now (figures_of_facts facts.now) prior.now }
    ensures levels { HasLevelsInRange result }
{
    let low = low_of(facts.truth, prior.bounds);
    let high = high_of(facts.truth, prior.bounds);
    let Some(levels) = primary_levels(rules, facts, prior) else {
        return Cell {
            truth: facts.truth,
            low,
            high,
            up: 0,
            down: 0,
            kind: other_kind(facts, prior),
            price: prior.price,
        };
    };
    Cell {
        truth: facts.truth,
        low,
        high,
        up: levels.up,
        down: levels.down,
        kind: Kind::Primary,
        price: prior.price,
    }
}

/// The line by which a cell is to be always shown, where it is primary.
pub(crate) fn clash_of(cell: &Cell, prior: &Prior) -> Option<(u32, u32)>
    ensures { result ≡ clash_by_kind cell.now.kind prior.now }
{
    match cell.kind {
        Kind::Primary => prior.keep,
        Kind::Fixed => None,
        Kind::Free => None,
    }
}

// What isn't primary is fixed where it has no records or is stated to be always shown, and else free.
fn other_kind(facts: &CellFacts, prior: &Prior) -> Kind
    ensures kind { result ≡ spec.other_kind (figures_of_facts facts.now) prior.now }
    ensures other { result ≢ Primary }
{
    if facts.freq == 0 || prior.keep.is_some() {
        Kind::Fixed
    } else {
        Kind::Free
    }
}

// The levels of a cell where it is primary.
fn primary_levels(rules: &Rules, facts: &CellFacts, prior: &Prior) -> Option<Levels>
    requires in_range { AreInRange rules.now }
    requires truth { IsTruth facts.now.truth }
    requires kept { keep_of rules.now.list ≤ facts.now.tops.keep }
    requires prior { IsPriorOf facts.now prior.now }
    ensures value { result ≡ cell_levels.primary_levels rules.now (figures_of_facts facts.now) prior.now }
    ensures open { ForSome result (AreOpen facts.now.truth) }
{
    let levels = rule_levels(rules, facts, prior.status)?;
    Some(levels_in_force(facts.truth, prior.levels, levels))
}

// The levels that a cell has by the rules where it is primary.
fn rule_levels(rules: &Rules, facts: &CellFacts, status: Option<Status>) -> Option<Levels>
    requires in_range { AreInRange rules.now }
    requires truth { IsTruth facts.now.truth }
    requires kept { keep_of rules.now.list ≤ facts.now.tops.keep }
    ensures value { result ≡ cell_levels.rule_levels rules.now (figures_of_facts facts.now) status }
    ensures open { ForSome result (AreOpen facts.now.truth) }
{
    match status {
        Some(Status::Unsafe) => Some(wider_levels(manual(rules, facts.truth), level(rules, facts))),
        Some(Status::Safe) => None,
        None => level(rules, facts),
    }
}

// The levels with the greater upper one.
fn wider_levels(levels: Levels, others: Option<Levels>) -> Levels
    ensures { result ≡ cell_levels.wider_levels levels others }
{
    match others {
        Some(others) if levels.up < others.up => others,
        _ => levels,
    }
}

// The levels that are stated of a primary cell, else those that it has by the rules.
fn levels_in_force(truth: i128, stated: Option<Levels>, levels: Levels) -> Levels
    requires truth { IsTruth truth }
    requires stated { ForSome stated CanBeLevels }
    requires levels { AreOpen truth levels }
    ensures value { result ≡ cell_levels.levels_in_force truth stated levels }
    ensures open { AreOpen truth result }
{
    match stated {
        Some(stated) => cut_at(truth, stated),
        None => levels,
    }
}

// Levels with the lower one at most the truth.
fn cut_at(truth: i128, levels: Levels) -> Levels
    requires truth { IsTruth truth }
    requires levels { CanBeLevels levels }
    ensures value { result ≡ cell_levels.cut_at truth levels }
    ensures open { AreOpen truth result }
{
    Levels {
        up: levels.up,
        down: if truth < levels.down {
            truth
        } else {
            levels.down
        },
    }
}

// What an attacker knows that a cell is at least: where nothing is stated, that it isn't below 0.
fn low_of(truth: i128, bounds: Option<(i128, i128)>) -> i128
    requires truth { IsTruth truth }
    requires bounds { ForSome bounds (AreBounds truth) }
    ensures value { result ≡ spec.low_of bounds }
    ensures from_zero { pos 0 ≤ℤ result }
    ensures within { result ≤ℤ truth }
{
    let Some(bounds) = bounds else {
        return 0;
    };
    bounds.0
}

// What an attacker knows that a cell is at most, where anything is known.
fn high_of(truth: i128, bounds: Option<(i128, i128)>) -> Option<i128>
    requires bounds { ForSome bounds (AreBounds truth) }
    ensures value { result ≡ spec.high_of bounds }
    ensures beyond { ForSome result (λ high. truth ≤ℤ high) }
{
    match bounds {
        Some(bounds) => Some(bounds.1),
        None => None,
    }
}
