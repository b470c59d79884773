ghost use Rattle.std.specs.Prelude.{◌≡◌, ◌≤◌, List, All, pos, ◌≤ℤ◌};
ghost use Rattle.std.specs.Option.{ForSome};
ghost use Rattle.sdc_base.specs.Trees.{Tree};
ghost use Rattle.sdc_base.specs.Records.{Name};
ghost use Rattle.sdc_base.specs.declared.rows.Row.{Row};
ghost use Rattle.sdc_base.specs.RuleLevels.{figures_of_facts, figures_in, upper_of, level_of, manual_of, keep_of, looks_at, levels_up_to};
ghost use Rattle.primary_rules.specs.Ranges.{IsInRange, AreInRange, IsUpper, AreLevels};
ghost use Rattle.sdc_base.specs.Truths.{IsTruth};
ghost use Rattle.primary_rules.specs.OneRule.{greater_of};
ghost use Rattle.primary_rules.specs.EnoughForRules.{AreFactsOf};

use crate::naming::up_under;
use crate::quotient::{hundredths, up_from};
use sdc_base::{CellFacts, Levels, Rule, Rules};

/// The levels of a cell by the rules, in units; none exactly where no rule names the cell.
///
/// The frequency rule `FREQ(n,r)` names a cell with a record and fewer than `n`, and wants it `r` percent of the truth
/// open upwards. The dominance rule `NK(n,k)` names a cell where `100 * T > k * X`, with the truth `X` and the sum `T`
/// over the `n` largest contributions, and wants `100 * T / k - X`. The p-percent rule `P(p)` names a cell where `100 *
/// R < p * x`, with the largest contribution `x` and the rest `R` of the truth beside the two largest, and wants `p * x
/// / 100 - R`. The prior-posterior rule `PQ(p,q)` names a cell where `q * R < p * x`, and wants `p * x / q - R`. The
/// rule on zeros `ZERO(r)` names a cell with a record and truth 0, and wants `r` units. What a rule wants is rounded up
/// to a unit and at least 1; the greatest of the rules that name the cell is the upper level, and the lesser of it and
/// the truth the lower one.
///
/// The rules must be in their ranges, the truth from 0 to `10^29` units, and the facts must keep at least [`keep`]
/// contributions. Where the facts are those of a cell over records, so are the levels. Nothing is refused, and no
/// memory is taken. It takes time in proportion to the rules times the contributions that are kept.
///
/// The rules and what they want are the handbook's (sensitivity rules); the rule on zeros, rounding and the lower level
/// are this project's own.
pub fn level(rules: &Rules, facts: &CellFacts) -> Option<Levels>
    requires in_range { AreInRange rules.now }
    requires truth { IsTruth facts.now.truth }
    requires kept { keep_of rules.now.list ≤ facts.now.tops.keep }
    ensures levels { ForSome result (AreLevels facts.now.truth) }
    ensures told { result ≡ level_of rules.now.list (figures_of_facts facts.now) }
    ensures over_records { (trees : List Tree) (name : Name) (rows : List Row) → AreFactsOf facts.now trees name rows
        → result ≡ level_of rules.now.list (figures_in trees name rows facts.now.tops.scale) }
{
    levels_by(rules.list.as_slice(), facts)
}

// The levels of a cell by these rules.
fn levels_by(rules: &[Rule], facts: &CellFacts) -> Option<Levels>
    requires in_range { All IsInRange rules.now }
    requires truth { IsTruth facts.now.truth }
    ensures levels { ForSome result (AreLevels facts.now.truth) }
    ensures value { result ≡ level_of rules.now (figures_of_facts facts.now) }
{
    let up = greatest(rules, facts)?;
    Some(up_to(up, facts.truth))
}

// The greatest upper level of the rules that name the cell.
fn greatest(rules: &[Rule], facts: &CellFacts) -> Option<i128>
    requires in_range { All IsInRange rules.now }
    requires truth { IsTruth facts.now.truth }
    ensures level { ForSome result IsUpper }
    ensures value { result ≡ upper_of rules.now (figures_of_facts facts.now) }
{
    let mut most = None;
    for rule in rules {
        most = greater(most, up_under(*rule, facts));
    }
    most
}

// The greater of two levels that may be there.
fn greater(one: Option<i128>, other: Option<i128>) -> Option<i128>
    requires one { ForSome one IsUpper }
    requires other { ForSome other IsUpper }
    ensures level { ForSome result IsUpper }
    ensures value { result ≡ greater_of one other }
{
    let Some(n) = one else { return other };
    let Some(m) = other else { return one };
    Some(if n < m { m } else { n })
}

/// The levels of a cell of this truth that is declared unsafe, in units: `man` percent of the truth, rounded up to a
/// unit and at least 1, and the lesser of that and the truth.
///
/// The rules must be in their ranges, and the truth from 0 to `10^29` units. Nothing is refused, and no memory is
/// taken. It takes the same time for all truths.
///
/// The percentage is that of `MAN` in a job, 20 where there is none (this project's own default).
pub fn manual(rules: &Rules, truth: i128) -> Levels
    requires in_range { AreInRange rules.now }
    requires truth { IsTruth truth }
    ensures levels { AreLevels truth result }
    ensures value { result ≡ manual_of rules.now.man truth }
{
    up_to(up_from(hundredths(rules.man, truth), 100), truth)
}

// The levels with this upper one.
fn up_to(up: i128, truth: i128) -> Levels
    requires up { IsUpper up }
    requires truth { pos 0 ≤ℤ truth }
    ensures levels { AreLevels truth result }
    ensures value { result ≡ levels_up_to truth up }
{
    Levels {
        up,
        down: if up < truth { up } else { truth },
    }
}

/// How many of the largest contributions the rules look at: the greatest `n` of the dominance rules, and 2 at least,
/// from 2 to 10. Facts that keep so many are enough for [`level`].
///
/// The rules must be in their ranges. Nothing is refused, and no memory is taken. It takes time in proportion to the
/// rules.
///
/// The two are those of the handbook's p-percent rule; to keep two for every other rule too is this project's own.
pub fn keep(rules: &Rules) -> u8
    requires in_range { AreInRange rules.now }
    ensures value { result ≡ keep_of rules.now.list }
    ensures at_least_two { 2 ≤ result }
    ensures at_most_ten { result ≤ 10 }
{
    let mut most = 2;
    for rule in rules.list.as_slice() {
        most = most.max(needed_units(*rule));
    }
    most
}

// How many of the largest contributions a rule looks at.
fn needed_units(rule: Rule) -> u8
    requires { IsInRange rule }
    ensures value { result ≡ looks_at rule }
    ensures at_most_ten { result ≤ 10 }
{
    match rule {
        Rule::Nk { n, .. } => n,
        _ => 2,
    }
}
