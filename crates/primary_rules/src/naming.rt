ghost use Rattle.std.specs.Prelude.{◌≡◌, ◌^◌, pos, neg_ℤ, ◌≤ℤ◌};
ghost use Rattle.std.specs.Option.{ForSome};
ghost use Rattle.sdc_base.specs.RuleLevels.{figures_of_facts, rest_beside_two};
ghost use Rattle.sdc_base.specs.declared.rule.Rule.TheVariants as rule;
ghost use Rattle.primary_rules.specs.Ranges.{IsInRange, IsUpper};
ghost use Rattle.sdc_base.specs.Truths.{IsTruth};
ghost use Rattle.primary_rules.specs.OneRule.{up_by};

use crate::quotient::{excess, hundredths, up_from};
use sdc_base::{CellFacts, Rule, is_too_few};

/// The upper level of a cell that the rule names.
pub(crate) fn up_under(rule: Rule, facts: &CellFacts) -> Option<i128>
    requires in_range { IsInRange rule }
    requires truth { IsTruth facts.now.truth }
    ensures level { ForSome result IsUpper }
    ensures value { result ≡ up_by rule (figures_of_facts facts.now) }
{
    match rule {
        Rule::Freq { n, r } => by_frequency(n, r, facts),
        Rule::Nk { n, k } => by_dominance(n, k, facts),
        Rule::Percent(p) => by_percent(p, facts),
        Rule::Pq { p, q } => by_prior_posterior(p, q, facts),
        Rule::Zero(r) => by_zero(r, facts),
    }
}

// By the frequency rule.
fn by_frequency(n: u32, r: u32, facts: &CellFacts) -> Option<i128>
    requires in_range { IsInRange (rule.Freq n r) }
    requires truth { IsTruth facts.now.truth }
    ensures level { ForSome result IsUpper }
    ensures value { result ≡ up_by (rule.Freq n r) (figures_of_facts facts.now) }
{
    if is_too_few(facts.freq, n) {
        Some(up_from(hundredths(r, facts.truth), 100))
    } else {
        None
    }
}

// By the dominance rule.
fn by_dominance(n: u8, k: u32, facts: &CellFacts) -> Option<i128>
    requires in_range { IsInRange (rule.Nk n k) }
    requires truth { IsTruth facts.now.truth }
    ensures level { ForSome result IsUpper }
    ensures value { result ≡ up_by (rule.Nk n k) (figures_of_facts facts.now) }
{
    let largest = hundredths(100, facts.tops.sum_of_largest(n));
    let bound = hundredths(k, facts.truth);
    excess(largest, bound, k)
}

// By the p-percent rule.
fn by_percent(p: u32, facts: &CellFacts) -> Option<i128>
    requires in_range { IsInRange (rule.Percent p) }
    requires truth { IsTruth facts.now.truth }
    ensures level { ForSome result IsUpper }
    ensures value { result ≡ up_by (rule.Percent p) (figures_of_facts facts.now) }
{
    let rest = hundredths(100, rest_of(facts));
    let bound = hundredths(p, facts.tops.sum_of_largest(1));
    excess(bound, rest, 100)
}

// By the prior-posterior rule.
fn by_prior_posterior(p: u32, q: u32, facts: &CellFacts) -> Option<i128>
    requires in_range { IsInRange (rule.Pq p q) }
    requires truth { IsTruth facts.now.truth }
    ensures level { ForSome result IsUpper }
    ensures value { result ≡ up_by (rule.Pq p q) (figures_of_facts facts.now) }
{
    let rest = hundredths(q, rest_of(facts));
    let bound = hundredths(p, facts.tops.sum_of_largest(1));
    excess(bound, rest, q)
}

// By the rule on zeros.
fn by_zero(r: u32, facts: &CellFacts) -> Option<i128>
    requires in_range { IsInRange (rule.Zero r) }
    requires truth { IsTruth facts.now.truth }
    ensures level { ForSome result IsUpper }
    ensures value { result ≡ up_by (rule.Zero r) (figures_of_facts facts.now) }
{
    if facts.freq >= 1 && facts.truth == 0 {
        Some(up_from(i128::from(r), 1))
    } else {
        None
    }
}

// What the truth has beside the two largest contributions.
fn rest_of(facts: &CellFacts) -> i128
    requires truth { IsTruth facts.now.truth }
    ensures value { result ≡ rest_beside_two (figures_of_facts facts.now) }
    ensures low { neg_ℤ (pos (2 ^ 80)) ≤ℤ result }
    ensures high { result ≤ℤ pos (2 ^ 100) }
{
    facts.truth - facts.tops.sum_of_largest(2)
}
