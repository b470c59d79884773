ghost use Rattle.std.specs.Prelude.{◌≡◌, ◌≤◌, ◌++◌, ◌∷◌, [], All, IfOk, OnOk};
ghost use Rattle.sdc_base.specs.RuleLevels.{figures_of_facts, keep_of, is_sensitive_by};
ghost use Rattle.sdc_base.specs.Truths.{IsTruth};
ghost use Rattle.primary_rules.specs.Ranges.{IsInRange};
ghost use Rattle.cell_listing.specs.Columns.{spaced};
ghost use Rattle.cell_listing.specs.Reasons as spec;

use crate::words::{add_spaced, add_word};
use primary_rules::level;
use sdc_base::{CellFacts, Few, Items, Kind, Memory, Rule, Rules, Text};
use std::alloc::Global;

/// Puts what names a cell behind the fields that are there: the words of rules, or `u` where it is primary though no rule
/// names it.
pub(crate) fn add_reasons(
    alloc: Global,
    fields: &mut Items<Text>,
    rules: &[Rule],
    kind: Kind,
    facts: &CellFacts,
) -> Result<(), Memory>
    requires in_range { All IsInRange rules.now }
    requires truth { IsTruth facts.now.truth }
    requires kept { All (λ one. keep_of (one ∷ []) ≤ facts.now.tops.keep) rules.now }
    ensures { OnOk result (fields.new
        ≡ fields.old ++ spaced (spec.reasons rules.now kind (figures_of_facts facts.now)) ∷ []) }
{
    let why = reasons(alloc, rules, kind, facts)?;
    add_spaced(alloc, fields, why.as_slice())
}

// What names a cell, word by word.
fn reasons(
    alloc: Global,
    rules: &[Rule],
    kind: Kind,
    facts: &CellFacts,
) -> Result<Items<Text>, Memory>
    requires in_range { All IsInRange rules.now }
    requires truth { IsTruth facts.now.truth }
    requires kept { All (λ one. keep_of (one ∷ []) ≤ facts.now.tops.keep) rules.now }
    ensures { IfOk result (λ words. words ≡ spec.reasons rules.now kind (figures_of_facts facts.now)) }
{
    let words = naming_words(alloc, rules, facts)?;
    with_stated(alloc, kind, words)
}

// The words, and `u` where there are none though the cell is primary.
fn with_stated(alloc: Global, kind: Kind, words: Items<Text>) -> Result<Items<Text>, Memory>
    ensures { IfOk result (λ all. all ≡ spec.with_stated kind words) }
{
    if !kind.is_primary() || !words.as_slice().is_empty() {
        return Ok(words);
    }
    let mut stated = Items::empty(alloc);
    add_word(alloc, &mut stated, b"u")?;
    Ok(stated)
}

// The words of the rules that name a cell with these facts.
fn naming_words(alloc: Global, rules: &[Rule], facts: &CellFacts) -> Result<Items<Text>, Memory>
    requires in_range { All IsInRange rules.now }
    requires truth { IsTruth facts.now.truth }
    requires kept { All (λ one. keep_of (one ∷ []) ≤ facts.now.tops.keep) rules.now }
    ensures { IfOk result (λ words. words ≡ spec.naming_words rules.now (figures_of_facts facts.now)) }
{
    let mut words = Items::empty(alloc);
    'rules: for rule in rules {
        add_naming(alloc, rule, facts, &mut words)?;
    }
    Ok(words)
}

// Adds the word of a rule, where it names a cell with these facts.
#[tactic(auto, using(crate::proofs::Naming::one_word, crate::proofs::Naming::no_word))]
fn add_naming(
    alloc: Global,
    rule: &Rule,
    facts: &CellFacts,
    words: &mut Items<Text>,
) -> Result<(), Memory>
    requires in_range { IsInRange rule.now }
    requires truth { IsTruth facts.now.truth }
    requires kept { keep_of (rule.now ∷ []) ≤ facts.now.tops.keep }
    ensures { OnOk result (words.new ≡ words.old ++ spec.naming_words (rule.now ∷ []) (figures_of_facts facts.now)) }
{
    if is_naming(*rule, facts) {
        add_word(alloc, words, rule_word(*rule))?;
    }
    Ok(())
}

// Whether a rule names a cell with these facts: it alone gives it levels.
#[tactic(auto, using(crate::proofs::Naming::alone_names))]
fn is_naming(rule: Rule, facts: &CellFacts) -> bool
    requires in_range { IsInRange rule }
    requires truth { IsTruth facts.now.truth }
    requires kept { keep_of (rule ∷ []) ≤ facts.now.tops.keep }
    ensures { result ≡ is_sensitive_by rule (figures_of_facts facts.now) }
{
    let alone = Rules {
        list: Few::of(&[rule]),
        man: 0,
        weighted: false,
    };
    level(&alone, facts).is_some()
}

// The word of a rule.
fn rule_word(rule: Rule) -> &'static [u8]
    ensures { result.now ≡ spec.rule_word rule }
{
    match rule {
        Rule::Freq { .. } => b"FREQ",
        Rule::Nk { .. } => b"NK",
        Rule::Percent(_) => b"P",
        Rule::Pq { .. } => b"PQ",
        Rule::Zero(_) => b"ZERO",
    }
}

/// The word of a kind.
pub(crate) fn kind_word(kind: Kind) -> &'static [u8]
    ensures { result.now ≡ spec.kind_word kind }
{
    match kind {
        Kind::Primary => b"primary",
        Kind::Free => b"free",
        Kind::Fixed => b"fixed",
    }
}
