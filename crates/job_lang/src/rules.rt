ghost use Rattle.std.specs.Prelude.{◌≡◌, ◌≤◌, length};
ghost use Rattle.std.specs.List.{count_by};
ghost use Rattle.sdc_base.specs.Answers.{Gives};
ghost use Rattle.plain_text.specs.Stops.{why_of};
ghost use Rattle.job_lang.specs.Pieces.{pieces};
ghost use Rattle.job_lang.specs.RuleTexts.{named_in};
ghost use Rattle.job_lang.specs.RuleTexts as spec;
ghost use Rattle.job_lang.specs.RuleClauses as rule_clauses;

use crate::faults::JobWhy;
use crate::pieces::pieces_in;
use crate::rule_clauses::RuleClause;
use crate::rule_texts::clause_in;
use arrayvec::ArrayVec;
use plain_text::Stop;
use sdc_base::{Few, Items, Rule, Rules};
use std::alloc::Global;

/// The rules that a text joins by bars.
#[tactic(auto, unfolding(crate::specs::RuleTexts::rules_in))]
pub(crate) fn rules_in(alloc: Global, text: &[u8]) -> Result<Rules, Stop<JobWhy>>
    ensures { Gives why_of (λ rules. rules) result (spec.rules_in text.now) }
{
    let clauses = clauses_in(alloc, text)?;
    let clauses = clauses.as_slice();
    if !are_rules(clauses) {
        return Err(Stop::Fault(JobWhy::BadValue));
    }
    Ok(Rules {
        list: named_rules(clauses),
        man: man_of(clauses),
        weighted: weighted_of(clauses),
    })
}

// Each piece of a text as a rule.
fn clauses_in(alloc: Global, text: &[u8]) -> Result<Items<RuleClause>, Stop<JobWhy>>
    ensures { Gives why_of (λ clauses. clauses) result (rule_clauses.clauses_in (pieces text.now)) }
{
    let mut pieces = pieces_in(text);
    let mut clauses = Items::empty(alloc);
    'pieces: while let Some(piece) = pieces.next_piece() {
        let clause = match clause_in(piece) {
            Ok(clause) => clause,
            Err(why) => return Err(Stop::Fault(why)),
        };
        clauses.push(clause)?;
    }
    Ok(clauses)
}

// Whether it is a rule on frequencies.
fn is_frequency(clause: &RuleClause) -> bool
    ensures { result ≡ spec.is_frequency clause.now }
{
    match clause {
        RuleClause::Named(Rule::Freq { .. }) => true,
        _ => false,
    }
}

// Whether it is a rule on zeros.
fn is_zero(clause: &RuleClause) -> bool
    ensures { result ≡ spec.is_zero clause.now }
{
    match clause {
        RuleClause::Named(Rule::Zero(_)) => true,
        _ => false,
    }
}

// Whether it is the level of cells that are declared unsafe.
fn is_man(clause: &RuleClause) -> bool
    ensures { result ≡ spec.is_man clause.now }
{
    match clause {
        RuleClause::Man(_) => true,
        _ => false,
    }
}

// Whether it says if records have weights.
fn is_weights(clause: &RuleClause) -> bool
    ensures { result ≡ spec.is_weights clause.now }
{
    match clause {
        RuleClause::Weights(_) => true,
        _ => false,
    }
}

// How many are rules on frequencies.
fn frequency_count(clauses: &[RuleClause]) -> usize
    ensures { result ≡ count_by spec.is_frequency clauses.now }
{
    clauses.iter().filter(|c| is_frequency(c)).count()
}

// How many are rules on zeros.
fn zero_count(clauses: &[RuleClause]) -> usize
    ensures { result ≡ count_by spec.is_zero clauses.now }
{
    clauses.iter().filter(|c| is_zero(c)).count()
}

// How many are levels of cells that are declared unsafe.
fn man_count(clauses: &[RuleClause]) -> usize
    ensures { result ≡ count_by spec.is_man clauses.now }
{
    clauses.iter().filter(|c| is_man(c)).count()
}

// How many say if records have weights.
fn weights_count(clauses: &[RuleClause]) -> usize
    ensures { result ≡ count_by spec.is_weights clauses.now }
{
    clauses.iter().filter(|c| is_weights(c)).count()
}

// How many name cells.
fn named_count(clauses: &[RuleClause]) -> usize
    ensures { result ≡ length (named_in clauses.now) }
{
    let mut count = 0;
    for clause in clauses {
        if let RuleClause::Named(_) = clause {
            count += 1;
        }
    }
    count
}

// One to eight rules that name cells, at most one of them on frequencies and one on zeros, and at most one MAN and one
// WGT.
fn are_rules(clauses: &[RuleClause]) -> bool
    ensures { result ≡ spec.are_rules clauses.now }
{
    let named = named_count(clauses);
    0 < named
        && named < 9
        && frequency_count(clauses) < 2
        && zero_count(clauses) < 2
        && man_count(clauses) < 2
        && weights_count(clauses) < 2
}

// The rules that name cells.
fn named_rules(clauses: &[RuleClause]) -> Few<Rule, 8>
    requires { length (named_in clauses.now) ≤ 8 }
    ensures { result ≡ named_in clauses.now }
{
    let mut rules = ArrayVec::new();
    for clause in clauses {
        if let RuleClause::Named(rule) = clause {
            rules.push(*rule);
        }
    }
    Few::new(rules)
}

// The level of cells that are declared unsafe, 20 where no rule says so.
fn man_of(clauses: &[RuleClause]) -> u32
    ensures { result ≡ spec.man_of clauses.now }
{
    for clause in clauses {
        if let RuleClause::Man(r) = clause {
            return *r;
        }
    }
    20
}

// Whether records have weights; they have none where no rule says so.
fn weighted_of(clauses: &[RuleClause]) -> bool
    ensures { result ≡ spec.weighted_of clauses.now }
{
    for clause in clauses {
        if let RuleClause::Weights(flag) = clause {
            return *flag;
        }
    }
    false
}
