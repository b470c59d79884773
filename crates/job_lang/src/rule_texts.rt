ghost use Rattle.std.specs.Prelude.{◌≡◌, ◌<◌, ◌≤◌, ◌^◌, length, IfOk};
ghost use Rattle.sdc_base.specs.Answers.{Gives};
ghost use Rattle.job_lang.specs.Faults.{fault_itself};
ghost use Rattle.job_lang.specs.RuleClauses.{percent_behind};
ghost use Rattle.job_lang.specs.RuleClauses as spec;

use crate::cursor::{Cursor, at_front};
use crate::faults::JobWhy;
use crate::keywords::spells;
use crate::rule_clauses::RuleClause;
use sdc_base::Rule;

/// The number in parentheses that is all that is left, where it is in these bounds.
#[tactic(auto, unfolding(crate::specs::RuleClauses::one_number))]
pub(crate) fn one_number(low: u64, high: u64, cursor: &mut Cursor) -> Result<u64, JobWhy>
    requires { high < 10 ^ 18 }
    ensures exact { Gives fault_itself (λ number. number) result (spec.one_number low high cursor.old) }
    ensures within { IfOk result (λ number. (low ≤ number) × (number ≤ high)) }
{
    cursor.mark(b'(')?;
    let number = cursor.number(low, high)?;
    cursor.close()?;
    Ok(number)
}

/// One rule, its word in letters of any case.
#[tactic(auto, unfolding(crate::specs::RuleClauses::clause_in))]
pub(crate) fn clause_in(text: &[u8]) -> Result<RuleClause, JobWhy>
    ensures { Gives fault_itself (λ one. one) result (spec.clause_in text.now) }
{
    let mut cursor = at_front(text);
    let word = cursor.run();
    if spells(word, b"FREQ") {
        return frequency_clause(&mut cursor);
    }
    if spells(word, b"NK") {
        return dominance_clause(&mut cursor);
    }
    if spells(word, b"P") {
        return percent_clause(&mut cursor);
    }
    if spells(word, b"PQ") {
        return prior_posterior_clause(&mut cursor);
    }
    if spells(word, b"ZERO") {
        return zero_clause(&mut cursor);
    }
    if spells(word, b"MAN") {
        return man_clause(&mut cursor);
    }
    if spells(word, b"WGT") {
        return weights_clause(&mut cursor);
    }
    Err(JobWhy::BadValue)
}

// The numbers of FREQ.
#[tactic(auto, unfolding(crate::specs::RuleClauses::frequency_clause))]
fn frequency_clause(cursor: &mut Cursor) -> Result<RuleClause, JobWhy>
    ensures { Gives fault_itself (λ one. one) result (spec.frequency_clause cursor.old) }
{
    cursor.mark(b'(')?;
    let n = cursor.number(1, 1_000_000)?;
    cursor.mark(b',')?;
    let r = cursor.number(0, 1000)?;
    cursor.close()?;
    Ok(RuleClause::Named(Rule::Freq {
        n: n as u32,
        r: r as u32,
    }))
}

// The numbers of NK.
#[tactic(auto, unfolding(crate::specs::RuleClauses::dominance_clause))]
fn dominance_clause(cursor: &mut Cursor) -> Result<RuleClause, JobWhy>
    ensures { Gives fault_itself (λ one. one) result (spec.dominance_clause cursor.old) }
{
    cursor.mark(b'(')?;
    let n = cursor.number(1, 10)?;
    cursor.mark(b',')?;
    let k = cursor.number(1, 100)?;
    cursor.close()?;
    Ok(RuleClause::Named(Rule::Nk {
        n: n as u8,
        k: k as u32,
    }))
}

// The 1 that may stand behind the number of P, and the end.
#[tactic(auto, unfolding(crate::specs::RuleClauses::further_one))]
fn further_one(cursor: &mut Cursor) -> Result<(), JobWhy>
    ensures { Gives fault_itself (λ fine. fine) result (spec.further_one cursor.old) }
{
    cursor.mark(b',')?;
    cursor.number(1, 1)?;
    cursor.close()
}

// What stands behind the number of P.
fn percent_end(cursor: &mut Cursor) -> Result<(), JobWhy>
    ensures { Gives fault_itself (λ fine. fine) result (percent_behind cursor.old) }
{
    if cursor.is_next(b',') {
        return further_one(cursor);
    }
    cursor.close()
}

// The number of P.
#[tactic(auto, unfolding(crate::specs::RuleClauses::percent_clause))]
fn percent_clause(cursor: &mut Cursor) -> Result<RuleClause, JobWhy>
    ensures { Gives fault_itself (λ one. one) result (spec.percent_clause cursor.old) }
{
    cursor.mark(b'(')?;
    let p = cursor.number(1, 1000)?;
    percent_end(cursor)?;
    Ok(RuleClause::Named(Rule::Percent(p as u32)))
}

// The numbers of PQ.
#[tactic(auto, unfolding(crate::specs::RuleClauses::prior_posterior_clause))]
fn prior_posterior_clause(cursor: &mut Cursor) -> Result<RuleClause, JobWhy>
    ensures { Gives fault_itself (λ one. one) result (spec.prior_posterior_clause cursor.old) }
{
    cursor.mark(b'(')?;
    let p = cursor.number(1, 1000)?;
    cursor.mark(b',')?;
    let q = cursor.number(1, 1000)?;
    cursor.close()?;
    Ok(RuleClause::Named(Rule::Pq {
        p: p as u32,
        q: q as u32,
    }))
}

// The number of ZERO.
#[tactic(auto, unfolding(crate::specs::RuleClauses::zero_clause))]
fn zero_clause(cursor: &mut Cursor) -> Result<RuleClause, JobWhy>
    ensures { Gives fault_itself (λ one. one) result (spec.zero_clause cursor.old) }
{
    let r = one_number(1, 1_000_000_000, cursor)?;
    Ok(RuleClause::Named(Rule::Zero(r as u32)))
}

// The number of MAN.
#[tactic(auto, unfolding(crate::specs::RuleClauses::man_clause))]
fn man_clause(cursor: &mut Cursor) -> Result<RuleClause, JobWhy>
    ensures { Gives fault_itself (λ one. one) result (spec.man_clause cursor.old) }
{
    let r = one_number(0, 1000, cursor)?;
    Ok(RuleClause::Man(r as u32))
}

// The flag of WGT.
#[tactic(auto, unfolding(crate::specs::RuleClauses::weights_clause))]
fn weights_clause(cursor: &mut Cursor) -> Result<RuleClause, JobWhy>
    ensures { Gives fault_itself (λ one. one) result (spec.weights_clause cursor.old) }
{
    let flag = one_number(0, 1, cursor)?;
    Ok(RuleClause::Weights(flag == 1))
}
