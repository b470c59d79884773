ghost use Rattle.std.specs.Prelude.{◌≡◌, ◌≤◌, ◌-◌, ◌^◌, IfOk, IfSome, FitsSigned, option_map, map, pos, neg_ℤ};
ghost use Rattle.std.specs.Int.{w128};
ghost use Rattle.sdc_base.specs.Answers.{Gives};
ghost use Rattle.certificate.specs.Faults.{fault_itself};
ghost use Rattle.certificate.specs.Numerals as numerals;

use crate::faults::CertWhy;
use crate::pieces::begins_with;
use plain_text::{number_in, wide_number_in};

// The greatest number of a cell, a relation, a place or a table.
const MOST: u64 = 4_294_967_295;

// The greatest whole number of 128 bits.
const GREATEST: u128 = 170_141_183_460_469_231_731_687_303_715_884_105_727;

// Whether a zero stands in front of other digits.
fn is_padded(token: &[u8]) -> bool
    ensures { result ≡ numerals.is_padded token.now }
{
    token.len() > 1 && begins_with(b'0', token)
}

// The number of a cell, a relation, a place or a table, from `low` on, that the token spells.
fn natural_in(low: u64, token: &[u8]) -> Option<u32>
    ensures value { result ≡ numerals.natural_in low (2 ^ 32 - 1) token.now }
    ensures within { IfSome result (λ n. low ≤ n) }
{
    if is_padded(token) {
        return None;
    }
    let number = number_in(low, MOST, token)?;
    Some(number as u32)
}

// The number up to `high` that the token spells.
fn wide_in(low: u128, high: u128, token: &[u8]) -> Option<u128>
    requires { high ≤ 2 ^ 127 }
    ensures value { result ≡ numerals.natural_in low high token.now }
    ensures within { IfSome result (λ n. (low ≤ n) × (n ≤ high)) }
{
    if is_padded(token) {
        return None;
    }
    wide_number_in(low, high, token)
}

// The number below 0 whose digits the token is.
fn negative_in(token: &[u8]) -> Option<i128>
    ensures { result ≡ option_map (λ n. neg_ℤ (pos n)) (numerals.natural_in 1 (2 ^ 127) token.now) }
{
    let number = wide_in(1, GREATEST + 1, token)?;
    Some(-1 - (number - 1) as i128)
}

// The number from `low` on whose digits the token is.
fn positive_in(low: u128, token: &[u8]) -> Option<i128>
    ensures { result ≡ option_map (λ n. pos n) (numerals.natural_in low (2 ^ 127 - 1) token.now) }
{
    let number = wide_in(low, GREATEST, token)?;
    Some(number as i128)
}

// The whole number of 128 bits that the token spells.
fn integer_in(token: &[u8]) -> Option<i128>
    ensures { result ≡ numerals.integer_in token.now }
{
    if begins_with(b'-', token) {
        return negative_in(&token[1..]);
    }
    positive_in(0, token)
}

/// A number of a cell, a relation, a place or a table, from `low` on.
pub(crate) fn natural_of(low: u64, token: &[u8]) -> Result<u32, CertWhy>
    ensures exact { Gives fault_itself (λ number. number) result (numerals.natural_of low token.now) }
    ensures within { IfOk result (λ number. low ≤ number) }
{
    let Some(number) = natural_in(low, token) else {
        return Err(CertWhy::Number);
    };
    Ok(number)
}

/// A whole number of 128 bits.
pub(crate) fn integer_of(token: &[u8]) -> Result<i128, CertWhy>
    ensures { Gives fault_itself (λ number. number) result (numerals.integer_of token.now) }
{
    let Some(number) = integer_in(token) else {
        return Err(CertWhy::Number);
    };
    Ok(number)
}

/// A denominator.
pub(crate) fn denominator_of(token: &[u8]) -> Result<i128, CertWhy>
    ensures exact { Gives fault_itself (λ number. number) result (numerals.denominator_of token.now) }
    ensures fits { IfOk result (λ number. FitsSigned w128 number) }
{
    let Some(number) = positive_in(1, token) else {
        return Err(CertWhy::Number);
    };
    Ok(number)
}

/// Whether each number is above those before it.
pub(crate) fn ascends(numbers: &[u32]) -> bool
    ensures { result ≡ numerals.ascends numbers.now }
{
    let mut least = 0;
    'numbers: for number in numbers {
        if u64::from(*number) < least {
            return false;
        }
        least = u64::from(*number) + 1;
    }
    true
}

/// Whether each number of a relation is above those before it.
pub(crate) fn are_ascending(terms: &[(u32, i128)]) -> bool
    ensures { result ≡ numerals.ascends (map (λ term. term.0) terms.now) }
{
    let mut least = 0;
    'terms: for term in terms {
        if u64::from(term.0) < least {
            return false;
        }
        least = u64::from(term.0) + 1;
    }
    true
}
