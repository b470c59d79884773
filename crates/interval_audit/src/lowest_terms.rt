ghost use Rattle.std.specs.Prelude.{◌≡◌, ◌<◌, ◌≤◌, ◌^◌, ℕ, All, IfOk, pos, neg_ℤ, ◌≤ℤ◌, ◌<ℤ◌, ◌*ℤ◌, unsigned_abs};
ghost use Prim.Native.Nat.{◌∣◌};
ghost use Rattle.interval_audit.specs.LowestTerms.{AreLowestTermsOf, IsCommonDivisor, times_each};

use sdc_base::Memory;
use std::alloc::Global;
use tableau::gcd;

// Numbers over a denominator in lowest terms.
#[derive(Drop)]
pub(crate) struct LowestTerms {
    pub(crate) den: i128,
    pub(crate) terms: Vec<(u32, i128)>,
}

// Numbers over a denominator, brought to lowest terms.
pub(crate) fn lowest_terms_of(
    alloc: Global,
    den: i128,
    terms: &[(u32, i128)],
) -> Result<LowestTerms, Memory>
    requires positive { pos 1 ≤ℤ den }
    requires held { All (λ term. neg_ℤ (pos (2 ^ 127)) <ℤ term.1) terms.now }
    ensures reduced { IfOk result (λ lower. AreLowestTermsOf den terms.now lower.den lower.terms.items) }
    ensures held { IfOk result (λ lower. All (λ term. neg_ℤ (pos (2 ^ 127)) <ℤ term.1) lower.terms.items) }
{
    let by = divisor_of(den, terms);
    let lower = quotient_of(den, by);
    let less = divided_all(alloc, terms, by)?;
    Ok(LowestTerms {
        den: lower,
        terms: less,
    })
}

// The greatest number that divides a denominator and all numbers over it.
fn divisor_of(den: i128, terms: &[(u32, i128)]) -> u128
    requires { pos 1 ≤ℤ den }
    ensures positive { 1 ≤ result }
    ensures divides { IsCommonDivisor result den terms.now }
    ensures greatest { (d : ℕ) → IsCommonDivisor d den terms.now → d ∣ result }
{
    let mut divisor = den.unsigned_abs();
    'terms: for term in terms {
        let size = term.1.unsigned_abs();
        divisor = gcd(divisor, size);
    }
    divisor
}

// Numbers divided by one that divides each of them.
fn divided_all(alloc: Global, terms: &[(u32, i128)], by: u128) -> Result<Vec<(u32, i128)>, Memory>
    requires positive { 1 ≤ by }
    requires divides { All (λ term. by ∣ unsigned_abs term.1) terms.now }
    requires held { All (λ term. neg_ℤ (pos (2 ^ 127)) <ℤ term.1) terms.now }
    ensures each { IfOk result (λ less. terms.now ≡ times_each (pos by) less.items) }
    ensures held { IfOk result (λ less. All (λ term. neg_ℤ (pos (2 ^ 127)) <ℤ term.1) less.items) }
{
    let mut less = Vec::new(alloc);
    'terms: for term in terms {
        let part = quotient_of(term.1, by);
        less.push((term.0, part))?;
    }
    Ok(less)
}

// A number divided by one that divides it.
fn quotient_of(number: i128, by: u128) -> i128
    requires positive { 1 ≤ by }
    requires divides { by ∣ unsigned_abs number }
    requires held { neg_ℤ (pos (2 ^ 127)) <ℤ number }
    ensures value { pos by *ℤ result ≡ number }
    ensures held { neg_ℤ (pos (2 ^ 127)) <ℤ result }
{
    let whole = number.unsigned_abs();
    let size = (whole / by) as i128;
    if number < 0 { -size } else { size }
}
