ghost use Rattle.std.specs.Prelude.{◌≡◌, ◌*◌, ◌<◌, ◌≤◌, pos, ◌*ℤ◌, ◌<ℤ◌, ◌-ℤ◌, neg_ℤ, ◌^◌, true, IfSome, IfNone};
ghost use Rattle.std.specs.Ordering.{nat_cmp};
ghost use Rattle.tableau.specs.Widths.{is_wide};

use std::cmp::Ordering;

// How one product stands to another, however wide both are.
fn compare_naturals(one: u128, times: u128, other: u128, other_times: u128) -> Ordering
    requires times { 0 < times }
    requires other_times { 0 < other_times }
    ensures { result ≡ nat_cmp (one * times) (other * other_times) }
{
    let mut x = one;
    let mut p = times;
    let mut y = other;
    let mut q = other_times;
    'divide: loop {
        let whole = x / q;
        let other_whole = y / p;
        if whole != other_whole {
            return whole.cmp(&other_whole);
        }
        let rest = x % q;
        let other_rest = y % p;
        if rest == 0 {
            return rest.cmp(&other_rest);
        }
        if other_rest == 0 {
            return rest.cmp(&other_rest);
        }
        x = p;
        y = q;
        p = rest;
        q = other_rest;
    }
}

// How one product stands to another; the second factors are above 0.
pub(crate) fn compare_products(one: i128, times: i128, other: i128, other_times: i128) -> Ordering
    requires times { pos 0 <ℤ times }
    requires other_times { pos 0 <ℤ other_times }
    ensures less { result ≡ Ordering.Less → (one *ℤ times) <ℤ (other *ℤ other_times) }
    ensures equal { result ≡ Ordering.Equal → one *ℤ times ≡ other *ℤ other_times }
    ensures greater { result ≡ Ordering.Greater → (other *ℤ other_times) <ℤ (one *ℤ times) }
{
    let Some(product) = narrow_product(one, times) else {
        return compare_wide(one, times, other, other_times);
    };
    let Some(other_product) = narrow_product(other, other_times) else {
        return compare_wide(one, times, other, other_times);
    };
    if product < other_product {
        return Ordering::Less;
    }
    if other_product < product {
        return Ordering::Greater;
    }
    Ordering::Equal
}

// How one product stands to another, however wide both are; the second factors are above 0.
fn compare_wide(one: i128, times: i128, other: i128, other_times: i128) -> Ordering
    requires times { pos 0 <ℤ times }
    requires other_times { pos 0 <ℤ other_times }
    ensures less { result ≡ Ordering.Less → (one *ℤ times) <ℤ (other *ℤ other_times) }
    ensures equal { result ≡ Ordering.Equal → one *ℤ times ≡ other *ℤ other_times }
    ensures greater { result ≡ Ordering.Greater → (other *ℤ other_times) <ℤ (one *ℤ times) }
{
    if one < 0 {
        if other < 0 {
            return compare_naturals(
                other.unsigned_abs(),
                other_times as u128,
                one.unsigned_abs(),
                times as u128,
            );
        }
        return Ordering::Less;
    }
    if other < 0 {
        return Ordering::Greater;
    }
    compare_naturals(
        one as u128,
        times as u128,
        other as u128,
        other_times as u128,
    )
}

// A product of two numbers of 64 bits, which is far from wide.
fn small_product(one: i64, other: i64) -> i128
    ensures product { result ≡ one *ℤ other }
    ensures above { neg_ℤ (pos (2 ^ 127)) <ℤ result }
{
    one as i128 * other as i128
}

// A product, none where it is wide.
pub(crate) fn narrow_product(one: i128, other: i128) -> Option<i128>
    ensures product { IfSome result (λ product. product ≡ one *ℤ other) }
    ensures above { IfSome result (λ product. neg_ℤ (pos (2 ^ 127)) <ℤ product) }
    ensures none { IfNone result (is_wide (one *ℤ other) ≡ true) }
{
    if let Ok(small) = i64::try_from(one) {
        if let Ok(small_other) = i64::try_from(other) {
            return Some(small_product(small, small_other));
        }
    }
    let Some(product) = one.checked_mul(other) else {
        return None;
    };
    if product == i128::MIN {
        return None;
    }
    Some(product)
}

// A difference, none where it is wide.
pub(crate) fn narrow_difference(one: i128, other: i128) -> Option<i128>
    ensures difference { IfSome result (λ difference. difference ≡ one -ℤ other) }
    ensures none { IfNone result (is_wide (one -ℤ other) ≡ true) }
{
    let Some(difference) = one.checked_sub(other) else {
        return None;
    };
    if difference == i128::MIN {
        return None;
    }
    Some(difference)
}
