ghost use Rattle.std.specs.Prelude.{◌≡◌, ◌*ℤ◌, int_le};

// Whether an amount is at least so many times a bound, the product being as wide as it may.
pub(crate) fn is_at_least(amount: i128, times: i128, bound: i128) -> bool
    ensures { result ≡ int_le (times *ℤ bound) amount }
{
    match times.checked_mul(bound) {
        Some(least) => least <= amount,
        None => (times < 0) != (bound < 0),
    }
}

// Whether an amount is at most so many times a bound, the product being as wide as it may.
pub(crate) fn is_at_most(amount: i128, times: i128, bound: i128) -> bool
    ensures { result ≡ int_le amount (times *ℤ bound) }
{
    match times.checked_mul(bound) {
        Some(most) => amount <= most,
        None => (times < 0) == (bound < 0),
    }
}
