ghost use Rattle.std.specs.Prelude.{◌≡◌, ◌≤◌, ◌^◌, if◌then◌else◌, None, Some, pos, neg_ℤ, ◌+ℤ◌, ◌*ℤ◌, ◌≤ℤ◌, int_lt};
ghost use Rattle.std.specs.Option.{ForSome};
ghost use Rattle.sdc_base.specs.RuleLevels.{fraction_of, rounded_up};
ghost use Rattle.primary_rules.specs.Ranges.{most_level, IsUpper};

/// The least whole number that is not below the quotient, and 1 at least.
pub(crate) fn up_from(over: i128, under: u32) -> i128
    requires under { 1 ≤ under }
    requires low { neg_ℤ (pos (2 ^ 126)) ≤ℤ over }
    requires high { over ≤ℤ (pos under *ℤ pos most_level) }
    ensures value { result ≡ rounded_up (fraction_of over under) }
    ensures unit { pos 1 ≤ℤ result }
    ensures at_most { result ≤ℤ pos most_level }
{
    let down = (-over).div_euclid(i128::from(under));
    let up = -down;
    if up < 1 { 1 } else { up }
}

/// So many percent of an amount, in hundredths.
pub(crate) fn hundredths(percent: u32, amount: i128) -> i128
    requires percent { percent ≤ 1000 }
    requires low { neg_ℤ (pos (2 ^ 110)) ≤ℤ amount }
    requires high { amount ≤ℤ pos (2 ^ 110) }
    ensures value { result ≡ pos percent *ℤ amount }
    ensures low { neg_ℤ (pos (2 ^ 120)) ≤ℤ result }
    ensures high { result ≤ℤ pos (2 ^ 120) }
{
    i128::from(percent) * amount
}

/// By how much an amount is above a bound, divided and rounded up, where it is.
pub(crate) fn excess(amount: i128, bound: i128, under: u32) -> Option<i128>
    requires under { 1 ≤ under }
    requires low { neg_ℤ (pos (2 ^ 120)) ≤ℤ amount }
    requires high { amount ≤ℤ pos (2 ^ 120) }
    requires bound_low { neg_ℤ (pos (2 ^ 120)) ≤ℤ bound }
    requires bound_high { bound ≤ℤ pos (2 ^ 120) }
    requires most { (amount +ℤ neg_ℤ bound) ≤ℤ pos most_level }
    ensures level { ForSome result IsUpper }
    ensures value { result ≡ (if int_lt bound amount then Some (rounded_up (fraction_of (amount +ℤ neg_ℤ bound) under))
        else None) }
{
    if amount > bound {
        Some(up_from(amount - bound, under))
    } else {
        None
    }
}
