ghost use Rattle.std.specs.Prelude.{◌≡◌, ◌≤◌, ◌<◌, ◌+◌, ◌-◌, ◌*◌, ◌^◌, ℕ};
ghost use Prim.Native.Nat.{◌∣◌};
ghost use Rattle.std.specs.Int.{IsGcd};
ghost use Rattle.cell_intervals.specs.Lowering.{IsLoweredTo};

use tableau::gcd;

/// A number of units from 0, as a fraction in lowest terms.
#[derive(Clone, Copy)]
pub struct Ratio {
    /// What is divided.
    pub num: u128,
    /// What it is divided by, 1 or more.
    pub den: u128,
    ghost positive: { 1 ≤ den },
    ghost lowest: { IsGcd num den 1 },
}

/// A fraction brought to lowest terms. So many times the fraction is whole only where its denominator divides that
/// number of times.
pub(crate) fn lowest_terms_of(num: u128, den: u128) -> Ratio
    requires { 1 ≤ den }
    ensures same { IsLoweredTo num den result.num result.den }
    ensures least { (times : ℕ) → den ∣ times * num → result.den ∣ times }
{
    let by = gcd(num, den);
    Ratio {
        num: num / by,
        den: den / by,
    }
}

/// A whole number less a fraction that is at most it.
pub(crate) fn minus(whole: u128, part: Ratio) -> Ratio
    requires at_most_10_29 { whole ≤ 10 ^ 29 }
    requires narrow { part.den < 2 ^ 17 }
    requires within { part.num ≤ whole * part.den }
    ensures num { result.num ≡ whole * part.den - part.num }
    ensures den { result.den ≡ part.den }
{
    Ratio {
        num: whole * part.den - part.num,
        den: part.den,
    }
}

/// A whole number and a fraction.
pub(crate) fn plus(whole: u128, part: Ratio) -> Ratio
    requires at_most_10_29 { whole ≤ 10 ^ 29 }
    requires narrow { part.den < 2 ^ 17 }
    requires short { part.num < part.den * 2 ^ 110 }
    ensures num { result.num ≡ whole * part.den + part.num }
    ensures den { result.den ≡ part.den }
{
    Ratio {
        num: whole * part.den + part.num,
        den: part.den,
    }
}
