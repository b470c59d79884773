ghost use Rattle.std.specs.Prelude.{◌≡◌, ◌<◌, ◌*◌, ◌%◌, ℕ};
ghost use Prim.Native.Nat.{◌∣◌};
ghost use Rattle.std.specs.Int.{IsGcd};

/// The greatest common divisor of two numbers; where one of them is 0, the other one.
///
/// It takes the steps of Euclid's algorithm, which is its source, and no memory. Nothing is refused.
pub fn gcd(one: u128, other: u128) -> u128
    ensures greatest { IsGcd one other result }
    ensures multiples { (d times : ℕ) → d ∣ times * one → d ∣ times * other → d ∣ times * result }
{
    let mut a = one;
    let mut b = other;
    'steps: while b != 0 {
        let rest = remainder(a, b);
        a = b;
        b = rest;
    }
    a
}

// The remainder of a division, by 64 bits where both numbers have no more.
fn remainder(number: u128, by: u128) -> u128
    requires { 0 < by }
    ensures { result ≡ number % by }
{
    if let Ok(small) = u64::try_from(number) {
        if let Ok(small_by) = u64::try_from(by) {
            return (small % small_by) as u128;
        }
    }
    number % by
}
