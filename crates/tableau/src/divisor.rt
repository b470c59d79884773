ghost use Rattle.std.specs.Prelude.{◌≡◌, ℕ, ◌*◌, unsigned_abs};
ghost use Prim.Native.Nat.{◌∣◌};
ghost use Rattle.tableau.specs.CommonDivisors.{DividesEach, DividesTimes};

use crate::common_divisor::gcd;

// The greatest number that divides one and all numbers of some entries.
pub(crate) fn row_divisor(whole: u128, entries: &[(u32, i128)]) -> u128
    ensures divides_whole { result ∣ whole }
    ensures entries { DividesEach result entries.now }
    ensures multiples { (e times : ℕ) → e ∣ times * whole → DividesTimes e times entries.now → e ∣ times * result }
{
    let mut common = whole;
    for entry in entries {
        if common == 1 {
            return 1;
        }
        common = gcd(common, entry.1.unsigned_abs());
    }
    common
}
