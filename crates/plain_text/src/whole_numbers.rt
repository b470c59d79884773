ghost use Rattle.std.specs.Prelude.{◌≡◌, ◌≤◌, ◌<◌, ◌^◌, IfSome};
ghost use Rattle.sdc_base.specs.Tokens as spec;

/// The number that the digits write, where there is one digit or more, nothing but digits, and the
/// number is from `low` to `high`, which is below `10^18`. Leading zeros are accepted; a sign, a point or a
/// blank isn't. It takes no memory and looks at each byte once. The rule is argus's own.
pub fn number_in(low: u64, high: u64, digits: &[u8]) -> Option<u64>
    requires { high < 10 ^ 18 }
    ensures value { result ≡ spec.number_in low high digits.now }
    ensures within { IfSome result (λ n. (low ≤ n) × (n ≤ high)) }
{
    if digits.is_empty() {
        return None;
    }
    let mut value = 0;
    'digits: for b in digits {
        if !b.is_ascii_digit() {
            return None;
        }
        value = value * 10 + u64::from(*b - b'0');
        if value > high {
            return None;
        }
    }
    if value < low {
        return None;
    }
    Some(value)
}
