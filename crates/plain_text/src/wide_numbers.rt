ghost use Rattle.std.specs.Prelude.{◌≡◌, ◌≤◌, ◌^◌, IfSome};
ghost use Rattle.sdc_base.specs.Tokens as spec;

/// The number that the digits write, where there is one digit or more, nothing but digits, and the
/// number is from `low` to `high`, which is at most `2^127`. Leading zeros are accepted; a sign, a point or a
/// blank isn't. It takes no memory and looks at each byte once. The rule is argus's own.
pub fn wide_number_in(low: u128, high: u128, digits: &[u8]) -> Option<u128>
    requires { high ≤ 2 ^ 127 }
    ensures value { result ≡ spec.number_in low high digits.now }
    ensures within { IfSome result (λ n. (low ≤ n) × (n ≤ high)) }
{
    if digits.is_empty() {
        return None;
    }
    let mut value = 0;
    'digits: for b in digits {
        if !b.is_ascii_digit() {
            return None;
        }
        if value > high / 10 {
            return None;
        }
        value = value * 10 + u128::from(*b - b'0');
        if value > high {
            return None;
        }
    }
    if value < low {
        return None;
    }
    Some(value)
}
