ghost use Rattle.std.specs.Prelude.{◌≡◌, ◌≤◌, ◌<◌, ◌^◌, IfSome};
ghost use Rattle.sdc_base.specs.Tokens as spec;

/// The number that the word writes in plain digits, where it is from `low` to `high`. Leading zeros
/// are accepted; a sign, a point or a blank isn't.
pub(crate) fn number_in(low: u32, high: u32, word: &[u8]) -> Option<u32>
    requires { high < 2 ^ 16 }
    ensures value { result ≡ spec.number_in low high word.now }
    ensures within { IfSome result (λ n. (low ≤ n) × (n ≤ high)) }
{
    let number = plain_text::number_in(u64::from(low), u64::from(high), word)?;
    Some(number as u32)
}
