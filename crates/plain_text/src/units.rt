ghost use Rattle.std.specs.Prelude.{◌≡◌, ◌+◌, ◌-◌, ◌*◌, ◌^◌, ◌<◌, ◌≤◌, length, None, Some, true, false, IfSome, IfOk, Ok, ◌++◌, replicate, pos, ◌≤ℤ◌, ◌<ℤ◌};
ghost use Rattle.std.specs.List.{position_or_len};
ghost use Rattle.std.specs.Str.{all_ascii_digits};
ghost use Rattle.std.specs.Str.Parse.{digits_value, digits_value_after};
ghost use Rattle.sdc_base.specs.Numbers.{place_of_stray_byte, whole_digits, fraction, is_point, too_wide, number_within, units_of_parts};
ghost use Rattle.sdc_base.specs.Numbers as spec;

use sdc_base::NumberFault;

// The first number that is too wide.
const TOO_WIDE: u128 = 10_000_000_000_000_000_000_000_000_000_000_000_000;

/// The number that the bytes write, in units of `10^-decimals`: digits with at most one point, and at
/// most `decimals` digits after it; digits that are not there are zeros, and leading zeros are
/// accepted. It takes 0 to 13 decimals and fewer than `2^32` bytes. The rule is argus's own.
///
/// The refusals, in this order: `NotADigit(k)`, where the byte at place `k`, from 0, is the first that
/// is neither a digit nor the first point; `Empty`, where there is no digit; `TooManyDecimals`, where
/// more than `decimals` digits stand after the point; `TooWide`, where the number of units is `10^37`
/// or more. The call takes no memory, and looks at each byte a few times.
pub fn read_units(bytes: &[u8], decimals: u8) -> Result<i128, NumberFault>
    requires decimals { decimals ≤ 13 }
    requires fewer_than_2_32 { length bytes.now < 2 ^ 32 }
    ensures value { result ≡ spec.read_units bytes.now decimals }
    ensures from { IfOk result (λ units. pos 0 ≤ℤ units) }
    ensures below { IfOk result (λ units. units <ℤ pos too_wide) }
{
    if let Some(k) = first_stray(bytes) {
        return Err(NumberFault::NotADigit(k as u32));
    }
    read_digits(whole_part(bytes), fraction_part(bytes), decimals)
}

// The number of units of the digits before and after the point.
fn read_digits(front: &[u8], back: &[u8], decimals: u8) -> Result<i128, NumberFault>
    requires decimals { decimals ≤ 13 }
    requires front { all_ascii_digits front.now ≡ true }
    requires back { all_ascii_digits back.now ≡ true }
    ensures value { result ≡ units_of_parts front.now back.now decimals }
    ensures from { IfOk result (λ units. pos 0 ≤ℤ units) }
    ensures below { IfOk result (λ units. units <ℤ pos too_wide) }
{
    if front.is_empty() && back.is_empty() {
        return Err(NumberFault::Empty);
    }
    let places = decimals as usize;
    if places < back.len() {
        return Err(NumberFault::TooManyDecimals);
    }
    match value_of(front, back, places - back.len()) {
        Some(value) => Ok(value as i128),
        None => Err(NumberFault::TooWide),
    }
}

// The number of the digits and so many zeros after them, unless it is too wide.
fn value_of(front: &[u8], back: &[u8], zeros: usize) -> Option<u128>
    requires front { all_ascii_digits front.now ≡ true }
    requires back { all_ascii_digits back.now ≡ true }
    requires zeros { zeros ≤ 13 }
    ensures value { result ≡ number_within (digits_value 10 ((front.now ++ back.now) ++ replicate zeros 48)) }
    ensures below { IfSome result (λ value. value < too_wide) }
{
    let whole = value_after(0, front)?;
    let mut value = value_after(whole, back)?;
    'zeros: for _ in 0..zeros {
        value = value_after(value, b"0")?;
    }
    Some(value)
}

// The bytes before the point.
fn whole_part(bytes: &[u8]) -> &[u8]
    ensures part { result.now ≡ whole_digits bytes.now }
    ensures digits { place_of_stray_byte false bytes.now ≡ None → all_ascii_digits result.now ≡ true }
{
    &bytes[..point_of(bytes)]
}

// The bytes after the point.
fn fraction_part(bytes: &[u8]) -> &[u8]
    ensures part { result.now ≡ fraction bytes.now }
    ensures digits { place_of_stray_byte false bytes.now ≡ None → all_ascii_digits result.now ≡ true }
{
    let point = point_of(bytes);
    if point < bytes.len() {
        return &bytes[point + 1..];
    }
    &[]
}

// The place of the first byte that is neither a digit nor the first point.
fn first_stray(bytes: &[u8]) -> Option<usize>
    ensures place { result ≡ place_of_stray_byte false bytes.now }
    ensures within { IfSome result (λ k. k < length bytes.now) }
{
    let mut seen = false;
    for (i, b) in bytes.iter().enumerate() {
        if b.is_ascii_digit() {
            continue;
        }
        if *b != b'.' || seen {
            return Some(i);
        }
        seen = true;
    }
    None
}

// The place of the point, or the length where there is none.
fn point_of(bytes: &[u8]) -> usize
    ensures place { result ≡ position_or_len is_point bytes.now }
    ensures within { result ≤ length bytes.now }
{
    for (i, b) in bytes.iter().enumerate() {
        if *b == b'.' {
            return i;
        }
    }
    bytes.len()
}

// The number with these digits after it, unless that is too wide.
fn value_after(start: u128, digits: &[u8]) -> Option<u128>
    requires digits { all_ascii_digits digits.now ≡ true }
    requires narrow { start < too_wide }
    ensures value { result ≡ number_within (digits_value_after 10 start digits.now) }
    ensures within { IfSome result (λ value. value < too_wide) }
{
    let mut value = start;
    for b in digits {
        value = value * 10 + u128::from(*b - b'0');
        if value >= TOO_WIDE {
            return None;
        }
    }
    Some(value)
}
