ghost use Rattle.std.specs.Prelude.{◌≡◌, ◌+◌, ◌<◌, ◌≤◌, ◌++◌, IfOk, OnOk, Ok, pos, ◌≤ℤ◌, ◌<ℤ◌, unsigned_abs, replicate};
ghost use Rattle.sdc_base.specs.Numbers.{padded_digits, too_wide, units_text};
ghost use Rattle.sdc_base.specs.Numbers as spec;

use sdc_base::{Memory, Text};
use std::alloc::Global;

/// The text of a number of units of `10^-decimals`: its whole part without leading zeros, and above 0
/// decimals a point and exactly so many digits. It takes a number from 0 and 0 to 13 decimals, and
/// `Memory` is its only refusal. `read_units` at as many decimals reads the text as the same number,
/// where that is below `10^37`. The cost is that of the text's bytes. The rule is argus's own.
pub fn print_units(alloc: Global, value: i128, decimals: u8) -> Result<Text, Memory>
    requires from { pos 0 ≤ℤ value }
    requires decimals { decimals ≤ 13 }
    ensures text { IfOk result (λ text. text ≡ units_text (unsigned_abs value) decimals) }
    ensures read_back { value <ℤ pos too_wide → IfOk result (λ text. spec.read_units text decimals ≡ Ok value) }
{
    let text = digits_with_point(alloc, value as u128, decimals)?;
    Ok(Text::new(text))
}

// The text's bytes.
fn digits_with_point(alloc: Global, value: u128, decimals: u8) -> Result<Vec<u8>, Memory>
    requires { decimals ≤ 13 }
    ensures { IfOk result (λ text. text.items ≡ units_text value decimals) }
{
    let unit = 10u128.pow(u32::from(decimals));
    let mut text = (value / unit).to_string(alloc)?.into_bytes();
    if decimals > 0 {
        text.push(b'.')?;
        add_digits(alloc, &mut text, value % unit, decimals as usize)?;
    }
    Ok(text)
}

// Adds at least so many digits of a number, with zeros in front.
fn add_digits(alloc: Global, text: &mut Vec<u8>, value: u128, places: usize) -> Result<(), Memory>
    ensures { OnOk result (text.new.items ≡ text.old.items ++ padded_digits places value) }
{
    let digits = value.to_string(alloc)?;
    let zeros = places.saturating_sub(digits.len());
    add_zeros(text, zeros)?;
    text.extend_from_slice(digits.as_bytes())?;
    Ok(())
}

// Adds so many zeros.
fn add_zeros(text: &mut Vec<u8>, zeros: usize) -> Result<(), Memory>
    ensures { OnOk result (text.new.items ≡ text.old.items ++ replicate zeros 48) }
{
    'zeros: for _ in 0..zeros {
        text.push(b'0')?;
    }
    Ok(())
}
