ghost use Rattle.std.specs.Prelude.{◌≡◌, ◌+◌, ◌≤◌, ◌<◌, ◌^◌, length, Some, IfOk, pos, option_map};
ghost use Rattle.std.specs.List.{list_any};
ghost use Rattle.std.specs.Str.{bytes_eq};
ghost use Rattle.sdc_base.specs.Answers.{Gives};
ghost use Rattle.plain_text.specs.Stops.{why_of};
ghost use Rattle.microdata.specs.Fields as spec;
ghost use Rattle.microdata.specs.Layouts.{IsNumber, IsWeight};

use crate::faults::RowWhy;
use crate::fields::field;
use crate::layout::NumberField;
use plain_text::{Stop, read_units};
use sdc_base::Text;

// The first response that is too large, in units.
const TOO_LARGE: u64 = 1_000_000_000_000_000;

// The first weight that is too large, in steps.
const TOO_HEAVY: u64 = 100_000_000;

/// Whether there is no response in the text of its field: it is blank or a missing code.
pub(crate) fn has_no_response_in(response: &NumberField, text: &[u8]) -> bool
    ensures { result ≡ spec.has_no_response_in response.now text.now }
{
    if text.is_empty() {
        return true;
    }
    is_among(text, response.missing.as_slice())
}

// Whether a text is one of these codes.
fn is_among(text: &[u8], codes: &[Text]) -> bool
    ensures { result ≡ list_any (bytes_eq text.now) codes.now }
{
    codes.iter().any(|code| text == code.as_slice())
}

/// The response in the text of its field, in units.
#[tactic(auto, unfolding(crate::specs::Fields::value_in))]
pub(crate) fn value_in(response: &NumberField, text: &[u8]) -> Result<u64, Stop<RowWhy>>
    requires decimals { response.now.decimals ≤ 9 }
    requires at_most_1000 { length text.now ≤ 1000 }
    ensures value { Gives why_of (λ value. value) result (spec.value_in response.now text.now) }
    ensures small { IfOk result (λ value. value < 10 ^ 15) }
{
    if is_negative(text) {
        return Err(Stop::Fault(RowWhy::Negative));
    }
    number_in(TOO_LARGE, response.decimals, text)
}

// Whether the bytes begin with a minus.
fn is_negative(bytes: &[u8]) -> bool
    ensures { result ≡ spec.is_negative bytes.now }
{
    if bytes.is_empty() {
        return false;
    }
    bytes[0] == b'-'
}

/// The weight of a record, in steps.
#[tactic(auto, unfolding(crate::specs::Fields::weight_of))]
pub(crate) fn weight_of(weight: &Option<NumberField>, line: &[u8]) -> Result<u32, Stop<RowWhy>>
    requires number { IsWeight (length line.now) weight.now }
    requires at_most_1000 { length line.now ≤ 1000 }
    ensures { Gives why_of (λ steps. steps) result (spec.weight_of weight.now line.now) }
{
    match weight {
        Some(weight) => steps_of(weight, line),
        None => Ok(1),
    }
}

// The weight in a record's field.
#[tactic(auto, unfolding(crate::specs::Fields::weight_of))]
fn steps_of(weight: &NumberField, line: &[u8]) -> Result<u32, Stop<RowWhy>>
    requires number { IsNumber (length line.now) 4 weight.now }
    requires at_most_1000 { length line.now ≤ 1000 }
    ensures { Gives why_of (λ steps. steps) result (spec.weight_of (Some weight.now) line.now) }
{
    let text = field(weight.first, weight.width, line);
    let steps = number_in(TOO_HEAVY, weight.decimals, text)?;
    if steps < scale_of(weight.decimals) {
        return Err(Stop::Fault(RowWhy::LightWeight));
    }
    Ok(steps as u32)
}

// One, in steps of so many decimals.
fn scale_of(decimals: u8) -> u64
    requires { decimals ≤ 4 }
    ensures { result ≡ 10 ^ decimals }
{
    10_u64.pow(u32::from(decimals))
}

// The number in a text, in units of so many decimals, below a limit.
fn number_in(limit: u64, decimals: u8, text: &[u8]) -> Result<u64, Stop<RowWhy>>
    requires decimals { decimals ≤ 9 }
    requires at_most_1000 { length text.now ≤ 1000 }
    ensures value { Gives why_of (λ value. value) result (spec.number_in limit decimals text.now) }
    ensures small { IfOk result (λ value. value < limit) }
{
    let Ok(units) = read_units(text, decimals) else {
        return Err(Stop::Fault(RowWhy::BadNumber));
    };
    if units >= i128::from(limit) {
        return Err(Stop::Fault(RowWhy::BadNumber));
    }
    Ok(units as u64)
}
