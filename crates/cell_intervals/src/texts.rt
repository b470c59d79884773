ghost use Rattle.std.specs.Prelude.{◌≡◌, ◌++◌, IfOk, OnOk, string_bytes};
ghost use Rattle.cell_intervals.specs.IntervalTexts as spec;

use crate::interval::{CellInterval, UpperEnd};
use crate::ratio::Ratio;
use sdc_base::{Items, Memory};
use std::alloc::Global;

/// The text of the interval file: the line `cell,low,high`, and then for each interval a line with the number of its
/// cell, its lower and its upper end, ended by LF. The ends are in units: a whole number, or `n/d` in lowest terms, or
/// `open`.
///
/// The intervals are written in the order in which they stand. `Memory` is the only refusal. The cost is the length of
/// the text. The format is argus's own.
pub fn interval_text(alloc: Global, intervals: &[CellInterval]) -> Result<Items<u8>, Memory>
    ensures { IfOk result (λ text. text ≡ spec.interval_text intervals.now) }
{
    let mut text = Items::empty(alloc);
    add(&mut text, b"cell,low,high\n")?;
    'intervals: for one in intervals {
        add_line(alloc, &mut text, one)?;
    }
    Ok(text)
}

// Puts bytes at the end of a text.
fn add(text: &mut Items<u8>, bytes: &[u8]) -> Result<(), Memory>
    ensures { OnOk result (text.new ≡ text.old ++ bytes.now) }
{
    for b in bytes {
        text.push(*b)?;
    }
    Ok(())
}

// The line of an interval.
fn add_line(alloc: Global, text: &mut Items<u8>, one: &CellInterval) -> Result<(), Memory>
    ensures { OnOk result (text.new ≡ text.old ++ spec.line_text one.now) }
{
    let cell = one.cell;
    let low = ratio_text(alloc, one.low)?;
    let high = upper_text(alloc, one.high)?;
    let line = format!(in alloc; "{cell},{low},{high}\n")?;
    add(text, line.as_bytes())
}

// An upper end.
fn upper_text(alloc: Global, high: UpperEnd) -> Result<String, Memory>
    ensures { IfOk result (λ text. string_bytes text ≡ spec.upper_text high) }
{
    match high {
        UpperEnd::At(value) => ratio_text(alloc, value),
        UpperEnd::Open => Ok(String::from_str(alloc, "open")?),
    }
}

/// A fraction in digits: a whole number, or what is divided, a slash and what it is divided by.
///
/// `Memory` is the only refusal. The spelling is argus's own.
pub fn ratio_text(alloc: Global, value: Ratio) -> Result<String, Memory>
    ensures { IfOk result (λ text. string_bytes text ≡ spec.ratio_text value) }
{
    let num = value.num;
    let den = value.den;
    if den == 1 {
        return Ok(num.to_string(alloc)?);
    }
    Ok(format!(in alloc; "{num}/{den}")?)
}
