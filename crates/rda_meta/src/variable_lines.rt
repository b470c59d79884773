ghost use Rattle.std.specs.Prelude.{◌≡◌, ◌≤◌, ◌<◌, ◌^◌, IfOk, length, []};
ghost use Rattle.sdc_base.specs.Answers.{Gives};
ghost use Rattle.plain_text.specs.Stops.{why_of};
ghost use Rattle.rda_meta.specs.VariableLines as spec;

use crate::entry::Entry;
use crate::faults::MetaWhy;
use crate::numbers::number_in;
use crate::words::Words;
use plain_text::{Stop, trim};
use sdc_base::{Items, Memory, Text};
use std::alloc::Global;

/// The variable of the words of a variable line with this number, behind these variables; nothing is
/// said of it yet.
#[tactic(auto, unfolding(crate::specs::VariableLines::variable_at))]
pub(crate) fn variable_at(
    alloc: Global,
    line: u32,
    entries: &[Entry],
    words: &mut Words,
) -> Result<Entry, Stop<MetaWhy>>
    ensures { Gives why_of (λ entry. entry) result (spec.variable_at line entries.now words.old) }
{
    let name = name_at(words)?;
    let first = number_at(1000, words)?;
    let width = number_at(255, words)?;
    if first + width - 1 > 1000 {
        return Err(Stop::Fault(MetaWhy::BadPlace));
    }
    let missing = missing_of(alloc, words)?;
    if is_named(name, entries) {
        return Err(Stop::Fault(MetaWhy::Twice));
    }
    if entries.len() > 63 {
        return Err(Stop::Fault(MetaWhy::TooMany));
    }
    Ok(new_entry(alloc, line, name, first, width, missing)?)
}

// A variable of which nothing is said yet.
fn new_entry(
    alloc: Global,
    line: u32,
    name: &[u8],
    first: u32,
    width: u32,
    missing: Items<Text>,
) -> Result<Entry, Memory>
    ensures { IfOk result (λ entry. entry
        ≡ record { line = line; name = name.now; first = first; width = width; missing = missing; said = [] }) }
{
    let name = Text::from_slice(alloc, name)?;
    Ok(Entry {
        line,
        name,
        first,
        width,
        missing,
        said: Items::empty(alloc),
    })
}

// 1 to 64 bytes.
fn is_name(word: &[u8]) -> bool
    ensures { result ≡ spec.is_name word.now }
{
    if word.is_empty() {
        return false;
    }
    word.len() < 65
}

// The next word as a name.
#[tactic(auto, unfolding(crate::specs::VariableLines::name_at))]
fn name_at<'a>(words: &mut Words<'a>) -> Result<&'a [u8], Stop<MetaWhy>>
    ensures { Gives why_of (λ name. (name.now, words.new)) result (spec.name_at words.old) }
{
    let Some(word) = words.next_word() else {
        return Err(Stop::Fault(MetaWhy::BadName));
    };
    if !is_name(word) {
        return Err(Stop::Fault(MetaWhy::BadName));
    }
    Ok(word)
}

// The next word as a number from 1 to `most`.
#[tactic(auto, unfolding(crate::specs::VariableLines::number_at))]
fn number_at(most: u32, words: &mut Words) -> Result<u32, Stop<MetaWhy>>
    requires { most < 2 ^ 16 }
    ensures number { Gives why_of (λ number. (number, words.new)) result (spec.number_at most words.old) }
    ensures positive { IfOk result (λ number. 0 < number) }
    ensures within { IfOk result (λ number. number ≤ most) }
{
    let Some(word) = words.next_word() else {
        return Err(Stop::Fault(MetaWhy::BadPlace));
    };
    let Some(number) = number_in(1, most, word) else {
        return Err(Stop::Fault(MetaWhy::BadPlace));
    };
    Ok(number)
}

// All words that are left as missing codes, at most two.
#[tactic(auto, unfolding(crate::specs::VariableLines::missing_of))]
fn missing_of(alloc: Global, words: &mut Words) -> Result<Items<Text>, Stop<MetaWhy>>
    ensures { Gives why_of (λ codes. codes) result (spec.missing_of words.old) }
{
    let mut codes = Items::empty(alloc);
    'words: while let Some(word) = words.next_word() {
        if codes.as_slice().len() > 1 {
            return Err(Stop::Fault(MetaWhy::BadValue));
        }
        codes.push(Text::from_slice(alloc, trim(word))?)?;
    }
    Ok(codes)
}

// Whether a variable has this name.
fn is_named(name: &[u8], entries: &[Entry]) -> bool
    ensures { result ≡ spec.is_named name.now entries.now }
{
    entries.iter().any(|entry| entry.name.as_slice() == name)
}
