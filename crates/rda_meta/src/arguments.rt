ghost use Rattle.std.specs.Prelude.{◌≡◌, ◌<◌, ◌≤◌, length, sum};
ghost use Rattle.std.specs.List.{list_any};
ghost use Rattle.sdc_base.specs.Blanks.{is_blank};
ghost use Rattle.sdc_base.specs.Answers.{Gives};
ghost use Rattle.plain_text.specs.Stops.{why_of};
ghost use Rattle.rda_meta.specs.Arguments.{is_zero, without_end_zeros};
ghost use Rattle.rda_meta.specs.Arguments as spec;

use crate::faults::MetaWhy;
use crate::numbers::number_in;
use crate::setting::{Argument, Keyword};
use crate::words::Words;
use plain_text::{Stop, is_blank_byte, is_file_name, trim};
use sdc_base::{Items, Text};
use std::alloc::Global;

/// What the words behind a keyword say, for a variable of this width, or BadValue where they aren't
/// what the keyword wants.
#[tactic(auto, unfolding(crate::specs::Arguments::argument_of))]
pub(crate) fn argument_of(
    alloc: Global,
    keyword: Keyword,
    width: u32,
    words: &mut Words,
) -> Result<Argument, Stop<MetaWhy>>
    ensures { Gives why_of (λ argument. argument) result (spec.argument_of keyword width words.old) }
{
    match keyword {
        Keyword::Decimals => decimals_argument(words),
        Keyword::CodeList => file_argument(alloc, words),
        Keyword::HierLevels => levels_argument(alloc, width, words),
        Keyword::HierCodeList => file_argument(alloc, words),
        Keyword::HierLeadString => lead_argument(alloc, words),
        Keyword::TotCode => code_argument(alloc, words),
        Keyword::Request | Keyword::Holding | Keyword::Distance => Ok(Argument::Nothing),
        _ => no_argument(words),
    }
}

// No word at all.
fn no_argument(words: &mut Words) -> Result<Argument, Stop<MetaWhy>>
    ensures { Gives why_of (λ argument. argument) result (spec.no_argument words.old) }
{
    let word = words.next_word();
    if word.is_some() {
        return Err(Stop::Fault(MetaWhy::BadValue));
    }
    Ok(Argument::Nothing)
}

// Exactly one word.
fn only_word<'a>(words: &mut Words<'a>) -> Result<&'a [u8], Stop<MetaWhy>>
    ensures { Gives why_of (λ word. word.now) result (spec.only_word words.old) }
{
    let Some(word) = words.next_word() else {
        return Err(Stop::Fault(MetaWhy::BadValue));
    };
    let other = words.next_word();
    if other.is_some() {
        return Err(Stop::Fault(MetaWhy::BadValue));
    }
    Ok(word)
}

// One word, a number from 0 to 9.
#[tactic(auto, unfolding(crate::specs::Arguments::decimals_argument))]
fn decimals_argument(words: &mut Words) -> Result<Argument, Stop<MetaWhy>>
    ensures { Gives why_of (λ argument. argument) result (spec.decimals_argument words.old) }
{
    let word = only_word(words)?;
    let Some(number) = number_in(0, 9, word) else {
        return Err(Stop::Fault(MetaWhy::BadValue));
    };
    Ok(Argument::Number(number as u8))
}

// One word, a file name.
#[tactic(auto, unfolding(crate::specs::Arguments::file_argument))]
fn file_argument(alloc: Global, words: &mut Words) -> Result<Argument, Stop<MetaWhy>>
    ensures { Gives why_of (λ argument. argument) result (spec.file_argument words.old) }
{
    let word = only_word(words)?;
    if !is_file_name(word) {
        return Err(Stop::Fault(MetaWhy::BadValue));
    }
    Ok(Argument::Word(Text::from_slice(alloc, word)?))
}

// One word, a lead string.
#[tactic(auto, unfolding(crate::specs::Arguments::lead_argument))]
fn lead_argument(alloc: Global, words: &mut Words) -> Result<Argument, Stop<MetaWhy>>
    ensures { Gives why_of (λ argument. argument) result (spec.lead_argument words.old) }
{
    let word = only_word(words)?;
    if !is_lead(word) {
        return Err(Stop::Fault(MetaWhy::BadValue));
    }
    Ok(Argument::Word(Text::from_slice(alloc, word)?))
}

// One word, a code; blanks at its ends are taken off.
#[tactic(auto, unfolding(crate::specs::Arguments::code_argument))]
fn code_argument(alloc: Global, words: &mut Words) -> Result<Argument, Stop<MetaWhy>>
    ensures { Gives why_of (λ argument. argument) result (spec.code_argument words.old) }
{
    let word = only_word(words)?;
    Ok(Argument::Word(Text::from_slice(alloc, trim(word))?))
}

// The widths of levels; zeros at the end add none.
#[tactic(auto, unfolding(crate::specs::Arguments::levels_argument))]
fn levels_argument(alloc: Global, width: u32, words: &mut Words) -> Result<Argument, Stop<MetaWhy>>
    ensures { Gives why_of (λ argument. argument) result (spec.levels_argument width words.old) }
{
    let numbers = word_numbers(alloc, words)?;
    let levels = without_zeros(numbers.as_slice());
    if !are_levels(width, levels) {
        return Err(Stop::Fault(MetaWhy::BadValue));
    }
    Ok(Argument::Levels(Items::new(levels.to_vec(alloc)?)))
}

// Each word as a number.
fn word_numbers(alloc: Global, words: &mut Words) -> Result<Items<u8>, Stop<MetaWhy>>
    ensures { Gives why_of (λ numbers. numbers) result (spec.word_numbers words.old) }
{
    let mut numbers = Items::empty(alloc);
    'words: while let Some(word) = words.next_word() {
        let Some(number) = number_in(0, 255, word) else {
            return Err(Stop::Fault(MetaWhy::BadValue));
        };
        numbers.push(number as u8)?;
    }
    Ok(numbers)
}

// A level of no width.
fn zero(n: u8) -> bool
    ensures { result ≡ is_zero n }
{
    n == 0
}

// The numbers without the zeros at their end.
fn without_zeros(numbers: &[u8]) -> &[u8]
    ensures { result.now ≡ without_end_zeros numbers.now }
{
    let mut end = numbers.len();
    'zeros: while end > 0 && zero(numbers[end - 1]) {
        end -= 1;
    }
    &numbers[..end]
}

// At most 9 levels, none of them 0, that make up the width.
fn are_levels(width: u32, levels: &[u8]) -> bool
    ensures { result ≡ spec.are_levels width levels.now }
{
    if levels.len() > 9 {
        return false;
    }
    if has_zero(levels) {
        return false;
    }
    sum_of(levels) == width
}

// Whether a level is 0.
fn has_zero(levels: &[u8]) -> bool
    ensures { result ≡ list_any is_zero levels.now }
{
    levels.iter().any(|n| *n == 0)
}

// The width of all levels.
fn sum_of(levels: &[u8]) -> u32
    requires { length levels.now < 10 }
    ensures { result ≡ sum levels.now }
{
    let mut sum = 0;
    'levels: for n in levels {
        sum += u32::from(*n);
    }
    sum
}

// Whether there is a space or a tab.
fn has_blank(word: &[u8]) -> bool
    ensures { result ≡ list_any is_blank word.now }
{
    word.iter().any(|b| is_blank_byte(*b))
}

// 1 to 8 bytes without a blank.
fn is_lead(word: &[u8]) -> bool
    ensures { result ≡ spec.is_lead word.now }
{
    if word.is_empty() {
        return false;
    }
    if word.len() > 8 {
        return false;
    }
    !has_blank(word)
}
