ghost use Rattle.std.specs.Prelude.{◌≡◌, IfOk, unwrap_or, option_map};
ghost use Rattle.std.specs.Option.{option_copied};
ghost use Rattle.rda_meta.specs.LineSettings as spec;

use crate::meta::Shape;
use crate::setting::{Argument, Keyword, Setting};
use sdc_base::{Items, Memory, Text};
use std::alloc::Global;

/// Whether a line has this keyword.
pub(crate) fn has_keyword(said: &[Setting], keyword: Keyword) -> bool
    ensures { result ≡ spec.has_keyword keyword said.now }
{
    said.iter().any(|s| s.keyword == keyword)
}

// What stands behind the keyword, where a line has it.
fn argument_said(said: &[Setting], keyword: Keyword) -> Option<&Argument>
    ensures { option_copied result ≡ spec.argument_said keyword said.now }
{
    'said: for s in said {
        if s.keyword == keyword {
            return Some(&s.argument);
        }
    }
    None
}

// The number behind the keyword.
fn number_said(said: &[Setting], keyword: Keyword) -> Option<u8>
    ensures { result ≡ spec.number_in (spec.argument_said keyword said.now) }
{
    match argument_said(said, keyword)? {
        Argument::Number(number) => Some(*number),
        _ => None,
    }
}

// The word behind the keyword.
fn word_said(said: &[Setting], keyword: Keyword) -> Option<&Text>
    ensures { option_copied result ≡ spec.word_in (spec.argument_said keyword said.now) }
{
    match argument_said(said, keyword)? {
        Argument::Word(word) => Some(word),
        _ => None,
    }
}

// The levels behind the keyword.
fn levels_said(said: &[Setting], keyword: Keyword) -> Option<&Items<u8>>
    ensures { option_copied result ≡ spec.levels_in (spec.argument_said keyword said.now) }
{
    match argument_said(said, keyword)? {
        Argument::Levels(levels) => Some(levels),
        _ => None,
    }
}

/// Whether the variable is a number; a weight is one.
pub(crate) fn is_numeric(said: &[Setting]) -> bool
    ensures { result ≡ spec.is_numeric said.now }
{
    if has_keyword(said, Keyword::Numeric) {
        return true;
    }
    has_keyword(said, Keyword::Weight)
}

// Levels or a hierarchy file.
fn has_tree(said: &[Setting]) -> bool
    ensures { result ≡ spec.has_tree said.now }
{
    if has_keyword(said, Keyword::HierLevels) {
        return true;
    }
    has_keyword(said, Keyword::HierCodeList)
}

/// The digits behind the point, 0 by default.
pub(crate) fn decimals_of(said: &[Setting]) -> u8
    ensures { result ≡ spec.decimals_of said.now }
{
    let number = number_said(said, Keyword::Decimals);
    number.unwrap_or(0)
}

// A copy of the word, or of the default where there is none.
fn copy_or(alloc: Global, word: Option<&Text>, default: &[u8]) -> Result<Text, Memory>
    ensures { IfOk result (λ text. text ≡ unwrap_or (option_copied word.entry) default.now) }
{
    let Some(word) = word else {
        return Ok(Text::from_slice(alloc, default)?);
    };
    word.copy(alloc)
}

/// The code of the total, `Total` by default.
pub(crate) fn total_of(alloc: Global, said: &[Setting]) -> Result<Text, Memory>
    ensures { IfOk result (λ text. text ≡ spec.total_of said.now) }
{
    let word = word_said(said, Keyword::TotCode);
    copy_or(alloc, word, b"Total")
}

// The lead string, `@` by default.
fn lead_of(alloc: Global, said: &[Setting]) -> Result<Text, Memory>
    ensures { IfOk result (λ text. text ≡ spec.lead_of said.now) }
{
    let word = word_said(said, Keyword::HierLeadString);
    copy_or(alloc, word, b"@")
}

/// The file with the list of codes, where a line names one.
pub(crate) fn codes_of(alloc: Global, said: &[Setting]) -> Result<Option<Text>, Memory>
    ensures { IfOk result (λ text. text ≡ spec.codes_of said.now) }
{
    let Some(word) = word_said(said, Keyword::CodeList) else {
        return Ok(None);
    };
    Ok(Some(word.copy(alloc)?))
}

/// How the codes are arranged: by levels, else by a hierarchy file, else flat.
pub(crate) fn shape_of(alloc: Global, said: &[Setting]) -> Result<Shape, Memory>
    ensures { IfOk result (λ made. made ≡ spec.shape_of said.now) }
{
    if let Some(levels) = levels_said(said, Keyword::HierLevels) {
        return Ok(Shape::Levels(Items::new(levels.as_slice().to_vec(alloc)?)));
    }
    let Some(file) = word_said(said, Keyword::HierCodeList) else {
        return Ok(Shape::Flat);
    };
    let file = file.copy(alloc)?;
    let lead = lead_of(alloc, said)?;
    Ok(Shape::Listed { file, lead })
}

/// Whether what is said doesn't go together.
pub(crate) fn is_clashing(said: &[Setting]) -> bool
    ensures { result ≡ spec.is_clashing said.now }
{
    if has_keyword(said, Keyword::HierLevels) && has_keyword(said, Keyword::HierCodeList) {
        return true;
    }
    if has_keyword(said, Keyword::Hierarchical) && !has_tree(said) {
        return true;
    }
    if is_numeric(said) && has_tree(said) {
        return true;
    }
    has_keyword(said, Keyword::Weight) && decimals_of(said) > 4
}
