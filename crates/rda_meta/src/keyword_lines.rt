ghost use Rattle.std.specs.Prelude.{◌≡◌, OnOk};
ghost use Rattle.std.specs.List.{after_first, list_any};
ghost use Rattle.sdc_base.specs.Answers.{Gives};
ghost use Rattle.plain_text.specs.Stops.{why_of};
ghost use Rattle.rda_meta.specs.KeywordLines.{with_setting};
ghost use Rattle.sdc_base.specs.Tokens.{is_close};
ghost use Rattle.rda_meta.specs.KeywordLines as keyword_lines;
ghost use Rattle.rda_meta.specs.LineSettings as line_settings;

use crate::arguments::argument_of;
use crate::entry::Entry;
use crate::faults::MetaWhy;
use crate::keywords::keyword_of;
use crate::said::has_keyword;
use crate::setting::{Keyword, Setting};
use crate::words::words_in;
use plain_text::{Stop, cut_at};
use sdc_base::{Items, Memory};
use std::alloc::Global;

/// Keeps the setting as one more of the last variable. After want of memory that variable is lost.
#[tactic(auto, using(crate::proofs::LineSteps::with_last, crate::proofs::LineSteps::with_none))]
pub(crate) fn add_setting(entries: &mut Items<Entry>, setting: Setting) -> Result<(), Memory>
    ensures { OnOk result (entries.new ≡ with_setting setting entries.old) }
{
    let Some(mut entry) = entries.pop() else {
        return Ok(());
    };
    entry.said.push(setting)?;
    entries.push(entry)?;
    Ok(())
}

/// The setting of a keyword line of which this text stands behind the `<`.
#[tactic(auto, unfolding(crate::specs::KeywordLines::setting_in))]
pub(crate) fn setting_in(
    alloc: Global,
    entries: &[Entry],
    text: &[u8],
) -> Result<Setting, Stop<MetaWhy>>
    ensures { Gives why_of (λ setting. setting) result (keyword_lines.setting_in entries.now text.now) }
{
    let keyword = keyword_in(text)?;
    let Some(entry) = entries.last() else {
        return Err(Stop::Fault(MetaWhy::BadName));
    };
    let mut words = words_in(behind_keyword(text));
    let argument = argument_of(alloc, keyword, entry.width, &mut words)?;
    if is_again(keyword, entry, entries) {
        return Err(Stop::Fault(MetaWhy::Twice));
    }
    Ok(Setting { keyword, argument })
}

// Whether the keyword stood before, for this variable or, where it is the weight, for any.
fn is_again(keyword: Keyword, entry: &Entry, entries: &[Entry]) -> bool
    ensures { result ≡ keyword_lines.is_again keyword entry.now entries.now }
{
    if keyword == Keyword::Weight {
        return some_weight(entries);
    }
    has_keyword(entry.said.as_slice(), keyword)
}

// Whether some variable is the weight.
fn some_weight(entries: &[Entry]) -> bool
    ensures { result ≡ list_any (λ e. line_settings.has_keyword Keyword.Weight e.said) entries.now }
{
    entries
        .iter()
        .any(|e| has_keyword(e.said.as_slice(), Keyword::Weight))
}

// The keyword that stands before the first `>`.
#[tactic(auto, unfolding(crate::specs::KeywordLines::keyword_in))]
fn keyword_in(text: &[u8]) -> Result<Keyword, Stop<MetaWhy>>
    ensures { Gives why_of (λ keyword. keyword) result (keyword_lines.keyword_in text.now) }
{
    if !text.contains(&b'>') {
        return Err(Stop::Fault(MetaWhy::UnknownKeyword));
    }
    let (name, _) = cut_at(b'>', text);
    let Some(keyword) = keyword_of(name) else {
        return Err(Stop::Fault(MetaWhy::UnknownKeyword));
    };
    Ok(keyword)
}

// What stands behind the first `>`.
fn behind_keyword(text: &[u8]) -> &[u8]
    ensures { result.now ≡ after_first is_close text.now }
{
    let (_, behind) = cut_at(b'>', text);
    behind
}
