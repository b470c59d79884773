ghost use Rattle.std.specs.Prelude.{◌≡◌};
ghost use Rattle.std.specs.Str.{str_eq_ignore_ascii_case};
ghost use Rattle.rda_meta.specs.Keywords as spec;

use crate::setting::Keyword;

// Whether the word is this name, in letters of any case.
fn spells(word: &[u8], name: &[u8]) -> bool
    ensures { result ≡ str_eq_ignore_ascii_case word.now name.now }
{
    word.eq_ignore_ascii_case(name)
}

/// The keyword of this spelling, in letters of any case.
#[tactic(auto, unfolding(crate::specs::Keywords::keyword_of))]
pub(crate) fn keyword_of(word: &[u8]) -> Option<Keyword>
    ensures { result ≡ spec.keyword_of word.now }
{
    if spells(word, b"RECODEABLE") {
        return Some(Keyword::Recodeable);
    }
    if spells(word, b"RECODABLE") {
        return Some(Keyword::Recodable);
    }
    if spells(word, b"NUMERIC") {
        return Some(Keyword::Numeric);
    }
    if spells(word, b"DECIMALS") {
        return Some(Keyword::Decimals);
    }
    if spells(word, b"WEIGHT") {
        return Some(Keyword::Weight);
    }
    if spells(word, b"CODELIST") {
        return Some(Keyword::CodeList);
    }
    if spells(word, b"HIERARCHICAL") {
        return Some(Keyword::Hierarchical);
    }
    if spells(word, b"HIERLEVELS") {
        return Some(Keyword::HierLevels);
    }
    if spells(word, b"HIERCODELIST") {
        return Some(Keyword::HierCodeList);
    }
    if spells(word, b"HIERLEADSTRING") {
        return Some(Keyword::HierLeadString);
    }
    if spells(word, b"TOTCODE") {
        return Some(Keyword::TotCode);
    }
    if spells(word, b"REQUEST") {
        return Some(Keyword::Request);
    }
    if spells(word, b"HOLDING") {
        return Some(Keyword::Holding);
    }
    if spells(word, b"DISTANCE") {
        return Some(Keyword::Distance);
    }
    None
}

/// Whether lines of this keyword are passed over and counted.
pub(crate) fn is_passed(keyword: Keyword) -> bool
    ensures { result ≡ spec.is_passed keyword }
{
    match keyword {
        Keyword::Request | Keyword::Holding | Keyword::Distance => true,
        _ => false,
    }
}
