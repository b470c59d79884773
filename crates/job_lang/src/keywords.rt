ghost use Rattle.std.specs.Prelude.{◌≡◌};
ghost use Rattle.std.specs.Str.{str_eq_ignore_ascii_case};
ghost use Rattle.sdc_base.specs.Answers.{Gives};
ghost use Rattle.job_lang.specs.Faults.{fault_itself};
ghost use Rattle.job_lang.specs.Keywords as spec;

use crate::faults::JobWhy;
use crate::statement::Keyword;
use plain_text::cut_at;

/// Whether the word is this name, in letters of any case.
pub(crate) fn spells(word: &[u8], name: &[u8]) -> bool
    ensures { result ≡ str_eq_ignore_ascii_case word.now name.now }
{
    word.eq_ignore_ascii_case(name)
}

/// The command of a word, in letters of any case.
#[tactic(auto, unfolding(crate::specs::Keywords::keyword_of))]
pub(crate) fn keyword_of(word: &[u8]) -> Option<Keyword>
    ensures { result ≡ spec.keyword_of word.now }
{
    if spells(word, b"OPENMICRODATA") {
        return Some(Keyword::OpenMicrodata);
    }
    if spells(word, b"OPENMETADATA") {
        return Some(Keyword::OpenMetadata);
    }
    if spells(word, b"SPECIFYTABLE") {
        return Some(Keyword::SpecifyTable);
    }
    if spells(word, b"SAFETYRULE") {
        return Some(Keyword::SafetyRule);
    }
    if spells(word, b"READMICRODATA") {
        return Some(Keyword::ReadMicrodata);
    }
    if spells(word, b"APRIORI") {
        return Some(Keyword::Apriori);
    }
    if spells(word, b"COST") {
        return Some(Keyword::Cost);
    }
    if spells(word, b"STEPS") {
        return Some(Keyword::Steps);
    }
    if spells(word, b"NODES") {
        return Some(Keyword::Nodes);
    }
    if spells(word, b"SUPPRESS") {
        return Some(Keyword::Suppress);
    }
    if spells(word, b"WRITETABLE") {
        return Some(Keyword::WriteTable);
    }
    if spells(word, b"CERTIFICATE") {
        return Some(Keyword::Certificate);
    }
    if spells(word, b"CONTRIBUTORS") {
        return Some(Keyword::Contributors);
    }
    if spells(word, b"DEPTH") {
        return Some(Keyword::Depth);
    }
    None
}

/// The word between `<` and the first `>` of a line, and what stands behind it.
#[tactic(auto, unfolding(crate::specs::Keywords::word_in))]
pub(crate) fn word_in(line: &[u8]) -> Result<(&[u8], &[u8]), JobWhy>
    ensures { Gives fault_itself (λ word. (word.0.now, word.1.now)) result (spec.word_in line.now) }
{
    if line.is_empty() || line[0] != b'<' {
        return Err(JobWhy::BadLine);
    }
    let text = &line[1..];
    if !text.contains(&b'>') {
        return Err(JobWhy::BadLine);
    }
    let (word, rest) = cut_at(b'>', text);
    if word.is_empty() {
        return Err(JobWhy::BadLine);
    }
    Ok((word, rest))
}
