ghost use Rattle.std.specs.Prelude.{◌≡◌, ◌≤◌, ◌^◌, IfSome, option_map};
ghost use Rattle.certificate.specs.Numerals as numerals;
ghost use Rattle.job_run.specs.Commands as commands;

use plain_text::wide_number_in;
use sdc_base::Text;

/// The name of a job, where the words are this verb and a name of one byte or more.
pub(crate) fn job_behind<'a>(verb: &[u8], words: &'a [Text]) -> Option<&'a Text>
    ensures { option_map (λ name. name.now) result ≡ commands.job_behind verb.now words.now }
{
    if words.len() == 2 && words[0].as_slice() == verb && !words[1].as_slice().is_empty() {
        Some(&words[1])
    } else {
        None
    }
}

/// The name of a job and the name under which its intervals are put, where the words are `intervals JOB OUT` with names
/// of one byte or more.
pub(crate) fn interval_names(words: &[Text]) -> Option<(&Text, &Text)>
    ensures { option_map (λ names. (names.0.now, names.1.now)) result ≡ commands.interval_names words.now }
{
    names_behind(b"intervals".as_slice(), words)
}

/// The name of a certificate and the name under which it is put again, where the words are `migrate OLD NEW` with names
/// of one byte or more.
pub(crate) fn migration_names(words: &[Text]) -> Option<(&Text, &Text)>
    ensures { option_map (λ names. (names.0.now, names.1.now)) result ≡ commands.migration_names words.now }
{
    names_behind(b"migrate".as_slice(), words)
}

/// The name of a job and the name under which its audit is put, where the words are `audit JOB OUT` with names of one
/// byte or more.
pub(crate) fn audit_names(words: &[Text]) -> Option<(&Text, &Text)>
    ensures { option_map (λ names. (names.0.now, names.1.now)) result ≡ commands.audit_names words.now }
{
    names_behind(b"audit".as_slice(), words)
}

// Two names, where the words are this verb and names of one byte or more.
fn names_behind<'a>(verb: &[u8], words: &'a [Text]) -> Option<(&'a Text, &'a Text)>
    ensures { option_map (λ names. (names.0.now, names.1.now)) result ≡ commands.names_behind verb.now words.now }
{
    if words.len() == 3
        && words[0].as_slice() == verb
        && !words[1].as_slice().is_empty()
        && !words[2].as_slice().is_empty()
    {
        Some((&words[1], &words[2]))
    } else {
        None
    }
}

/// The seed and the number of records, where the words are `demo SEED RECORDS` with plain whole numbers in range.
pub(crate) fn demo_numbers(words: &[Text]) -> Option<(u64, u32)>
    ensures { result ≡ commands.demo_numbers words.now }
{
    if words.len() == 3 && words[0].as_slice() == b"demo".as_slice() {
        seed_and_records(words[1].as_slice(), words[2].as_slice())
    } else {
        None
    }
}

// A seed up to 2^64 - 1, and a number of records from 1 to 1,000,000.
fn seed_and_records(seed: &[u8], records: &[u8]) -> Option<(u64, u32)>
    ensures { result ≡ commands.seed_and_records seed.now records.now }
{
    let Some(seed) = plain_number(0, u128::from(u64::MAX), seed) else {
        return None;
    };
    let Some(records) = plain_number(1, 1_000_000, records) else {
        return None;
    };
    Some((seed as u64, records as u32))
}

// The number that a word spells, without zeros in front of other digits.
fn plain_number(low: u128, high: u128, word: &[u8]) -> Option<u128>
    requires { high ≤ 2 ^ 127 }
    ensures value { result ≡ numerals.natural_in low high word.now }
    ensures within { IfSome result (λ n. (low ≤ n) × (n ≤ high)) }
{
    if word.len() > 1 && word[0] == b'0' {
        return None;
    }
    wide_number_in(low, high, word)
}
