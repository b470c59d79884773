ghost use Rattle.std.specs.Prelude.{◌≡◌, ◌<◌, ◌≤◌, ◌^◌, length, IfOk};
ghost use Rattle.std.specs.List.{position_or_len};
ghost use Rattle.std.specs.Str.{all_ascii_digits};
ghost use Rattle.sdc_base.specs.Answers.{Gives};
ghost use Rattle.sdc_base.specs.Tokens as tokens_specs;
ghost use Rattle.job_lang.specs.Faults.{fault_itself};
ghost use Rattle.job_lang.specs.LineTokens.{behind_mark, quoted_at, run_of, behind_run, number_at, digits_at, end_of_tokens, closing_token};
ghost use Rattle.job_lang.specs.LineTokens as line_tokens;

use crate::faults::JobWhy;
use plain_text::{cut_at, is_blank_byte, number_in, trim};
use std::marker::Model;

/// A reader of an argument's tokens; contracts see the bytes that are left.
#[derive(Drop)]
pub(crate) struct Cursor<'a> {
    rest: &'a [u8],
}

impl<'a> Model for Cursor<'a> {
    ghost use Rattle.std.specs.Prelude.{List, ℕ};

    ghost Value = { List ℕ };

    ghost view = { λ s. s.rest.now };
}

/// A reader before the first token of a text.
pub(crate) fn at_front<'a>(text: &'a [u8]) -> Cursor<'a>
    ensures { result ≡ text.now }
{
    Cursor { rest: text }
}

impl<'a> Cursor<'a> {
    /// The bytes that are left.
    pub(crate) fn rest(&self) -> &'a [u8]
        ensures { result.now ≡ self.now }
    {
        self.rest
    }

    /// Whether the next token begins with this byte.
    pub(crate) fn is_next(&self, mark: u8) -> bool
        ensures { result ≡ line_tokens.is_next mark self.now }
    {
        begins_with(mark, trim(self.rest))
    }

    /// Takes the next token, which must be this mark.
    #[tactic(auto, unfolding(crate::specs::LineTokens::behind_mark), using(crate::proofs::TokenSteps::begins_some))]
    pub(crate) fn mark(&mut self, mark: u8) -> Result<(), JobWhy>
        ensures { Gives fault_itself (λ _. self.new) result (behind_mark mark self.old) }
    {
        let text = trim(self.rest);
        if !begins_with(mark, text) {
            return Err(JobWhy::BadValue);
        }
        self.rest = &text[1..];
        Ok(())
    }

    /// Takes the next token, which must be a word in quotes.
    #[tactic(auto, unfolding(crate::specs::LineTokens::quoted_at))]
    pub(crate) fn quoted_word(&mut self) -> Result<&'a [u8], JobWhy>
        ensures { Gives fault_itself (λ word. (word.now, self.new)) result (quoted_at self.old) }
    {
        self.mark(b'"')?;
        if !self.rest.contains(&b'"') {
            return Err(JobWhy::BadValue);
        }
        let (word, rest) = cut_at(b'"', self.rest);
        self.rest = rest;
        Ok(word)
    }

    /// Takes the run that is the next token; it has no byte where another token stands next.
    pub(crate) fn run(&mut self) -> &'a [u8]
        ensures run { result.now ≡ run_of self.old }
        ensures rest { self.new ≡ behind_run self.old }
    {
        let text = trim(self.rest);
        let end = run_end(text);
        self.rest = &text[end..];
        &text[..end]
    }

    /// Takes the next token, which must be a whole number in these bounds.
    #[tactic(auto, unfolding(crate::specs::LineTokens::number_at))]
    pub(crate) fn number(&mut self, low: u64, high: u64) -> Result<u64, JobWhy>
        requires { high < 10 ^ 18 }
        ensures exact { Gives fault_itself (λ number. (number, self.new)) result (number_at low high self.old) }
        ensures within { IfOk result (λ number. (low ≤ number) × (number ≤ high)) }
    {
        let run = self.run();
        let Some(number) = number_in(low, high, run) else {
            return Err(JobWhy::BadValue);
        };
        Ok(number)
    }

    /// Takes the next token, which must be a whole number of any size; gives its digits without zeros in front.
    #[tactic(auto, unfolding(crate::specs::LineTokens::digits_at))]
    pub(crate) fn digits(&mut self) -> Result<&'a [u8], JobWhy>
        ensures { Gives fault_itself (λ digits. (digits.now, self.new)) result (digits_at self.old) }
    {
        let run = self.run();
        if !is_number(run) {
            return Err(JobWhy::BadValue);
        }
        Ok(without_zeros(run))
    }

    /// There must be no further token.
    #[tactic(auto, unfolding(crate::specs::LineTokens::end_of_tokens))]
    pub(crate) fn end(&self) -> Result<(), JobWhy>
        ensures { Gives fault_itself (λ fine. fine) result (end_of_tokens self.now) }
    {
        if !trim(self.rest).is_empty() {
            return Err(JobWhy::BadValue);
        }
        Ok(())
    }

    /// Takes the last token, which must be a closing parenthesis.
    #[tactic(auto, unfolding(crate::specs::LineTokens::closing_token))]
    pub(crate) fn close(&mut self) -> Result<(), JobWhy>
        ensures { Gives fault_itself (λ fine. fine) result (closing_token self.old) }
    {
        self.mark(b')')?;
        self.end()
    }
}

// Whether the first byte is this one.
fn begins_with(mark: u8, text: &[u8]) -> bool
    ensures { result ≡ line_tokens.begins_with mark text.now }
{
    let Some(first) = text.first() else {
        return false;
    };
    *first == mark
}

// A blank, a quote or a mark.
fn is_break(b: u8) -> bool
    ensures { result ≡ line_tokens.is_break b }
{
    is_blank_byte(b) || b == b'"' || b == b'|' || b == b',' || b == b'(' || b == b')'
}

// The place of the first byte at which a run ends, or the length where there is none.
fn run_end(text: &[u8]) -> usize
    ensures place { result ≡ position_or_len line_tokens.is_break text.now }
    ensures within { result ≤ length text.now }
{
    for (i, b) in text.iter().enumerate() {
        if is_break(*b) {
            return i;
        }
    }
    text.len()
}

// One digit or more, and nothing else.
fn is_number(digits: &[u8]) -> bool
    ensures { result ≡ tokens_specs.is_number digits.now }
{
    if digits.is_empty() {
        return false;
    }
    all_digits(digits)
}

// Whether all bytes are digits.
fn all_digits(digits: &[u8]) -> bool
    ensures { result ≡ all_ascii_digits digits.now }
{
    for b in digits {
        if !b.is_ascii_digit() {
            return false;
        }
    }
    true
}

// The digits from the first that is no zero.
fn without_zeros(digits: &[u8]) -> &[u8]
    ensures { result.now ≡ line_tokens.without_zeros digits.now }
{
    for (i, b) in digits.iter().enumerate() {
        if *b != b'0' {
            return &digits[i..];
        }
    }
    &[]
}
