ghost use Rattle.std.specs.Prelude.{◌≡◌, ◌<◌, length, [], ◌∷◌, IfNone, IfSome};
ghost use Rattle.rda_meta.specs.Words.{first_word, behind_word};
ghost use Rattle.rda_meta.specs.Words as spec;

use plain_text::{cut_at, cut_at_blank, trim};
use std::marker::Model;

/// The words of a line, one after another; contracts see the list of those that are left.
#[derive(Drop)]
pub(crate) struct Words<'a> {
    rest: &'a [u8],
}

impl<'a> Model for Words<'a> {
    ghost use Rattle.std.specs.Prelude.{List, ℕ};
    ghost use Rattle.rda_meta.specs.Words as spec;

    ghost Value = { List (List ℕ) };

    ghost view = { λ s. spec.words s.rest.now };
}

/// The words of a line.
pub(crate) fn words_in<'a>(line: &'a [u8]) -> Words<'a>
    ensures { result ≡ spec.words line.now }
{
    Words { rest: line }
}

impl<'a> Words<'a> {
    /// The next word, and none at the end of the line.
    #[tactic(auto, using(crate::proofs::WordList::words_none, crate::proofs::WordList::words_some))]
    pub(crate) fn next_word(&mut self) -> Option<&'a [u8]>
        ensures end { IfNone result (self.old ≡ []) }
        ensures same { IfNone result (self.new ≡ self.old) }
        ensures word { IfSome result (λ word. self.old ≡ word.now ∷ self.new) }
    {
        let line = trim(self.rest);
        if line.is_empty() {
            return None;
        }
        let (word, rest) = cut_word(line);
        self.rest = rest;
        Some(word)
    }
}

// The first word of a line, and what stands behind it.
fn cut_word(line: &[u8]) -> (&[u8], &[u8])
    requires { 0 < length line.now }
    ensures word { result.0.now ≡ first_word line.now }
    ensures rest { result.1.now ≡ behind_word line.now }
{
    if is_quoted(line) {
        return cut_at(b'"', &line[1..]);
    }
    cut_at_blank(line)
}

// Whether the line begins with a quote that another one follows.
fn is_quoted(line: &[u8]) -> bool
    requires { 0 < length line.now }
    ensures { result ≡ spec.is_quoted line.now }
{
    line[0] == b'"' && line[1..].contains(&b'"')
}
