ghost use Rattle.std.specs.Prelude.{◌≡◌, ◌+◌, ◌<◌, ◌≤◌, ◌↔◌, length, [], ◌∷◌, IsNone, IfNone, IfSome};
ghost use Rattle.std.specs.List.{position_or_len};
ghost use Rattle.std.specs.Str.Lines.{strip_carriage_return};
ghost use Rattle.sdc_base.specs.Lines.{is_line_feed};
ghost use Rattle.sdc_base.specs.Lines as spec;

use std::marker::Model;

/// A line of a text.
#[derive(Clone, Copy)]
pub struct Line<'a> {
    /// Its number, from 1.
    pub number: u64,
    /// Its bytes, without its end.
    pub text: &'a [u8],
}

/// A reader that gives the lines of a text, one after another.
#[derive(Drop)]
pub struct LineReader<'a> {
    rest: &'a [u8],
    given: u64,
}

impl<'a> Model for LineReader<'a> {
    ghost use Rattle.std.specs.Prelude.{List, ℕ, length, ◌+◌, ◌<◌, ◌^◌};
    ghost use Rattle.plain_text.specs.Reading.{LinesView};

    ghost Value = { LinesView };

    ghost view = { λ s. record { rest = s.rest.now; given = s.given } };

    ghost invariant = { λ s. s.given + length s.rest.now < 2 ^ 64 };
}

/// A reader of the text's lines, before the first one. A line ends with LF or CRLF, and the last end
/// may be missing; a CR that no LF follows belongs to its line. The call looks at no byte and takes no
/// memory. The rule is argus's own.
pub fn lines<'a>(bytes: &'a [u8]) -> LineReader<'a>
    ensures start { result ≡ record { rest = bytes.now; given = 0 } }
    ensures no_more_than_bytes { length (spec.lines bytes.now) ≤ length bytes.now }
{
    LineReader {
        rest: bytes,
        given: 0,
    }
}

impl<'a> LineReader<'a> {
    /// The next line with its number, from 1, and none at the end. What is given are the lines of the
    /// text in their order: a loop over this call is a loop over them. It has no refusal and takes no
    /// memory, and looks at the bytes of the line only.
    pub fn next_line(&mut self) -> Option<Line<'a>>
        ensures end { IsNone result ↔ (spec.lines self.old.rest ≡ []) }
        ensures same { IfNone result (self.new ≡ self.old) }
        ensures text { IfSome result (λ line. spec.lines self.old.rest ≡ line.text.now ∷ spec.lines self.new.rest) }
        ensures number { IfSome result (λ line. line.number ≡ self.old.given + 1) }
        ensures given { IfSome result (λ line. self.new.given ≡ line.number) }
        ensures bytes { IfSome result (λ line. length line.text.now + length self.new.rest ≤ length self.old.rest) }
        ensures shorter { IfSome result (λ _. length self.new.rest < length self.old.rest) }
        ensures total { self.new.given + length (spec.lines self.new.rest)
            ≡ self.old.given + length (spec.lines self.old.rest) }
    {
        if self.rest.is_empty() {
            return None;
        }
        let (text, rest) = first_line(self.rest);
        self.rest = rest;
        self.given += 1;
        Some(Line {
            number: self.given,
            text,
        })
    }
}

// The first line, without its end, and what follows it.
fn first_line(bytes: &[u8]) -> (&[u8], &[u8])
    requires { 0 < length bytes.now }
    ensures line { spec.lines bytes.now ≡ result.0.now ∷ spec.lines result.1.now }
    ensures bytes { length result.0.now + length result.1.now ≤ length bytes.now }
    ensures shorter { length result.1.now < length bytes.now }
{
    let end = line_end(bytes);
    if end == bytes.len() {
        (bytes, &[])
    } else {
        (without_return(&bytes[..end]), &bytes[end + 1..])
    }
}

// The place of the first LF, or the length where there is none.
fn line_end(bytes: &[u8]) -> usize
    ensures { result ≡ position_or_len is_line_feed bytes.now }
{
    for (i, b) in bytes.iter().enumerate() {
        if ends_line(*b) {
            return i;
        }
    }
    bytes.len()
}

// LF alone ends a line.
fn ends_line(b: u8) -> bool
    ensures { result ≡ is_line_feed b }
{
    b == b'\n'
}

/// A line that ended with LF, without a CR at its end. Nothing is refused. The rule is argus's own.
pub fn without_return(line: &[u8]) -> &[u8]
    ensures text { result.now ≡ strip_carriage_return line.now }
    ensures bytes { length result.now ≤ length line.now }
{
    let n = line.len();
    if n > 0 && line[n - 1] == b'\r' {
        &line[..n - 1]
    } else {
        line
    }
}
