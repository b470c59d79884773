ghost use Rattle.std.specs.Prelude.{◌≡◌, ◌≤◌, ◌^◌, is_some};
ghost use Rattle.std.specs.List.{list_any};
ghost use Rattle.certificate.specs.Numerals as numerals;
ghost use Rattle.certificate.specs.Pieces as pieces;
ghost use Rattle.cell_listing.specs.IntervalFiles as spec;

use plain_text::{cut_at, wide_number_in};

// The greatest number that stands in an end.
const GREATEST: u128 = 170_141_183_460_469_231_731_687_303_715_884_105_727;

/// Whether a text is that of a lower end: a whole number, or one that is divided by another, above 1.
pub(crate) fn is_fraction(text: &[u8]) -> bool
    ensures { result ≡ spec.is_fraction text.now }
{
    if !has_slash(text) {
        return is_natural(0, text);
    }
    let (num, den) = cut_at(b'/', text);
    if !is_natural(0, num) {
        return false;
    }
    is_natural(2, den)
}

/// Whether a text is that of an upper end: that of a lower one, or the word `open`.
pub(crate) fn is_upper_end(text: &[u8]) -> bool
    ensures { result ≡ spec.is_upper_end text.now }
{
    if is_fraction(text) {
        return true;
    }
    text == b"open".as_slice()
}

// Whether there is a slash in the text.
fn has_slash(text: &[u8]) -> bool
    ensures { result ≡ list_any spec.is_slash text.now }
{
    text.contains(&b'/')
}

// Whether the text is that of a number, from `low` on: its digits, without a zero in front of others.
fn is_natural(low: u128, text: &[u8]) -> bool
    requires { low ≤ 2 ^ 127 }
    ensures { result ≡ spec.is_natural low text.now }
{
    if is_padded(text) {
        return false;
    }
    wide_number_in(low, GREATEST, text).is_some()
}

// Whether a zero stands in front of other digits.
fn is_padded(text: &[u8]) -> bool
    ensures { result ≡ numerals.is_padded text.now }
{
    text.len() > 1 && begins_with_zero(text)
}

// Whether the first byte is a zero.
fn begins_with_zero(text: &[u8]) -> bool
    ensures { result ≡ pieces.begins_with 48 text.now }
{
    let Some(first) = text.first() else {
        return false;
    };
    *first == b'0'
}
