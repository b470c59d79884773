ghost use Rattle.std.specs.Prelude.{◌≡◌, ◌==◌, ◌≤◌, ◌+◌, take, drop, length};
ghost use Rattle.std.specs.List.{position_or_len, before_first, after_first};
ghost use Rattle.sdc_base.specs.Blanks.{is_blank};

use crate::blanks::is_blank_byte;

/// The bytes before the first that is this mark, and those behind it; all and none where there is no such byte. It
/// takes no memory and looks at each byte once. The rule is argus's own.
pub fn cut_at(mark: u8, bytes: &[u8]) -> (&[u8], &[u8])
    ensures front { result.0.now ≡ before_first (λ b. b == mark) bytes.now }
    ensures rest { result.1.now ≡ after_first (λ b. b == mark) bytes.now }
{
    let end = mark_place(mark, bytes);
    cut(bytes, end)
}

/// The bytes before the first blank, and those behind it; all and none where there is no blank. It takes no memory and
/// looks at each byte once. The rule is argus's own.
pub fn cut_at_blank(bytes: &[u8]) -> (&[u8], &[u8])
    ensures front { result.0.now ≡ before_first is_blank bytes.now }
    ensures rest { result.1.now ≡ after_first is_blank bytes.now }
{
    let end = blank_place(bytes);
    cut(bytes, end)
}

// The bytes before a place, and those behind it.
fn cut(bytes: &[u8], end: usize) -> (&[u8], &[u8])
    requires { end ≤ length bytes.now }
    ensures front { result.0.now ≡ take end bytes.now }
    ensures rest { result.1.now ≡ drop (end + 1) bytes.now }
{
    if end == bytes.len() {
        return (bytes, &[]);
    }
    (&bytes[..end], &bytes[end + 1..])
}

// The place of the first byte that is this mark, or the length where there is none.
fn mark_place(mark: u8, bytes: &[u8]) -> usize
    ensures place { result ≡ position_or_len (λ b. b == mark) bytes.now }
    ensures within { result ≤ length bytes.now }
{
    for (i, b) in bytes.iter().enumerate() {
        if *b == mark {
            return i;
        }
    }
    bytes.len()
}

// The place of the first blank, or the length where there is none.
fn blank_place(bytes: &[u8]) -> usize
    ensures place { result ≡ position_or_len is_blank bytes.now }
    ensures within { result ≤ length bytes.now }
{
    for (i, b) in bytes.iter().enumerate() {
        if is_blank_byte(*b) {
            return i;
        }
    }
    bytes.len()
}
