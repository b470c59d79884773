ghost use Rattle.std.specs.Prelude.{◌≡◌, ◌≤◌, length};
ghost use Rattle.sdc_base.specs.Blanks.{is_blank, trim_back, trim_front, IsTrimmed};
ghost use Rattle.sdc_base.specs.Blanks as spec;

/// The bytes without the blanks at both ends. A blank is a space or a tab; every other byte stays, a
/// form feed and a CR among them. The call has no refusal, takes no memory and looks at the bytes that
/// it drops and one at each end. The rule is argus's own.
pub fn trim(bytes: &[u8]) -> &[u8]
    ensures value { result.now ≡ spec.trim bytes.now }
    ensures blanks { IsTrimmed bytes.now result.now }
    ensures within { length result.now ≤ length bytes.now }
{
    without_back(without_front(bytes))
}

/// Whether the byte is a blank: a space or a tab. The rule is argus's own.
pub fn is_blank_byte(b: u8) -> bool
    ensures { result ≡ is_blank b }
{
    b == b' ' || b == b'\t'
}

// The bytes from the first that is no blank.
fn without_front(bytes: &[u8]) -> &[u8]
    ensures text { result.now ≡ trim_front bytes.now }
    ensures within { length result.now ≤ length bytes.now }
{
    for (i, b) in bytes.iter().enumerate() {
        if !is_blank_byte(*b) {
            return &bytes[i..];
        }
    }
    &[]
}

// The bytes up to the last that is no blank.
fn without_back(bytes: &[u8]) -> &[u8]
    ensures text { result.now ≡ trim_back bytes.now }
    ensures within { length result.now ≤ length bytes.now }
{
    let mut end = bytes.len();
    'back: while end > 0 && is_blank_byte(bytes[end - 1]) {
        end -= 1;
    }
    &bytes[..end]
}
