ghost use Rattle.std.specs.Prelude.{◌≡◌, ◌+◌, ◌≤◌, length};
ghost use Rattle.microdata.specs.Fields as spec;

use plain_text::trim;

/// The bytes of a field of a record, without blanks at both ends.
pub(crate) fn field(first: u32, width: u32, line: &[u8]) -> &[u8]
    requires first { 1 ≤ first }
    requires inside { first + width ≤ length line.now + 1 }
    ensures text { result.now ≡ spec.field first width line.now }
    ensures within { length result.now ≤ length line.now }
{
    let start = first as usize - 1;
    let bytes = &line[start..];
    trim(&bytes[..width as usize])
}
