ghost use Rattle.std.specs.Prelude.{◌≡◌};
ghost use Rattle.std.specs.List.{list_all};
ghost use Rattle.sdc_base.specs.Tokens as spec;

/// Whether the bytes are a file name: 1 to 255 bytes of printable ASCII, the space with it, without the double quote.
/// It takes no memory. The rule is argus's own.
pub fn is_file_name(name: &[u8]) -> bool
    ensures { result ≡ spec.is_file_name name.now }
{
    if name.is_empty() {
        return false;
    }
    if name.len() > 255 {
        return false;
    }
    all_name_bytes(name)
}

// Whether all bytes are such.
fn all_name_bytes(name: &[u8]) -> bool
    ensures { result ≡ list_all spec.is_name_byte name.now }
{
    name.iter().all(|b| is_name_byte(*b))
}

// Printable ASCII without the double quote.
fn is_name_byte(b: u8) -> bool
    ensures { result ≡ spec.is_name_byte b }
{
    b > 31 && b < 127 && b != b'"'
}
