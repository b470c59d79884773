ghost use Rattle.std.specs.Prelude.{◌≡◌, ◌≤◌, length, OnOk};
ghost use Rattle.std.specs.List.{list_any};
ghost use Rattle.std.specs.Str.{bytes_eq};
ghost use Rattle.sdc_base.specs.Blanks.{is_blank};
ghost use Rattle.code_trees.specs.Levels.{boundaries, prefixes, with_prefixes};

use crate::code_set::CodeSet;
use sdc_base::Memory;
use std::alloc::Global;

/// Whether a code has a blank inside, a space or a tab. It takes one pass over the bytes. The rule is the manual's.
pub fn has_blank(code: &[u8]) -> bool
    ensures { result ≡ list_any is_blank code.now }
{
    code.iter().any(|b| *b == b' ' || *b == b'\t')
}

/// Whether the total is a code by levels or one of its prefixes: what stands before a boundary inside the code.
///
/// The widths are those of the levels in bytes, at most 9, and the boundaries are their sums from the first one on. A
/// prefix that ends between two boundaries is none. It takes a comparison for each width. The rule is the manual's.
pub fn begins_with_total(total: &[u8], widths: &[u8], code: &[u8]) -> bool
    requires { length widths.now ≤ 9 }
    ensures { result ≡ list_any (bytes_eq total.now) (prefixes (boundaries 0 widths.now) code.now) }
{
    let mut end: usize = 0;
    'widths: for width in widths {
        end += *width as usize;
        if code.len() <= end {
            return total == code;
        }
        if total == &code[..end] {
            return true;
        }
    }
    total == code
}

/// Keeps the prefixes of a code by levels at the boundaries inside it, and the code, each where it isn't kept yet.
///
/// The widths are those of the levels in bytes, at most 9. `Memory` is the only refusal, after which some of the
/// prefixes may be kept. The bytes are copied. It takes, for each prefix, as many comparisons as the number of kept
/// codes has binary digits. The rule is the manual's; that a code may end between two boundaries is argus's own.
pub fn add_prefixes(
    alloc: Global,
    kept: &mut CodeSet,
    widths: &[u8],
    code: &[u8],
) -> Result<(), Memory>
    requires { length widths.now ≤ 9 }
    ensures { OnOk result (kept.new ≡ with_prefixes (boundaries 0 widths.now) kept.old code.now) }
{
    let mut end: usize = 0;
    'widths: for width in widths {
        end += *width as usize;
        if code.len() <= end {
            return kept.insert(alloc, code);
        }
        kept.insert(alloc, &code[..end])?;
    }
    kept.insert(alloc, code)
}
