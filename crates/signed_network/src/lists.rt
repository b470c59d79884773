ghost use Rattle.std.specs.Prelude.{◌≡◌, ℕ, length, IfOk, slice_index_or, []};

use sdc_base::{Items, Memory};
use std::alloc::Global;

/// So many empty lists of numbers.
///
/// Its one refusal is want of memory. It makes each list once; the rule is argus's own.
pub fn empty_lists(alloc: Global, count: u32) -> Result<Vec<Items<u32>>, Memory>
    ensures many { IfOk result (λ lists. length lists.items ≡ count) }
    ensures empty { IfOk result (λ lists. (place : ℕ) → slice_index_or lists.items place [] ≡ []) }
{
    let mut lists = Vec::new(alloc);
    'lists: for _ in 0..count {
        lists.push(Items::empty(alloc))?;
    }
    Ok(lists)
}
