ghost use Rattle.std.specs.Prelude.{◌≡◌, length, IfOk};

use crate::lists::texts;
use hierarchy::{CodeTree, TreeFault, flat, from_lead};
use sdc_base::Text;
use std::alloc::Global;

/// The total and these codes right below it.
pub fn tree(alloc: Global, codes: &[&[u8]]) -> Result<CodeTree, TreeFault> {
    flat(
        alloc,
        &texts(alloc, codes)?,
        &Text::from_slice(alloc, b"Total")?,
    )
}

/// The total and the codes `1` and `2`.
pub fn two_codes(alloc: Global) -> Result<CodeTree, TreeFault> {
    tree(alloc, &[b"1", b"2"])
}

/// So many trees of the total and two codes.
pub fn pairs(alloc: Global, count: usize) -> Result<Vec<CodeTree>, TreeFault>
    ensures { IfOk result (λ trees. length trees.items ≡ count) }
{
    let mut trees = Vec::new(alloc);
    'trees: for _ in 0..count {
        trees.push(two_codes(alloc)?)?;
    }
    Ok(trees)
}

/// The total, and by their places 1 `N`, 2 and 3 below it, 4 `S`, and 5 below it.
pub fn regions(alloc: Global) -> Result<CodeTree, TreeFault> {
    let bytes = b"N\n@N1\n@N2\nS\n@S1\n".as_slice();
    from_lead(
        alloc,
        bytes,
        &Text::from_slice(alloc, b"@")?,
        &Text::from_slice(alloc, b"Total")?,
    )
}

/// The total, and by their places 1 `1`, 2 `11` and 3 `12` below it, 4 `2`, 5 `21` and 6 `22` below it.
pub fn two_by_two(alloc: Global) -> Result<CodeTree, TreeFault> {
    let bytes = b"1\n@11\n@12\n2\n@21\n@22\n".as_slice();
    from_lead(
        alloc,
        bytes,
        &Text::from_slice(alloc, b"@")?,
        &Text::from_slice(alloc, b"Total")?,
    )
}
