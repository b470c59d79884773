ghost use Rattle.std.specs.Prelude.{◌≡◌, IfErr};
ghost use Rattle.sdc_base.specs.Answers.{Gives};
ghost use Rattle.code_trees.specs.Faults.{tree_fault_of, IsCodeFault};
ghost use Rattle.code_trees.specs.FlatForm.{flat_of};

use crate::code_tree::CodeTree;
use crate::growing::{add, total_alone};
use crate::tree_fault::TreeFault;
use sdc_base::Text;
use std::alloc::{AllocError, Global};

/// The total with these codes right below it, in the given order: the tree of a variable without levels.
///
/// Codes are numbered from 1. The first code that is the total, stood before or is the 5,001st is refused, as
/// `IsTotal`, `Twice` or `TooMany`, looked for in this order; want of memory is `Memory`. Either leaves what was
/// lent as it was. It takes two look-ups a code. The rule is the manual's, the order of refusals argus's own.
pub fn flat(alloc: Global, codes: &[Text], total: &Text) -> Result<CodeTree, TreeFault>
    ensures exact { Gives tree_fault_of (λ tree. tree) result (flat_of total.now codes.now) }
    ensures kind { IfErr result IsCodeFault }
{
    let mut nodes = total_alone(alloc, total.as_slice())?;
    'codes: for (i, code) in codes.iter().enumerate() {
        add(alloc, &mut nodes, code.as_slice(), 0, i as u32 + 1)?;
    }
    let tree = CodeTree::of_nodes(alloc, nodes)?;
    Ok(tree)
}
