ghost use Rattle.std.specs.Prelude.{◌≡◌, ◌<◌, ◌^◌, length, IfErr, OnOk};
ghost use Rattle.sdc_base.specs.Trees.{codes, IsCodeTree};
ghost use Rattle.sdc_base.specs.Answers.{Gives};
ghost use Rattle.code_trees.specs.Faults.{tree_fault_of, AnswersFault};
ghost use Rattle.code_trees.specs.MissingCodes.{missing_fault, with_code, with_codes, IsMissingFault};

use crate::code_tree::CodeTree;
use crate::entries::Nodes;
use crate::growing::add;
use crate::tree_fault::TreeFault;
use sdc_base::Text;
use std::alloc::{AllocError, Global};

/// The tree with each missing code that it lacks as a last child of the total, in the order of the codes. The
/// places that it had stay as they are.
///
/// There are fewer than `2^32` missing codes, numbered from 1. The first that is the total, or would be the
/// 5,001st code, is refused, as `IsTotal` or `TooMany`; want of memory is `Memory`. With a refusal the tree is
/// dropped, and the codes are left as they were. It takes three look-ups a code, and two passes over the tree.
/// The rule is argus's own.
pub fn with_missing(alloc: Global, tree: CodeTree, missing: &[Text]) -> Result<CodeTree, TreeFault>
    requires { length missing.now < 2 ^ 32 }
    ensures exact { Gives tree_fault_of (λ tree. tree) result (with_codes 1 tree missing.now) }
    ensures kind { IfErr result IsMissingFault }
{
    let mut nodes = tree.into_nodes();
    'missing: for (i, code) in missing.iter().enumerate() {
        add_missing(alloc, &mut nodes, code.as_slice(), i as u32 + 1)?;
    }
    let whole = CodeTree::of_nodes(alloc, nodes)?;
    Ok(whole)
}

// Adds a code right below the total, unless it is there.
fn add_missing(alloc: Global, nodes: &mut Nodes, code: &[u8], number: u32) -> Result<(), TreeFault>
    requires { IsCodeTree nodes.old }
    ensures told { AnswersFault result (missing_fault (codes nodes.old) code.now number) }
    ensures kind { IfErr result IsMissingFault }
    ensures grows { OnOk result (nodes.new ≡ with_code nodes.old code.now) }
    ensures tree { OnOk result (IsCodeTree nodes.new) }
{
    if let Some(place) = nodes.code_place(code) {
        if place == 0 {
            return Err(TreeFault::IsTotal(number));
        }
        return Ok(());
    }
    add(alloc, nodes, code, 0, number)
}
