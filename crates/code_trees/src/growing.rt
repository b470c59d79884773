ghost use Rattle.std.specs.Prelude.{◌≡◌, ◌-◌, ◌<◌, length, None, Some, [], ◌∷◌, IfOk, IfErr, OnOk};
ghost use Rattle.sdc_base.specs.Trees.{codes, find, IsCodeTree, IsUnder};
ghost use Rattle.code_trees.specs.Growing.{tree_with_node, HasRoomBelow};
ghost use Rattle.code_trees.specs.Faults.{code_fault, known_fault, AnswersFault, IsCodeFault};

use crate::entries::Nodes;
use crate::tree_fault::TreeFault;
use std::alloc::{AllocError, Global};

// The most codes besides the total.
const MOST: usize = 5000;

/// The total alone, without a parent: the codes that a tree begins with.
///
/// `Memory` is the only refusal. The code is copied. Trees are the manual's.
pub fn total_alone(alloc: Global, total: &[u8]) -> Result<Nodes, TreeFault>
    ensures nodes { IfOk result (λ nodes. nodes ≡ (total.now, None) ∷ []) }
    ensures tree { IfOk result IsCodeTree }
    ensures told { IfErr result (λ fault. fault ≡ TreeFault.Memory) }
{
    let mut nodes = Nodes::new(alloc);
    nodes.push(alloc, total, None)?;
    Ok(nodes)
}

/// Adds a code right below a place that is the last or above it, or says why it doesn't fit: it is the total,
/// stands already, or is one too many, of which the fault gives this number.
///
/// The parent is at most eight steps from the total, so that the code is at most nine from it. After a refusal the
/// nodes are to be let go. The code is copied, and it takes two look-ups. Trees are the manual's, the limits and the
/// order of refusals argus's own.
pub fn add(
    alloc: Global,
    nodes: &mut Nodes,
    code: &[u8],
    parent: u32,
    number: u32,
) -> Result<(), TreeFault>
    requires tree { IsCodeTree nodes.old }
    requires under { IsUnder nodes.old (length nodes.old - 1) parent }
    requires room { HasRoomBelow nodes.old parent }
    ensures told { AnswersFault result (code_fault (codes nodes.old) code.now number) }
    ensures kind { IfErr result IsCodeFault }
    ensures grows { OnOk result (nodes.new ≡ tree_with_node nodes.old code.now parent) }
    ensures tree { OnOk result (IsCodeTree nodes.new) }
{
    if let Some(place) = nodes.code_place(code) {
        return Err(known_code(place, number));
    }
    if nodes.len() > MOST {
        return Err(TreeFault::TooMany(number));
    }
    nodes.push(alloc, code, Some(parent))?;
    Ok(())
}

// The fault of a code that is at this place already.
fn known_code(place: usize, number: u32) -> TreeFault
    ensures fault { result ≡ known_fault place number }
    ensures kind { IsCodeFault result }
{
    if place == 0 {
        TreeFault::IsTotal(number)
    } else {
        TreeFault::Twice(number)
    }
}
