ghost use Rattle.std.specs.Prelude.{All, ◌≡◌, ℕ, List, ◌+◌, ◌-◌, ◌<◌, ◌≤◌, ◌++◌, ◌∷◌, [], None, false, drop, length, slice_index, sum, IfOk, IfErr, OnOk};
ghost use Rattle.std.specs.Cmp.Lexicographic.{slice_cmp};
ghost use Rattle.std.specs.List.{list_any};
ghost use Rattle.std.specs.List.Sorted.{IsStrictlySortedBy};
ghost use Rattle.std.specs.Ordering.{nat_cmp};
ghost use Rattle.std.specs.Str.{bytes_eq};
ghost use Rattle.sdc_base.specs.Trees.{find, IsCodeTree};
ghost use Rattle.sdc_base.specs.Trees as spec;
ghost use Rattle.sdc_base.specs.Answers.{Gives};
ghost use Rattle.code_trees.specs.Growing.{tree_with_node};
ghost use Rattle.code_trees.specs.Faults.{tree_fault_of, AnswersFault};
ghost use Rattle.code_trees.specs.Levels.{level, boundaries, with_prefixes, codes_with_prefixes, level_fault, first_level_fault, levels_of, tree_of_codes, IsAscending, IsClosed, IsLevelFault};
ghost use Rattle.code_trees.specs.Among.{IsIn, AreAmong};
ghost use Rattle.code_trees.specs.LevelNodes.{AreLevelNodes};
ghost use Rattle.code_trees.specs.Path.{IsPath, next_path, IsLevelOf};

use crate::code_set::CodeSet;
use crate::code_tree::CodeTree;
use crate::entries::Nodes;
use crate::growing::total_alone;
use crate::level_code::{add_prefixes, begins_with_total, has_blank};
use crate::tree_fault::TreeFault;
use sdc_base::Text;
use std::alloc::{AllocError, Global};

// The most codes besides the total.
const MOST: usize = 5000;

/// The tree of codes that have their levels in their digits: its places are the prefixes of each code at the
/// boundaries of the widths and the code itself, in ascending order of bytes, each below its longest proper
/// prefix at a boundary, or else below the total. There are 1 to 9 widths, each of 1 byte or more, and no code is
/// longer than they are together; a code may be shorter, and the codes may come in any order.
///
/// Codes are numbered from 1. The first code with a fault is refused, with what comes first of: `Blank` (a blank
/// inside), `IsTotal` (it or a prefix of it is the total), `Twice` (an earlier entry is the same) and `TooMany` (more
/// than 5,000 places with its prefixes); want of memory is `Memory`. Either leaves what was lent as it was. It takes
/// a look-up for each code, and for each of its prefixes as many comparisons as the places have binary digits.
/// The rule is the manual's, codes that end between two boundaries and the order of refusals are argus's own.
pub fn from_levels(
    alloc: Global,
    codes: &[Text],
    widths: &[u8],
    total: &Text,
) -> Result<CodeTree, TreeFault>
    requires levels { length widths.now ≤ 9 }
    requires at_least_one_width { 0 < length widths.now }
    requires positive { All (λ width. 0 < width) widths.now }
    requires short { All (λ code. length code ≤ sum widths.now) codes.now }
    ensures exact { Gives tree_fault_of (λ tree. tree) result (levels_of total.now widths.now codes.now) }
    ensures kind { IfErr result IsLevelFault }
    ensures nodes { IfOk result (λ tree. AreLevelNodes (boundaries 0 widths.now) codes.now (drop 1 (spec.codes tree))) }
{
    let kept = gather(alloc, codes, widths, total.as_slice())?;
    let bounds = boundaries_of(alloc, widths)?;
    let nodes = place_codes(alloc, &kept, &bounds, total.as_slice())?;
    let tree = CodeTree::of_nodes(alloc, nodes)?;
    Ok(tree)
}

// The boundaries of the widths.
fn boundaries_of(alloc: Global, widths: &[u8]) -> Result<Vec<usize>, AllocError>
    requires { length widths.now ≤ 9 }
    ensures { IfOk result (λ bounds. bounds.items ≡ boundaries 0 widths.now) }
{
    let mut bounds = Vec::new(alloc);
    let mut end: usize = 0;
    'widths: for width in widths {
        end += *width as usize;
        bounds.push(end)?;
    }
    Ok(bounds)
}

// The codes and their prefixes, in order.
fn gather(
    alloc: Global,
    codes: &[Text],
    widths: &[u8],
    total: &[u8],
) -> Result<Vec<Text>, TreeFault>
    requires { length widths.now ≤ 9 }
    ensures told { AnswersFault result (first_level_fault total.now (boundaries 0 widths.now) 1 [] [] codes.now) }
    ensures kind { IfErr result IsLevelFault }
    ensures kept { IfOk result (λ kept. kept.items ≡ codes_with_prefixes (boundaries 0 widths.now) [] codes.now) }
    ensures sorted { IfOk result (λ kept. IsStrictlySortedBy (slice_cmp nat_cmp) kept.items) }
    ensures at_most_5000 { IfOk result (λ kept. length kept.items ≤ 5000) }
    ensures apart { IfOk result (λ kept. list_any (bytes_eq total.now) kept.items ≡ false) }
{
    let mut seen = Nodes::new(alloc);
    let mut kept = CodeSet::new(alloc);
    'codes: for code in codes {
        let number = next_number(&seen, &kept);
        take_code(
            alloc,
            &mut seen,
            &mut kept,
            widths,
            total,
            code.as_slice(),
            number,
        )?;
    }
    let all = kept.into_texts(alloc)?;
    Ok(all)
}

// The number of the next code: one more than were seen, which are no more than those that are kept.
fn next_number(seen: &Nodes, kept: &CodeSet) -> u32
    requires among { AreAmong (spec.codes seen.now) kept.now }
    requires at_most_5000 { length kept.now ≤ 5000 }
    ensures { result ≡ length seen.now + 1 }
{
    seen.len() as u32 + 1
}

// Keeps a code and its prefixes.
fn take_code(
    alloc: Global,
    seen: &mut Nodes,
    kept: &mut CodeSet,
    widths: &[u8],
    total: &[u8],
    code: &[u8],
    number: u32,
) -> Result<(), TreeFault>
    requires at_most_9 { length widths.now ≤ 9 }
    requires apart { list_any (bytes_eq total.now) kept.old ≡ false }
    ensures told { AnswersFault result (level_fault total.now (boundaries 0 widths.now) (spec.codes seen.old) kept.old
        code.now number) }
    ensures kind { IfErr result IsLevelFault }
    ensures kept { OnOk result (kept.new ≡ with_prefixes (boundaries 0 widths.now) kept.old code.now) }
    ensures seen { OnOk result (spec.codes seen.new ≡ spec.codes seen.old ++ code.now ∷ []) }
    ensures among { OnOk result (AreAmong (spec.codes seen.old) kept.old
        → AreAmong (spec.codes seen.new) kept.new) }
    ensures count { OnOk result (length seen.new ≡ length seen.old + 1) }
    ensures at_most_5000 { OnOk result (length kept.new ≤ 5000) }
    ensures apart { OnOk result (list_any (bytes_eq total.now) kept.new ≡ false) }
{
    if has_blank(code) {
        return Err(TreeFault::Blank(number));
    }
    if begins_with_total(total, widths, code) {
        return Err(TreeFault::IsTotal(number));
    }
    if seen.code_place(code).is_some() {
        return Err(TreeFault::Twice(number));
    }
    add_prefixes(alloc, kept, widths, code)?;
    if kept.len() > MOST {
        return Err(TreeFault::TooMany(number));
    }
    seen.push(alloc, code, None)?;
    Ok(())
}

// The nodes of ascending codes, each below its longest proper prefix.
fn place_codes(
    alloc: Global,
    codes: &[Text],
    bounds: &[usize],
    total: &[u8],
) -> Result<Nodes, TreeFault>
    requires sorted { IsStrictlySortedBy (slice_cmp nat_cmp) codes.now }
    requires closed { IsClosed bounds.now codes.now }
    requires ascending { IsAscending 0 bounds.now }
    requires at_most_5000 { length codes.now ≤ 5000 }
    requires shallow { (code : List ℕ) → IsIn code codes.now → level bounds.now code ≤ 8 }
    requires apart { list_any (bytes_eq total.now) codes.now ≡ false }
    ensures nodes { IfOk result (λ nodes. nodes ≡ tree_of_codes total.now bounds.now ((total.now, None) ∷ []) codes.now) }
    ensures tree { IfOk result IsCodeTree }
    ensures told { IfErr result (λ fault. fault ≡ TreeFault.Memory) }
{
    let mut nodes = total_alone(alloc, total)?;
    let mut path = Vec::new(alloc);
    path.push(0)?;
    'codes: for code in codes {
        let place = level_of(bounds, code.as_slice().len());
        place_code(alloc, &mut nodes, &mut path, place, code.as_slice())?;
    }
    Ok(nodes)
}

// How many boundaries are inside a code of this length.
fn level_of(bounds: &[usize], len: usize) -> usize
    ensures level { (code : List ℕ) → length code ≡ len → result ≡ level bounds.now code }
    ensures within { result ≤ length bounds.now }
{
    for (i, bound) in bounds.iter().enumerate() {
        if len <= *bound {
            return i;
        }
    }
    bounds.len()
}

// Adds a new code below the place of the path at this depth.
fn place_code(
    alloc: Global,
    nodes: &mut Nodes,
    path: &mut Vec<u32>,
    depth: usize,
    code: &[u8],
) -> Result<(), TreeFault>
    requires tree { IsCodeTree nodes.old }
    requires path { IsPath nodes.old path.old.items }
    requires new { find nodes.old code.now ≡ None }
    requires fewer_than_5001 { length nodes.old < 5001 }
    requires level { IsLevelOf path.old.items depth }
    ensures told { IfErr result (λ fault. fault ≡ TreeFault.Memory) }
    ensures grows { OnOk result (nodes.new ≡ tree_with_node nodes.old code.now (slice_index path.old.items depth)) }
    ensures next { OnOk result (path.new.items ≡ next_path path.old.items depth (length nodes.old)) }
    ensures tree { OnOk result (IsCodeTree nodes.new) }
    ensures path { OnOk result (IsPath nodes.new path.new.items) }
{
    let place = nodes.len() as u32;
    nodes.push(alloc, code, Some(path[depth]))?;
    path.truncate(depth + 1);
    path.push(place)?;
    Ok(())
}
