ghost use Rattle.std.specs.Prelude.{◌≡◌, ◌≤◌, [], length, slice_index_or, All};
ghost use Rattle.sdc_base.specs.Trees.{IsCodeTree};
ghost use Rattle.sdc_base.specs.CutTrees as cut_trees;
ghost use Rattle.sdc_base.specs.Cells.{cut_tree, trees_of};
ghost use Rattle.sdc_base.specs.Cells as cells;
ghost use Rattle.sdc_base.specs.CellOrder.{is_place_in};
ghost use Rattle.linked_tables.specs.Tables.{has_unknown, has_twice};

use code_trees::CodeTree;
use sdc_base::Dimension;

/// How many codes the tree of a variable has, and none where there is no such variable.
pub(crate) fn size_at(trees: &[CodeTree], variable: u32) -> usize
    ensures size { result ≡ length (slice_index_or trees.now variable []) }
    ensures small { result ≤ 5001 }
{
    match trees.get(variable as usize) {
        Some(tree) => tree.len(),
        // As the definition has it: behind the last variable there are no codes.
        None => 0,
    }
}

/// How many codes are above a code of a variable; none where there is no such variable or code.
pub(crate) fn depth_at(trees: &[CodeTree], variable: u32, code: u32) -> u32
    ensures { result ≡ cut_trees.depth_in (slice_index_or trees.now variable []) code }
{
    // As the definition has it: a variable or a code behind the last one has depth 0.
    let Some(tree) = trees.get(variable as usize) else {
        return 0;
    };
    // for the proof: a tree that tells its length says that it is a code tree
    let _ = tree.len();
    match tree.depth(code) {
        Some(depth) => depth,
        None => 0,
    }
}

/// Whether a code is at most as deep as a table goes that spans its variable so.
pub(crate) fn is_within(trees: &[CodeTree], dimension: Dimension, code: u32) -> bool
    ensures { result ≡ cut_trees.is_within (cut_tree trees.now dimension) code }
{
    depth_at(trees, dimension.variable, code) <= dimension.depth
}

/// Whether a table that spans a variable so has a code of it.
pub(crate) fn has_code(trees: &[CodeTree], dimension: Dimension, code: u32) -> bool
    ensures { result ≡ cut_trees.has_code (cut_tree trees.now dimension) code }
{
    (code as usize) < size_at(trees, dimension.variable) && is_within(trees, dimension, code)
}

/// What each tree says of itself: it has its total, and few codes. It does nothing.
pub(crate) fn know_trees(trees: &[CodeTree])
    ensures { All IsCodeTree trees.now }
{
    'trees: for tree in trees {
        // for the proof: a tree that tells its length says that it is a code tree
        let _ = tree.len();
    }
}

/// Whether a place has one code for each variable of a table, each one that the table has.
pub(crate) fn is_place(trees: &[CodeTree], table: &[Dimension], place: &[u32]) -> bool
    ensures { result ≡ is_place_in (trees_of trees.now table.now) place.now }
{
    for (k, dimension) in table.iter().enumerate() {
        if k >= place.len() {
            return false;
        }
        if !has_code(trees, *dimension, place[k]) {
            return false;
        }
    }
    place.len() == table.len()
}

/// Whether a table spans a variable that isn't one of so many.
pub(crate) fn spans_unknown(variables: usize, table: &[Dimension]) -> bool
    ensures { result ≡ has_unknown variables table.now }
{
    table
        .iter()
        .any(|dimension| variables <= dimension.variable as usize)
}

/// Whether a table spans a variable twice.
pub(crate) fn spans_twice(table: &[Dimension]) -> bool
    ensures { result ≡ has_twice table.now }
{
    for (k, dimension) in table.iter().enumerate() {
        if spans(&table[k + 1..], dimension.variable) {
            return true;
        }
    }
    false
}

// Whether a table spans a variable.
fn spans(table: &[Dimension], variable: u32) -> bool
    ensures { result ≡ cells.spans table.now variable }
{
    table.iter().any(|dimension| dimension.variable == variable)
}
