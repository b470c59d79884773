ghost use Rattle.std.specs.Option.{ForSome, option_map_or};
ghost use Rattle.std.specs.Prelude.{◌≡◌, ℕ, slice_index, ◌+◌, ◌<◌, ◌≤◌, None, Some, length, slice_index_or, option_map, IfSome, IfOk, MatchOption};
ghost use Rattle.sdc_base.specs.Trees.{find, parent_at, climb, IsCodeTree};
ghost use Rattle.code_trees.specs.Children.{code_at, first_child, next_sibling};
ghost use Rattle.code_trees.specs.Links.{AreDepths, with_child, sibling_of};

use crate::entries::Nodes;
use std::alloc::{AllocError, Global};
use std::marker::Model;

/// A tree of codes, which contracts see as the list of its codes in preorder, each with its parent. Places
/// are numbered from 0, and place 0 is the total, which has no parent. The codes are distinct, at most 5,000
/// besides the total, and no place is more than nine steps from the total.
///
/// It keeps the depth, the first child and the next sibling of each place, so that each read is one look.
/// A read takes no memory.
#[derive(Drop)]
pub struct CodeTree {
    nodes: Nodes,
    depths: Vec<u32>,
    firsts: Vec<Option<u32>>,
    nexts: Vec<Option<u32>>,
}

impl Model for CodeTree {
    ghost use Rattle.sdc_base.specs.Trees.{Tree};
    ghost use Rattle.code_trees.specs.Links.{IsLinked};

    ghost Value = { Tree };

    ghost view = { λ s. s.nodes };

    ghost invariant = { λ s. IsLinked s.nodes s.depths.items s.firsts.items s.nexts.items };
}

impl CodeTree {
    /// How many codes there are, the total included.
    pub fn len(&self) -> usize
        ensures len { result ≡ length self.now }
        ensures tree { IsCodeTree self.now }
    {
        self.depths.len()
    }

    /// The place of a code, or none where the tree doesn't have it. It takes one look-up by the code's bytes.
    pub fn find(&self, code: &[u8]) -> Option<u32>
        ensures { result ≡ find self.now code.now }
    {
        let place = self.nodes.code_place(code)?;
        Some(place as u32)
    }

    /// The code at a place, or none behind the last place.
    pub fn code(&self, place: u32) -> Option<&[u8]>
        ensures { option_map (λ code. code.now) result ≡ code_at self.now place }
    {
        let (code, _) = self.nodes.get(place as usize)?;
        Some(code)
    }

    /// The parent of a place, or none for the total and behind the last place.
    pub fn parent(&self, place: u32) -> Option<u32>
        ensures { result ≡ parent_at self.now place }
    {
        self.nodes.parent_at(place as usize)
    }

    /// How many steps to a parent lead from a place to the total, or none behind the last place. That of the
    /// total is 0.
    pub fn depth(&self, place: u32) -> Option<u32>
        ensures { MatchOption result (length self.now ≤ place) (λ depth. climb self.now depth place ≡ Some 0) }
    {
        let depth = self.depths.get(place as usize)?;
        Some(*depth)
    }

    /// The first place whose parent this place is, or none where there is none.
    pub fn first_child(&self, place: u32) -> Option<u32>
        ensures { result ≡ first_child self.now place }
    {
        let child = self.firsts.get(place as usize)?;
        *child
    }

    /// The first later place with the same parent, or none where there is none; the total has none.
    pub fn next_sibling(&self, place: u32) -> Option<u32>
        ensures { result ≡ next_sibling self.now place }
    {
        let sibling = self.nexts.get(place as usize)?;
        *sibling
    }
}

// The depth of each place: one more than the parent's.
fn depths_of(alloc: Global, nodes: &Nodes) -> Result<Vec<u32>, AllocError>
    requires { IsCodeTree nodes.now }
    ensures len { IfOk result (λ depths. length depths.items ≡ length nodes.now) }
    ensures depths { IfOk result (λ depths. AreDepths nodes.now (length nodes.now) depths.items) }
{
    let mut depths = Vec::new(alloc);
    'places: for place in 0..nodes.len() {
        let depth = depth_under(&depths, nodes.parent_at(place));
        depths.push(depth)?;
    }
    Ok(depths)
}

// One more than the depth of the parent.
fn depth_under(depths: &[u32], parent: Option<u32>) -> u32
    requires known { ForSome parent (λ above. above < length depths.now) }
    requires small { (place : ℕ) → place < length depths.now → slice_index depths.now place ≤ place }
    requires at_most_5001 { length depths.now ≤ 5001 }
    ensures { result ≡ option_map_or (λ above. slice_index depths.now above + 1) parent 0 }
{
    match parent {
        Some(above) => depths[above as usize] + 1,
        // As the definition has it: the total, which has no parent, is at depth 0.
        None => 0,
    }
}

// The parent's first child so far, whose place is taken by this place.
fn link(firsts: &mut Vec<Option<u32>>, parent: Option<u32>, place: u32) -> Option<u32>
    requires { ForSome parent (λ above. above < length firsts.old.items) }
    ensures sibling { result ≡ sibling_of firsts.old.items parent }
    ensures child { firsts.new.items ≡ with_child firsts.old.items parent place }
{
    let above = parent?;
    let sibling = firsts[above as usize];
    firsts[above as usize] = Some(place);
    sibling
}

// The first child of each place, and, in `nexts`, the next sibling.
fn links_of(nodes: &Nodes, firsts: &mut Vec<Option<u32>>, nexts: &mut Vec<Option<u32>>)
    requires tree { IsCodeTree nodes.now }
    requires firsts { length firsts.old.items ≡ length nodes.now }
    requires nexts { length nexts.old.items ≡ length nodes.now }
    requires none { (place : ℕ) → slice_index_or firsts.old.items place None ≡ None }
    requires alone { (place : ℕ) → slice_index_or nexts.old.items place None ≡ None }
    ensures children { (place : ℕ) → slice_index_or firsts.new.items place None ≡ first_child nodes.now place }
    ensures siblings { (place : ℕ) → slice_index_or nexts.new.items place None ≡ next_sibling nodes.now place }
{
    let mut place = nodes.len();
    'places: while place > 0 {
        place -= 1;
        let parent = nodes.parent_at(place);
        let sibling = link(firsts, parent, place as u32);
        nexts[place] = sibling;
    }
}

impl CodeTree {
    /// The tree of nodes, which have the total in front, stand in preorder, and are within the limits of a tree.
    ///
    /// It keeps the depth, the first child and the next sibling of each, in two passes. Its one refusal is want of
    /// memory, and what was given is let go then. Trees are the manual's, the limits argus's own.
    pub fn of_nodes(alloc: Global, nodes: Nodes) -> Result<CodeTree, AllocError>
        requires { IsCodeTree nodes }
        ensures { IfOk result (λ tree. tree ≡ nodes) }
    {
        let depths = depths_of(alloc, &nodes)?;
        let mut firsts: Vec<Option<u32>> = Vec::from_elem(alloc, None, nodes.len())?;
        let mut nexts: Vec<Option<u32>> = Vec::from_elem(alloc, None, nodes.len())?;
        links_of(&nodes, &mut firsts, &mut nexts);
        Ok(CodeTree {
            nodes,
            depths,
            firsts,
            nexts,
        })
    }

    /// The nodes alone. It takes no memory.
    pub fn into_nodes(self) -> Nodes
        ensures nodes { result ≡ self }
        ensures tree { IsCodeTree result }
    {
        let CodeTree {
            nodes,
            depths: _depths,
            firsts: _firsts,
            nexts: _nexts,
        } = self;
        nodes
    }
}
