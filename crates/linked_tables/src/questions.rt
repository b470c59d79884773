ghost use Rattle.std.specs.Prelude.{◌≡◌, ◌≤◌, length, option_map};
ghost use Rattle.sdc_base.specs.Trees.{parent_at};
ghost use Rattle.sdc_base.specs.CutTrees as cut_trees;
ghost use Rattle.sdc_base.specs.Cells.{cut_tree};
ghost use Rattle.code_trees.specs.Children.{code_at, first_child, next_sibling};
ghost use Rattle.linked_tables.specs.BookCells.{tree_of};
ghost use Rattle.linked_tables.specs.BookCells as spec;

use crate::book::Book;
use crate::places::{depth_at, has_code, is_within};
use sdc_base::Dimension;

/// What is asked of the tree of one variable. None takes memory, and each is one look.
impl Book {
    /// How many codes a variable has, the total among them. Behind the last variable there are none.
    pub fn size(&self, variable: u32) -> usize
        ensures size { result ≡ length (tree_of self.now variable) }
        ensures small { result ≤ 5001 }
    {
        match self.tree(variable) {
            Some(tree) => tree.len(),
            // As the definition has it: behind the last variable there are no codes.
            None => 0,
        }
    }

    /// The code at a place of a variable's tree, or none where there is no such variable or place.
    pub fn code(&self, variable: u32, place: u32) -> Option<&[u8]>
        ensures { option_map (λ code. code.now) result ≡ code_at (tree_of self.now variable) place }
    {
        match self.tree(variable) {
            Some(tree) => tree.code(place),
            None => None,
        }
    }

    /// The parent of a place in a variable's tree, or none for the total and where there is no such variable or place.
    pub fn parent(&self, variable: u32, place: u32) -> Option<u32>
        ensures { result ≡ parent_at (tree_of self.now variable) place }
    {
        match self.tree(variable) {
            Some(tree) => tree.parent(place),
            None => None,
        }
    }

    /// The first place right below a place in a variable's tree, or none where there is none.
    pub fn first_child(&self, variable: u32, place: u32) -> Option<u32>
        ensures { result ≡ first_child (tree_of self.now variable) place }
    {
        match self.tree(variable) {
            Some(tree) => tree.first_child(place),
            None => None,
        }
    }

    /// The first later place of a variable's tree with the same parent, or none where there is none.
    pub fn next_sibling(&self, variable: u32, place: u32) -> Option<u32>
        ensures { result ≡ next_sibling (tree_of self.now variable) place }
    {
        match self.tree(variable) {
            Some(tree) => tree.next_sibling(place),
            None => None,
        }
    }
}

/// What is asked of the codes that a table has which spans a variable to a depth. None takes memory.
impl Book {
    /// How many codes are above a code of a variable: 0 for the total, and where there is no such variable or code.
    pub fn depth(&self, variable: u32, code: u32) -> u32
        ensures { result ≡ cut_trees.depth_in (tree_of self.now variable) code }
    {
        depth_at(&self.trees, variable, code)
    }

    /// Whether a table that spans a variable so has a code of it: it is a code of the variable's tree, and at most as
    /// deep as the table goes.
    pub fn has_code(&self, dimension: Dimension, code: u32) -> bool
        ensures { result ≡ cut_trees.has_code (cut_tree self.now.trees dimension) code }
    {
        has_code(&self.trees, dimension, code)
    }

    /// Whether a table that spans a variable so goes below a code of it: the code is above the table's last level.
    pub fn goes_below(&self, dimension: Dimension, code: u32) -> bool
        ensures { result ≡ cut_trees.goes_below (cut_tree self.now.trees dimension) code }
    {
        self.depth(dimension.variable, code) < dimension.depth
    }

    /// The first code right below a code of a variable that a table has which spans it so: none where the code is on the
    /// table's last level, and where there is none below it. The others are its next siblings in the tree.
    pub fn first_child_within(&self, dimension: Dimension, code: u32) -> Option<u32>
        ensures { result ≡ spec.first_child_within (cut_tree self.now.trees dimension) code }
    {
        if !self.goes_below(dimension, code) {
            return None;
        }
        self.first_child(dimension.variable, code)
    }

    /// The code of a table that spans a variable so under which a code of the variable stands: itself where it is at most
    /// as deep as the table goes, and else the code above it on the table's last level. It takes a look for each step
    /// up to that.
    pub fn code_within(&self, dimension: Dimension, code: u32) -> u32
        ensures { result ≡ cut_trees.code_within (cut_tree self.now.trees dimension) code }
    {
        let Some(tree) = self.tree(dimension.variable) else {
            // As the definition has it: a variable behind the last one has no codes, and stands at the total's.
            return 0;
        };
        // for the proof: a tree that tells its length says that it is a code tree
        let _ = tree.len();
        let mut met = code;
        'upwards: while !self.is_within(dimension, met) {
            let Some(parent) = tree.parent(met) else {
                return met;
            };
            met = parent;
        }
        met
    }

    // Whether a code is at most as deep as a table goes that spans its variable so.
    fn is_within(&self, dimension: Dimension, code: u32) -> bool
        ensures { result ≡ cut_trees.is_within (cut_tree self.now.trees dimension) code }
    {
        is_within(&self.trees, dimension, code)
    }
}
