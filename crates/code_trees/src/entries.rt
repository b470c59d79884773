ghost use Rattle.std.specs.Prelude.{◌≡◌, ◌+◌, ◌<◌, ◌^◌, ◌++◌, ◌∷◌, [], None, Some, length, slice_get, option_map, IfSome, IfOk, OnOk};
ghost use Rattle.sdc_base.specs.Trees.{find, parent_at, HasDistinctCodes};

use indexmap::IndexMap;
use std::alloc::{AllocError, Global};
use std::marker::Model;

/// Nodes with their codes and parents, in the order in which they were added: a tree while it grows. A code is found
/// by one look-up, and none stands twice. Trees are the manual's.
#[derive(Drop)]
pub struct Nodes {
    map: IndexMap<Vec<u8>, Option<u32>>,
}

impl Model for Nodes {
    ghost use Rattle.sdc_base.specs.Trees.{Tree};
    ghost use Rattle.code_trees.specs.Entries.{nodes_of};

    ghost Value = { Tree };

    ghost view = { λ s. nodes_of s.map.entries };
}

impl Nodes {
    /// No nodes. It takes no memory.
    pub fn new(alloc: Global) -> Nodes
        ensures { result ≡ [] }
    {
        Nodes {
            map: IndexMap::new(alloc),
        }
    }

    /// How many nodes there are. Their codes are distinct.
    pub fn len(&self) -> usize
        ensures len { result ≡ length self.now }
        ensures distinct { HasDistinctCodes self.now }
    {
        self.map.len()
    }

    /// The place of a code.
    pub fn code_place(&self, code: &[u8]) -> Option<usize>
        ensures place { result ≡ find self.now code.now }
        ensures within { IfSome result (λ place. place < length self.now) }
    {
        self.map.get_index_of(code)
    }

    /// The code and the parent at a place.
    pub fn get(&self, place: usize) -> Option<(&[u8], Option<u32>)>
        ensures { option_map (λ node. (node.0.now, node.1)) result ≡ slice_get self.now place }
    {
        let (code, parent) = self.map.get_index(place)?;
        Some((code.as_slice(), *parent))
    }

    /// The parent at a place.
    pub fn parent_at(&self, place: usize) -> Option<u32>
        ensures { result ≡ parent_at self.now place }
    {
        let (_, parent) = self.get(place)?;
        parent
    }

    /// Adds a new code at the end. The bytes are copied.
    pub fn push(
        &mut self,
        alloc: Global,
        code: &[u8],
        parent: Option<u32>,
    ) -> Result<(), AllocError>
        requires { find self.old code.now ≡ None }
        ensures { OnOk result (self.new ≡ self.old ++ (code.now, parent) ∷ []) }
    {
        let code = Vec::from_slice(alloc, code)?;
        self.map.insert(code, parent)?;
        Ok(())
    }
}
