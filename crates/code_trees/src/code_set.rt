ghost use Rattle.std.specs.Prelude.{◌≡◌, [], length, IfOk, OnOk};
ghost use Rattle.std.specs.BTreeSet.{insert_key};
ghost use Rattle.std.specs.Cmp.Lexicographic.{slice_cmp};
ghost use Rattle.std.specs.List.Sorted.{IsStrictlySortedBy};
ghost use Rattle.std.specs.Ordering.{nat_cmp};

use sdc_base::{Memory, Text};
use std::alloc::Global;
use std::collections::BTreeSet;
use std::marker::Model;

/// Codes in ascending order of bytes, each once: those that stand in a tree by levels, or behind a code list.
#[derive(Drop)]
pub struct CodeSet {
    set: BTreeSet<Text>,
}

impl Model for CodeSet {
    ghost use Rattle.std.specs.Prelude.{List, ℕ};

    ghost Value = { List (List ℕ) };

    ghost view = { λ s. s.set.keys };
}

impl CodeSet {
    /// No codes. It takes no memory.
    pub fn new(alloc: Global) -> CodeSet
        ensures { result ≡ [] }
    {
        CodeSet {
            set: BTreeSet::new(alloc),
        }
    }

    /// How many codes there are.
    pub fn len(&self) -> usize
        ensures { result ≡ length self.now }
    {
        self.set.len()
    }

    /// Puts a code in its place, unless it is there. The bytes are copied. `Memory` is the only refusal. It takes as
    /// many comparisons as the number of codes has binary digits.
    pub fn insert(&mut self, alloc: Global, code: &[u8]) -> Result<(), Memory>
        ensures { OnOk result (self.new ≡ insert_key (slice_cmp nat_cmp) self.old code.now) }
    {
        let text = Text::from_slice(alloc, code)?;
        self.set.insert(text)?;
        Ok(())
    }

    /// The codes, in order. `Memory` is the only refusal.
    pub fn into_texts(self, alloc: Global) -> Result<Vec<Text>, Memory>
        ensures texts { IfOk result (λ texts. texts.items ≡ self) }
        ensures ascending { IfOk result (λ texts. IsStrictlySortedBy (slice_cmp nat_cmp) texts.items) }
    {
        let texts = self.set.into_iter().collect(alloc)?;
        Ok(texts)
    }
}
