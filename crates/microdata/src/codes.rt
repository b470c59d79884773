ghost use Rattle.std.specs.Prelude.{◌≡◌, ◌<◌, ◌++◌, ◌∷◌, [], false, length, position, IfSome, IfNone, IfOk, OnOk};
ghost use Rattle.std.specs.List.{list_any, IsDistinct};
ghost use Rattle.std.specs.Str.{bytes_eq};

use indexmap::IndexSet;
use sdc_base::{Items, Memory, Text};
use std::alloc::{AllocError, AllocFailed, Global};
use std::marker::Model;

/// Distinct codes in the order in which they were added. A code is found by one look-up.
#[derive(Drop)]
pub(crate) struct Codes {
    set: IndexSet<Vec<u8>>,
}

impl Model for Codes {
    ghost use Rattle.std.specs.Prelude.{List, ℕ, map};

    ghost Value = { List (List ℕ) };

    ghost view = { λ s. map (λ code. code.items) s.set.keys };
}

impl Codes {
    /// No codes. It takes no memory.
    pub(crate) fn new(alloc: Global) -> Codes
        ensures { result ≡ [] }
    {
        Codes {
            set: IndexSet::new(alloc),
        }
    }

    /// How many codes there are.
    pub(crate) fn len(&self) -> usize
        ensures len { result ≡ length self.now }
        ensures distinct { IsDistinct bytes_eq self.now }
    {
        self.set.len()
    }

    /// The number of a code, from 0.
    pub(crate) fn code_number(&self, code: &[u8]) -> Option<usize>
        ensures place { result ≡ position (bytes_eq code.now) self.now }
        ensures within { IfSome result (λ place. place < length self.now) }
        ensures none { IfNone result (list_any (bytes_eq code.now) self.now ≡ false) }
    {
        self.set.get_index_of(code)
    }

    /// Adds a new code at the end. The bytes are copied.
    pub(crate) fn push(&mut self, alloc: Global, code: &[u8]) -> Result<(), Memory>
        requires { list_any (bytes_eq code.now) self.old ≡ false }
        ensures { OnOk result (self.new ≡ self.old ++ code.now ∷ []) }
    {
        let code = Vec::from_slice(alloc, code)?;
        self.set.insert(code)?;
        Ok(())
    }

    /// Copies of the codes.
    pub(crate) fn texts(&self, alloc: Global) -> Result<Items<Text>, Memory>
        ensures { IfOk result (λ texts. texts ≡ self.now) }
    {
        let mut texts = Items::empty(alloc);
        'codes: for code in self.set.as_slice() {
            texts.push(Text::from_slice(alloc, code.as_slice())?)?;
        }
        Ok(texts)
    }
}
