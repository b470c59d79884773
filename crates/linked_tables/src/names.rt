ghost use Rattle.std.specs.Prelude.{◌≡◌, ◌<◌, [], length, slice_get, option_map, bytes_eq, OnOk, IfSome};
ghost use Rattle.sdc_base.specs.Cells.{with_name};
ghost use Rattle.sdc_base.specs.Places.{first_place};

use indexmap::IndexSet;
use sdc_base::Place;
use std::alloc::{AllocFailed, Global};
use std::hash::{Hash, Hasher};
use std::marker::Model;

/// The name of a cell, as a key.
#[derive(Drop)]
pub(crate) struct Name {
    place: Place,
}

impl Model for Name {
    ghost use Rattle.sdc_base.specs.Records.{Name as Codes};

    ghost Value = { Codes };

    ghost view = { λ s. s.place };
}

impl Name {
    /// The name that is this place.
    pub(crate) fn new(place: Place) -> Name
        ensures { result ≡ place }
    {
        Name { place }
    }

    /// The name as a place.
    pub(crate) fn as_place(&self) -> &Place
        ensures { result.now ≡ self.now }
    {
        &self.place
    }
}

impl PartialEq for Name {
    ghost use Rattle.std.proofs.Common.{rules};
    ghost use Rattle.std.specs.Cmp.Rules.{comparing};
    ghost use Rattle.std.specs.Prelude.{◌==◌};
    ghost use Rattle.std.specs.Cmp.Lexicographic.{pointwise};

    ghost eq = { pointwise ◌==◌ };

    ghost laws = { Prim.search (comparing, rules) };

    fn eq(&self, other: &Name) -> bool {
        self.place.as_slice() == other.place.as_slice()
    }
}

impl Eq for Name {
    ghost use Rattle.std.proofs.Common.{rules};
    ghost use Rattle.std.specs.Cmp.Rules.{comparing};

    ghost laws = { Prim.search (comparing, rules) };
}

impl Hash for Name {
    ghost use Rattle.std.proofs.Common.{rules};
    ghost use Rattle.std.specs.Hash as fed;
    ghost use Rattle.std.specs.Cmp.Rules.{hashing};

    ghost hash_input = { fed.slice fed.u32 };

    ghost respects_eq = { Prim.search (hashing, rules) };

    fn hash<H: Hasher>(&self, state: &mut H) {
        self.place.as_slice().hash(state);
    }
}

/// Distinct names in the order in which they were first added. A name is found by one look-up.
#[derive(Drop)]
pub(crate) struct Names {
    keys: IndexSet<Name>,
}

impl Model for Names {
    ghost use Rattle.std.specs.Prelude.{List};
    ghost use Rattle.sdc_base.specs.Records.{Name as Codes};

    ghost Value = { List Codes };

    ghost view = { λ s. s.keys.keys };
}

impl Names {
    /// No names. It takes no memory.
    pub(crate) fn new(alloc: Global) -> Names
        ensures { result ≡ [] }
    {
        Names {
            keys: IndexSet::new(alloc),
        }
    }

    /// How many names there are.
    pub(crate) fn len(&self) -> usize
        ensures { result ≡ length self.now }
    {
        self.keys.len()
    }

    /// The number of a name, by one look-up.
    pub(crate) fn number_of(&self, name: &Name) -> Option<usize>
        ensures number { result ≡ first_place (bytes_eq name.now) self.now }
        ensures within { IfSome result (λ number. number < length self.now) }
    {
        self.keys.get_index_of(name)
    }

    /// The name with a number.
    pub(crate) fn get(&self, number: usize) -> Option<&Place>
        ensures { option_map (λ name. name.now) result ≡ slice_get self.now number }
    {
        let name = self.keys.get_index(number)?;
        Some(name.as_place())
    }

    /// Adds a name at the end, unless it is there already.
    pub(crate) fn add(&mut self, name: Name) -> Result<(), AllocFailed<Name>>
        ensures { OnOk result (self.new ≡ with_name self.old name) }
    {
        self.keys.insert(name)?;
        Ok(())
    }
}
