ghost use Rattle.std.specs.Prelude.{◌≡◌, ◌++◌, ◌∷◌, [], ℕ, List, OnOk};
ghost use Rattle.sdc_base.specs.HiddenSets.{hide};

use sdc_base::{Hidden, Items, Memory};

/// What was found of hidden cells that were tried as shown, one after another.
#[derive(Drop)]
pub struct Trials<N> {
    /// Why cells must stay hidden.
    pub needs: Items<N>,
    /// The cells that are shown; the last may be being tried.
    pub shown: Items<u32>,
}

impl<N: Drop> Trials<N> {
    /// Hides the cell that was shown last again, and keeps why it must stay hidden. Its one refusal is want of memory.
    /// That hidden cells are tried as shown is argus's own.
    pub fn put_back(&mut self, hidden: &mut Hidden, cell: u32, need: N) -> Result<(), Memory>
        ensures flags { hidden.new.flags ≡ hide hidden.old.flags cell }
        ensures needs { OnOk result (self.new.needs ≡ self.old.needs ++ need ∷ []) }
        ensures shown { OnOk result ((earlier : List ℕ) (last : ℕ) → self.old.shown ≡ earlier ++ last ∷ []
            → self.new.shown ≡ earlier) }
    {
        hidden.hide(cell);
        self.shown.pop();
        self.needs.push(need)
    }
}
