ghost use Rattle.std.specs.Prelude.{◌≡◌, ◌<◌, ◌≤◌, ◌-◌, ◌^◌, ◌++◌, ◌∷◌, [], ◌≤ℤ◌, neg_ℤ, pos, false, true, length, take, slice_get, Some, IsTrue, IfOk, OnOk, OnErr};
ghost use Rattle.sdc_base.specs.declared.relation.Relation.{Relation as AnyRelation};
ghost use Rattle.sdc_base.specs.Systems.{number_at};
ghost use Rattle.rounding.specs.Extremes.{extreme_of_form};
ghost use Rattle.rounding.specs.Fixes.{Fix, by_fixes, fixed_cells, number_left, IsFree};
ghost use Rattle.rounding.specs.FixedSteps.{IsTaken};
ghost use Rattle.rounding.specs.Fixes as spec;
ghost use Rattle.rounding.specs.Namings.{IsNaming, IsNamingOf};
ghost use Rattle.rounding.specs.Neighbours.{is_multiple};
ghost use Rattle.rounding.specs.Tasks.{IsProper};

use crate::numbers::{CellForms, extremes_of, numbers_to, set_number};
use sdc_base::{Items, Memory, Relation, System};
use std::alloc::Global;
use std::marker::Model;

// Cells that are fixed one after another, with the least and the greatest number that this leaves each cell, and the
// least and the greatest that it leaves each relation's form.
#[derive(Drop)]
pub(crate) struct Bounds<'a> {
    system: &'a System,
    truths: &'a [i128],
    base: i128,
    fixes: Vec<(u32, bool)>,
    lower: Vec<i128>,
    upper: Vec<i128>,
    least: Vec<i128>,
    greatest: Vec<i128>,
}

impl<'a> Model for Bounds<'a> {
    ghost use Rattle.rounding.specs.Fixes.{FixedCells, fixed_cells};
    ghost use Rattle.rounding.specs.FixedSteps.{IsKept};

    ghost Value = { FixedCells };

    ghost view = { λ b. fixed_cells b.system.now b.truths.now b.base b.fixes.items };

    ghost invariant = { λ b. IsKept (fixed_cells b.system.now b.truths.now b.base b.fixes.items)
        b.lower.items b.upper.items b.least.items b.greatest.items };
}

impl<'a> Bounds<'a> {
    // No cell is fixed.
    pub fn new(
        alloc: Global,
        system: &'a System,
        truths: &'a [i128],
        base: i128,
    ) -> Result<Bounds<'a>, Memory>
        requires { IsProper system.now truths.now base }
        ensures { IfOk result (λ b. b ≡ fixed_cells system.now truths.now base []) }
    {
        let relations = system.relations.as_slice();
        let lower = numbers_to(alloc, truths, base, false)?;
        let upper = numbers_to(alloc, truths, base, true)?;
        let least = extremes_of(alloc, relations, truths, lower.as_slice(), upper.as_slice())?;
        let greatest = extremes_of(alloc, relations, truths, upper.as_slice(), lower.as_slice())?;
        Ok(Bounds {
            system,
            truths,
            base,
            fixes: Vec::new(alloc),
            lower,
            upper,
            least,
            greatest,
        })
    }

    // How many cells are fixed.
    pub fn fix_count(&self) -> usize
        ensures value { result ≡ length self.now.fixes }
        ensures most { result ≤ self.now.system.cells }
    {
        self.fixes.len()
    }

    // The cell that was fixed at this place.
    pub fn fixed_cell(&self, place: usize) -> u32
        requires { place < length self.now.fixes }
        ensures cell { (fix : Fix) → slice_get self.now.fixes place ≡ Some fix → result ≡ fix.0 }
        ensures inside { result < self.now.system.cells }
    {
        self.fixes[place].0
    }

    pub fn base(&self) -> i128
        ensures value { result ≡ self.now.base }
        ensures from_one { pos 1 ≤ℤ result }
        ensures to_most { result ≤ℤ pos (10 ^ 22) }
    {
        self.base
    }

    // The least that a relation's form takes on the numbers left.
    pub fn least_of(&self, number: u32) -> i128
        requires { number < length self.now.system.relations }
        ensures value { (r : AnyRelation) → slice_get self.now.system.relations number ≡ Some r
            → result ≡ extreme_of_form (number_left false self.now) (number_left true self.now) r }
        ensures low { neg_ℤ (pos (2 ^ 120)) ≤ℤ result }
        ensures high { result ≤ℤ pos (2 ^ 120) }
    {
        self.least[number as usize]
    }

    // The greatest that a relation's form takes on the numbers left.
    pub fn greatest_of(&self, number: u32) -> i128
        requires { number < length self.now.system.relations }
        ensures value { (r : AnyRelation) → slice_get self.now.system.relations number ≡ Some r
            → result ≡ extreme_of_form (number_left true self.now) (number_left false self.now) r }
        ensures low { neg_ℤ (pos (2 ^ 120)) ≤ℤ result }
        ensures high { result ≤ℤ pos (2 ^ 120) }
    {
        self.greatest[number as usize]
    }

    // Whether a cell that isn't a multiple isn't fixed.
    pub fn is_free(&self, cell: u32) -> bool
        requires { cell < self.now.system.cells }
        ensures free { IsTrue result → IsFree self.now cell }
        ensures fixed { result ≡ false → number_left false self.now cell ≡ number_left true self.now cell }
    {
        self.lower[cell as usize] < self.upper[cell as usize]
    }

    // Whether a cell that isn't a multiple can be at this neighbour of its truth.
    pub fn allows(&self, cell: u32, up: bool) -> bool
        requires { cell < self.now.system.cells }
        ensures { result ≡ spec.allows self.now cell up }
    {
        let truth = self.truths[cell as usize];
        if up {
            truth < self.upper[cell as usize]
        } else {
            self.lower[cell as usize] < truth
        }
    }

    // Fixes a cell that is free. After want of memory all is as before.
    pub fn fix(&mut self, named: &[u32], cell: u32, up: bool) -> Result<(), Memory>
        requires free { IsFree self.old cell }
        requires naming { IsNamingOf self.old.system.relations cell named.now }
        ensures ok { OnOk result (self.new ≡ record self.old { fixes = self.old.fixes ++ (cell, up) ∷ [] }) }
        ensures err { OnErr result (self.new ≡ self.old) }
    {
        self.fixes.push((cell, up))?;
        let relations = self.system.relations.as_slice();
        let forms = CellForms {
            relations,
            named,
            cell,
        };
        if up {
            let to = self.upper[cell as usize];
            set_number(
                &forms,
                &mut self.lower,
                to,
                &mut self.least,
                &mut self.greatest,
            );
            Ok(())
        } else {
            let to = self.lower[cell as usize];
            set_number(
                &forms,
                &mut self.upper,
                to,
                &mut self.greatest,
                &mut self.least,
            );
            Ok(())
        }
    }

    // Fixes a cell that isn't a multiple at a neighbour that it can be at, if it isn't fixed there.
    pub fn take_side(&mut self, named: &[u32], cell: u32, up: bool) -> Result<(), Memory>
        requires proper { IsProper self.old.system self.old.truths self.old.base }
        requires cell { cell < self.old.system.cells }
        requires unrounded { is_multiple self.old.base (number_at self.old.truths cell) ≡ false }
        requires allowed { spec.allows self.old cell up ≡ true }
        requires naming { IsNamingOf self.old.system.relations cell named.now }
        ensures { OnOk result (IsTaken cell up self.old self.new) }
    {
        if self.is_free(cell) {
            self.fix(named, cell, up)
        } else {
            Ok(())
        }
    }

    // Frees the cell that was fixed last.
    fn unfix(&mut self, naming: &[Items<u32>])
        requires { IsNaming self.old.system naming.now }
        ensures { self.new ≡ record self.old { fixes = take (length self.old.fixes - 1) self.old.fixes } }
    {
        let Some(fix) = self.fixes.pop() else {
            return;
        };
        let (cell, up) = fix;
        let named = naming[cell as usize].as_slice();
        let relations = self.system.relations.as_slice();
        let forms = CellForms {
            relations,
            named,
            cell,
        };
        if up {
            let to = self.lower[cell as usize] - self.base;
            set_number(
                &forms,
                &mut self.lower,
                to,
                &mut self.least,
                &mut self.greatest,
            )
        } else {
            let to = self.upper[cell as usize] + self.base;
            set_number(
                &forms,
                &mut self.upper,
                to,
                &mut self.greatest,
                &mut self.least,
            )
        }
    }

    // Frees the cells that were fixed behind the first so many.
    pub fn unfix_to(&mut self, naming: &[Items<u32>], count: usize)
        requires naming { IsNaming self.old.system naming.now }
        requires count { count ≤ length self.old.fixes }
        ensures { self.new ≡ record self.old { fixes = take count self.old.fixes } }
    {
        'fixes: while self.fix_count() > count {
            self.unfix(naming);
        }
    }

    // The relations.
    pub fn relations(&self) -> &'a [Relation]
        ensures { result.now ≡ self.now.system.relations }
    {
        self.system.relations.as_slice()
    }

    // The least numbers.
    pub fn into_values(self) -> Items<i128>
        ensures { result ≡ by_fixes false self.entry.base self.entry.truths self.entry.fixes }
    {
        Items::new(self.lower)
    }
}
