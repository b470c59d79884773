ghost use Rattle.std.specs.Prelude.{◌≡◌, ◌<◌, ◌↔◌, ◌++◌, ◌∷◌, [], true, false, length, slice_index, IsTrue, IfOk, OnOk, IfNone, IfSome};
ghost use Rattle.rounding.specs.Fixes.{by_fixes, fixed_cells};
ghost use Rattle.rounding.specs.Fixes as spec;
ghost use Rattle.rounding.specs.PartialLists.{IsPartial, IsSameTask, LeadsTo, ahead_of, choices_of};
ghost use Rattle.rounding.specs.Tasks.{IsProper};

use crate::bounds::Bounds;
use crate::forcing::propagate;
use crate::naming::naming_of;
use crate::numbers::cells_to_round;
use sdc_base::{Items, Memory, System};
use std::alloc::Global;

// Choices for the first cells that aren't multiples of the base, with the numbers that they and the relations leave
// each cell.
#[derive(Drop)]
pub(crate) struct Partial<'a> {
    bounds: Bounds<'a>,
    // For each cell the relations that name it.
    naming: Vec<Items<u32>>,
    // The cells that aren't multiples.
    cells: Vec<u32>,
    // Each choice, and how many cells were fixed before it.
    steps: Vec<(bool, usize)>,
    // Whether each relation can hold on the numbers left.
    viable: bool,
}

impl<'a> Partial<'a> {
    // No choices yet.
    pub fn new(
        alloc: Global,
        system: &'a System,
        truths: &'a [i128],
        base: i128,
    ) -> Result<Partial<'a>, Memory>
        requires { IsProper system.now truths.now base }
        ensures bounds { IfOk result (λ p. p.bounds ≡ fixed_cells system.now truths.now base []) }
        ensures steps { IfOk result (λ p. p.steps.items ≡ []) }
        ensures kept { IfOk result (λ p. IsPartial p.bounds p.naming.items p.cells.items p.steps.items p.viable) }
    {
        let bounds = Bounds::new(alloc, system, truths, base)?;
        let naming = naming_of(alloc, system)?;
        let cells = cells_to_round(alloc, system.cells, truths, base)?;
        let steps = Vec::new(alloc);
        Ok(Partial {
            bounds,
            naming,
            cells,
            steps,
            viable: true,
        })
    }

    // Whether each relation can hold on the numbers left.
    pub fn is_viable(&self) -> bool
        ensures { result ≡ self.now.viable }
    {
        self.viable
    }

    // Whether there is a choice for every cell that isn't a multiple.
    pub fn is_whole(&self) -> bool
        ensures { IsTrue result ↔ (length self.now.steps.items ≡ length self.now.cells.items) }
    {
        self.steps.len() == self.cells.len()
    }

    // Makes one more choice, down where the relations leave that way.
    pub fn go_on(&mut self) -> Result<(), Memory>
        requires kept { IsPartial self.old.bounds self.old.naming.items self.old.cells.items self.old.steps.items
            self.old.viable }
        requires viable { self.old.viable ≡ true }
        requires room { length self.old.steps.items < length self.old.cells.items }
        ensures kept { OnOk result (IsPartial self.new.bounds self.new.naming.items self.new.cells.items
            self.new.steps.items self.new.viable) }
        ensures same { OnOk result (IsSameTask self.old.bounds self.new.bounds) }
        ensures on { OnOk result (LeadsTo self.old.bounds (choices_of self.old.steps.items)
            (ahead_of self.old.bounds (choices_of self.new.steps.items))) }
    {
        let cell = self.cells[self.steps.len()];
        let down = self.bounds.allows(cell, false);
        self.choose(!down)?;
        Ok(())
    }

    // Takes choices back to the last one that is down and can be up, and makes it up. False where there is none.
    pub fn go_beside(&mut self) -> Result<bool, Memory>
        requires kept { IsPartial self.old.bounds self.old.naming.items self.old.cells.items self.old.steps.items
            self.old.viable }
        requires barred { self.old.viable ≡ false }
        ensures kept { IfOk result (λ more. IsTrue more
            → IsPartial self.new.bounds self.new.naming.items self.new.cells.items
            self.new.steps.items self.new.viable) }
        ensures same { IfOk result (λ more. IsTrue more → IsSameTask self.old.bounds self.new.bounds) }
        ensures on { IfOk result (λ more. IsTrue more
            → LeadsTo self.old.bounds (choices_of self.old.steps.items)
            (ahead_of self.old.bounds (choices_of self.new.steps.items))) }
        ensures end { IfOk result (λ more. more ≡ false → LeadsTo self.old.bounds (choices_of self.old.steps.items) []) }
    {
        'back: loop {
            let Some(up) = self.take_back() else {
                return Ok(false);
            };
            if up {
                continue;
            }
            let cell = self.cells[self.steps.len()];
            let other = self.bounds.allows(cell, true);
            if !other {
                continue;
            }
            self.choose(true)?;
            return Ok(true);
        }
    }

    // Makes one more choice, and fixes what it forces.
    fn choose(&mut self, up: bool) -> Result<(), Memory>
        requires kept { IsPartial self.old.bounds self.old.naming.items self.old.cells.items self.old.steps.items
            self.old.viable }
        requires viable { self.old.viable ≡ true }
        requires room { length self.old.steps.items < length self.old.cells.items }
        requires allowed { spec.allows self.old.bounds (slice_index self.old.cells.items (length self.old.steps.items))
            up ≡ true }
        ensures kept { OnOk result (IsPartial self.new.bounds self.new.naming.items self.new.cells.items
            self.new.steps.items self.new.viable) }
        ensures same { OnOk result (IsSameTask self.old.bounds self.new.bounds) }
        ensures choices { OnOk result (choices_of self.new.steps.items ≡ choices_of self.old.steps.items ++ up ∷ []) }
    {
        let cell = self.cells[self.steps.len()];
        let mark = self.bounds.fix_count();
        self.steps.push((up, mark))?;
        let named = self.naming[cell as usize].as_slice();
        self.bounds.take_side(named, cell, up)?;
        let viable = propagate(&mut self.bounds, self.naming.as_slice(), mark)?;
        self.viable = viable;
        Ok(())
    }

    // Takes the last choice back, with all that it forced, and gives it.
    fn take_back(&mut self) -> Option<bool>
        requires { IsPartial self.old.bounds self.old.naming.items self.old.cells.items self.old.steps.items
            self.old.viable }
        ensures none { IfNone result (self.old.steps.items ≡ []) }
        ensures last_choice { IfSome result (λ up. choices_of self.old.steps.items
            ≡ choices_of self.new.steps.items ++ up ∷ []) }
        ensures kept { IfSome result (λ _. IsPartial self.new.bounds self.new.naming.items self.new.cells.items
            self.new.steps.items self.new.viable) }
        ensures viable { IfSome result (λ _. self.new.viable ≡ true) }
        ensures same { IfSome result (λ _. IsSameTask self.old.bounds self.new.bounds) }
        ensures fewer { IfSome result (λ _. length self.new.steps.items < length self.old.steps.items) }
        ensures room { IfSome result (λ _. length self.new.steps.items < length self.new.cells.items) }
    {
        let step = self.steps.pop()?;
        let mark = step.1;
        self.bounds.unfix_to(self.naming.as_slice(), mark);
        self.viable = true;
        Some(step.0)
    }

    // The least numbers left, which are the values once there is a choice for every cell.
    pub fn into_values(self) -> Items<i128>
        ensures { result ≡ by_fixes false self.entry.bounds.base self.entry.bounds.truths self.entry.bounds.fixes }
    {
        self.bounds.into_values()
    }
}
