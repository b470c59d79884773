ghost use Rattle.std.specs.Prelude.{◌≡◌, false, true, length, replicate, IfOk};
ghost use Rattle.sdc_base.specs.HiddenSets as spec;
ghost use Rattle.sdc_base.specs.Trails.{corners_of};

use crate::cell::Cell;
use crate::items::Items;
use crate::memory::Memory;
use crate::trail::PlanStep;
use std::alloc::Global;

/// Which cells are hidden.
#[derive(Drop)]
pub struct Hidden {
    /// A flag for each cell, in the order of the cells' numbers; true where the cell is hidden.
    pub flags: Items<bool>,
}

/// Whether the cell with this number is hidden, by a flag for each cell; one that has none is shown.
///
/// Nothing is refused, and it takes one look. The rule is argus's own.
pub fn is_hidden(flags: &[bool], cell: usize) -> bool
    ensures { result ≡ spec.is_hidden flags.now cell }
{
    match flags.get(cell) {
        Some(flag) => *flag,
        None => false,
    }
}

impl Hidden {
    /// The set in which none of so many cells is hidden. Its one refusal is want of memory.
    pub fn of_none(alloc: Global, cells: u32) -> Result<Hidden, Memory>
        ensures { IfOk result (λ hidden. hidden.flags ≡ replicate cells false) }
    {
        let flags = Vec::from_elem(alloc, false, cells as usize)?;
        Ok(Hidden {
            flags: Items::new(flags),
        })
    }

    /// The set in which all of so many cells are hidden. Its one refusal is want of memory.
    pub fn of_all(alloc: Global, cells: u32) -> Result<Hidden, Memory>
        ensures { IfOk result (λ hidden. hidden.flags ≡ replicate cells true) }
    {
        let flags = Vec::from_elem(alloc, true, cells as usize)?;
        Ok(Hidden {
            flags: Items::new(flags),
        })
    }

    /// The set in which the primary cells alone are hidden, with a flag for each of these cells. Its one refusal is want
    /// of memory.
    pub fn of_primary(alloc: Global, cells: &[Cell]) -> Result<Hidden, Memory>
        ensures { IfOk result (λ hidden. hidden.flags ≡ spec.primary_set cells.now) }
    {
        let mut flags = Items::empty(alloc);
        for cell in cells {
            flags.push(cell.kind.is_primary())?;
        }
        Ok(Hidden { flags })
    }

    /// A copy of the set with these cells hidden too; a number of no cell hides nothing. Its one refusal is want of
    /// memory.
    pub fn with_cells(&self, alloc: Global, cells: &[u32]) -> Result<Hidden, Memory>
        ensures flags { IfOk result (λ hidden. hidden.flags ≡ spec.hide_cells self.now.flags cells.now) }
        ensures each { IfOk result (λ hidden. length hidden.flags ≡ length self.now.flags) }
    {
        let mut hidden = Hidden {
            flags: Items::new(self.flags.as_slice().to_vec(alloc)?),
        };
        hidden.hide_all(cells);
        Ok(hidden)
    }

    /// Hides a cell; a number of no cell hides nothing. Nothing is refused.
    pub fn hide(&mut self, cell: u32)
        ensures hidden { self.new.flags ≡ spec.hide self.old.flags cell }
        ensures each { length self.new.flags ≡ length self.old.flags }
    {
        let place = cell as usize;
        if place < self.flags.as_slice().len() {
            self.flags.set(place, true);
        }
    }

    /// Hides these cells; a number of no cell hides nothing. Nothing is refused.
    pub fn hide_all(&mut self, cells: &[u32])
        ensures hidden { self.new.flags ≡ spec.hide_cells self.old.flags cells.now }
        ensures each { length self.new.flags ≡ length self.old.flags }
    {
        for cell in cells {
            self.hide(*cell);
        }
    }

    /// Hides the corners of a plan's steps (handbook, hypercube method); a number of no cell hides nothing. Nothing is
    /// refused.
    pub fn hide_corners(&mut self, steps: &[PlanStep])
        ensures { self.new.flags ≡ spec.hide_cells self.old.flags (corners_of steps.now) }
    {
        for step in steps {
            self.hide_all(step.corners.as_slice());
        }
    }

    /// Shows a cell; a number of no cell shows nothing. Nothing is refused.
    pub fn show(&mut self, cell: u32)
        ensures { self.new.flags ≡ spec.show self.old.flags cell }
    {
        let place = cell as usize;
        if place < self.flags.as_slice().len() {
            self.flags.set(place, false);
        }
    }
}
