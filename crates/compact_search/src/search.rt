// The search over a component, as callers see it.
use crate::aiming::aim;
use crate::component::{Component, component_of, copy_of, place_of};
use crate::found::{Found, Stop};
use crate::leaving_out::drive_out;
use crate::lists::MoveLists;
use crate::lists_read::lists_of;
use crate::multipliers_read::multipliers_of;
use crate::returning::return_to_truths;
use crate::row::{make_all_lowest, make_lowest};
use crate::start::first_table;
use crate::table::{Slacks, Table};
use crate::taking_over::take_rows;
use crate::walk::{Beyond, End, walk};
use crate::without_slacks::without_slacks;
use crate::world_read::{scale_to, world_of};
use sdc_base::{Cell, Fraction, Side, System};
use std::alloc::Global;

// What a search is for: worlds alone; how far a cell can move, too; or multipliers as well that show it.
#[derive(Clone, Copy)]
enum Purpose {
    Worlds,
    Ends,
    Multipliers,
}

impl Purpose {
    // What becomes of a slack that leaves the basis.
    fn slacks(self) -> Slacks {
        match self {
            Purpose::Worlds => Slacks::Go,
            _ => Slacks::Stay,
        }
    }
}

/// A search for worlds over the hidden cells of a component.
///
/// Nothing that it finds is proved: check it before it counts. The table is that of a bounded simplex in whole numbers
/// of 64 bits, its values and comparisons in 128, and each question begins where the one before ended. Ties go by small
/// amounts that each bound has of its own, so that no walk goes in a circle. A question ends without an exchange where
/// the target lies before the next bound. Where a number leaves its bits, memory is wanting or the steps run out, a call
/// gives none and the next one begins with a new table.
#[derive(Drop)]
pub struct CompactSearch {
    component: Component,
    // For each cell of the component whether it is left out.
    out: Vec<bool>,
    purpose: Purpose,
    table: Option<Table>,
}

impl CompactSearch {
    /// The search over the hidden cells that relations with these numbers count, which are those of a component,
    /// ascending; none where a bound leaves 64 bits, a number is none of the system or memory is wanting.
    pub fn new(
        alloc: Global,
        system: &System,
        cells: &[Cell],
        flags: &[bool],
        relations: &[u32],
    ) -> Option<CompactSearch> {
        let component = component_of(alloc, system, cells, flags, relations)?;
        search_with(alloc, component, Purpose::Multipliers)
    }

    /// The same for ends alone: where it stops there are no lists.
    pub fn for_ends(
        alloc: Global,
        system: &System,
        cells: &[Cell],
        flags: &[bool],
        relations: &[u32],
    ) -> Option<CompactSearch> {
        let component = component_of(alloc, system, cells, flags, relations)?;
        search_with(alloc, component, Purpose::Ends)
    }

    /// The same for worlds alone: where no world reaches a question's target, nothing is found. The slacks of relations
    /// that have left the basis are dropped, since each stands at 0, so that the equations are shorter.
    pub fn for_worlds(
        alloc: Global,
        system: &System,
        cells: &[Cell],
        flags: &[bool],
        relations: &[u32],
    ) -> Option<CompactSearch> {
        let component = component_of(alloc, system, cells, flags, relations)?;
        search_with(alloc, component, Purpose::Worlds)
    }

    /// A search for worlds alone over the same cells, with the equations of this one without their slacks. None where
    /// memory is wanting.
    pub fn worlds_alone(&self, alloc: Global) -> Option<CompactSearch> {
        let component = copy_of(alloc, &self.component)?;
        let out = self.out.as_slice().to_vec(alloc).ok()?;
        let table = match &self.table {
            Some(table) => without_slacks(alloc, table)?,
            None => first_table(alloc, &component, &out, Slacks::Go)?,
        };
        Some(CompactSearch {
            component,
            out,
            purpose: Purpose::Worlds,
            table: Some(table),
        })
    }

    /// Takes the equations over from a search that has multipliers, over a component within this one, of the same
    /// system. To be called before a question is asked of this one. None where they don't fit or memory is wanting; the
    /// next question then begins with a new table.
    pub fn take_over(&mut self, alloc: Global, smaller: &CompactSearch) -> Option<()> {
        let old = smaller.table.as_ref()?;
        if !matches!(&old.slacks, Slacks::Stay) {
            return None;
        }
        let mut table = self.take_table(alloc)?;
        take_rows(alloc, &mut table, &self.component, &smaller.component, old)?;
        self.table = Some(table);
        Some(())
    }

    /// Lets all cells stand at their truths again, where the next question then begins. What it finds moves fewer cells
    /// so than what is found from where the question before ended.
    pub fn return_to_truths(&mut self) {
        if let Some(table) = &mut self.table {
            return_to_truths(table);
        }
    }

    /// Leaves a cell out: it stays at its truth, as if it were shown, until it is taken back. None where it isn't of
    /// the component, or memory is wanting for a new table.
    pub fn leave_out(&mut self, alloc: Global, cell: u32) -> Option<()> {
        let place = place_of(&self.component.cells, cell)?;
        put_flag(&mut self.out, place, true)?;
        let mut table = self.take_table(alloc)?;
        match drive_out(alloc, &mut table, place) {
            Some(()) => self.table = Some(table),
            None => self.table = Some(first_table(
                alloc,
                &self.component,
                &self.out,
                self.purpose.slacks(),
            )?),
        }
        Some(())
    }

    /// Takes a cell back that was left out. None where it isn't of the component.
    pub fn take_back(&mut self, cell: u32) -> Option<()> {
        let place = place_of(&self.component.cells, cell)?;
        put_flag(&mut self.out, place, false)?;
        if let Some(table) = &mut self.table {
            table.variables.get_mut(place)?.left_out = false;
        }
        Some(())
    }

    /// How far a cell can move to a side: a world that takes it to a target, or the furthest one. None where it isn't of
    /// the component, or the search failed.
    pub fn ask(
        &mut self,
        alloc: Global,
        cell: u32,
        side: Side,
        target: i128,
        most_steps: u32,
    ) -> Option<Found> {
        let place = place_of(&self.component.cells, cell)?;
        let mut table = self.take_table(alloc)?;
        let rises = matches!(&side, Side::Above);
        aim(alloc, &mut table, place, rises)?;
        let end = walk(alloc, &mut table, target, most_steps)?;
        if matches!(&end, End::Blocked) {
            self.make_lowest_for(&mut table)?;
        }
        let found = self.found_of(alloc, &table, end, cell, target);
        self.table = Some(table);
        found
    }

    // Brings to lowest terms what is said of a blocked table: its objective, and for lists its rows, too.
    fn make_lowest_for(&self, table: &mut Table) -> Option<()> {
        if matches!(&self.purpose, Purpose::Multipliers) {
            make_all_lowest(&mut table.rows)?;
        }
        make_lowest(&mut table.objective)
    }

    // The kept table, or a new one. It has to be put back.
    fn take_table(&mut self, alloc: Global) -> Option<Table> {
        match self.table.take() {
            Some(table) => Some(table),
            None => first_table(alloc, &self.component, &self.out, self.purpose.slacks()),
        }
    }

    // What a walk came to.
    fn found_of(
        &self,
        alloc: Global,
        table: &Table,
        end: End,
        cell: u32,
        target: i128,
    ) -> Option<Found> {
        match end {
            End::There => self.reached(alloc, table, None, cell, target),
            End::Beyond(beyond) => self.reached(alloc, table, Some(beyond), cell, target),
            End::Blocked => self.blocked(alloc, table),
        }
    }

    // A world that reaches a target.
    fn reached(
        &self,
        alloc: Global,
        table: &Table,
        beyond: Option<Beyond>,
        cell: u32,
        target: i128,
    ) -> Option<Found> {
        let world = world_of(alloc, table, &self.component.cells, beyond)?;
        Some(Found::Reaches(scale_to(alloc, world, cell, target)?))
    }

    // What a blocked table says: nothing where its slacks are dropped.
    fn blocked(&self, alloc: Global, table: &Table) -> Option<Found> {
        match &self.purpose {
            Purpose::Worlds => None,
            _ => self.stopped(alloc, table),
        }
    }

    // Where a blocked table stops.
    fn stopped(&self, alloc: Global, table: &Table) -> Option<Found> {
        let component = &self.component;
        let world = world_of(alloc, table, &component.cells, None)?;
        let cells = component.cells.len();
        let multipliers = multipliers_of(alloc, table, cells, &component.relations)?;
        let best = Fraction {
            num: table.objective.value,
            den: i128::from(table.objective.den),
        };
        Some(Found::Stops(Stop {
            best,
            world,
            multipliers,
            lists: self.lists_for(alloc, table)?,
        }))
    }

    // The lists of a table that stops, where they are wanted.
    fn lists_for(&self, alloc: Global, table: &Table) -> Option<Option<MoveLists>> {
        match &self.purpose {
            Purpose::Multipliers => Some(Some(lists_of(alloc, table, &self.component)?)),
            _ => Some(None),
        }
    }
}

// A search over a component of which no question has been asked.
fn search_with(alloc: Global, component: Component, purpose: Purpose) -> Option<CompactSearch> {
    let out = Vec::from_elem(alloc, false, component.cells.len()).ok()?;
    let table = first_table(alloc, &component, &out, purpose.slacks())?;
    Some(CompactSearch {
        component,
        out,
        purpose,
        table: Some(table),
    })
}

// Puts the flag at a place.
fn put_flag(flags: &mut [bool], place: usize, flag: bool) -> Option<()> {
    let slot = flags.get_mut(place)?;
    *slot = flag;
    Some(())
}
