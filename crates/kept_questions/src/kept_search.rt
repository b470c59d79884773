// A search over a component of hidden cells, and which of its cells are left out.
use crate::scope::Scope;
use compact_search::{CompactSearch, Found};
use interval_audit::{Question, members_of, met_by};
use sdc_base::{Cell, System};
use std::alloc::Global;
use worlds::Pattern;

// The most exchanges of a question.
const MOST_STEPS: u32 = 10_000;

// What a search finds: worlds alone, or multipliers as well.
#[derive(Clone, Copy)]
pub(crate) enum Finds {
    Worlds,
    Multipliers,
}

// A system and its cells.
#[derive(Clone, Copy)]
pub(crate) struct SystemCells<'a> {
    pub(crate) system: &'a System,
    pub(crate) cells: &'a [Cell],
}

impl<'a> SystemCells<'a> {
    // Those of a pattern.
    pub(crate) fn of(pattern: &Pattern<'a>) -> SystemCells<'a> {
        SystemCells {
            system: pattern.system,
            cells: pattern.cells,
        }
    }
}

#[derive(Drop)]
pub(crate) struct KeptSearch {
    search: CompactSearch,
    // The component's cells, ascending, and for each whether it is left out.
    members: Vec<u32>,
    out: Vec<bool>,
}

// A search over a cell's component, by the numbers of all cells' components, of which no cell is left out yet.
pub(crate) fn search_over(
    alloc: Global,
    given: SystemCells<'_>,
    of: &[Option<u32>],
    cell: u32,
    finds: Finds,
) -> Option<KeptSearch> {
    let system = given.system;
    let members = members_of(alloc, of, cell, system.cells).ok()?;
    let met = met_by(alloc, system.relations.as_slice(), of, cell).ok()?;
    let flags = flags_of(alloc, &members, given.cells.len())?;
    let search = match finds {
        Finds::Worlds => CompactSearch::for_worlds(alloc, system, given.cells, &flags, &met)?,
        Finds::Multipliers => CompactSearch::new(alloc, system, given.cells, &flags, &met)?,
    };
    let out = Vec::from_elem(alloc, false, members.len()).ok()?;
    Some(KeptSearch {
        search,
        members,
        out,
    })
}

// A flag for each of so many cells, set for these.
fn flags_of(alloc: Global, members: &[u32], cells: usize) -> Option<Vec<bool>> {
    let mut flags = Vec::from_elem(alloc, false, cells).ok()?;
    for number in members {
        let slot = flags.get_mut(*number as usize)?;
        *slot = true;
    }
    Some(flags)
}

impl KeptSearch {
    // A search for worlds alone over the same cells, with the equations of this one.
    pub(crate) fn worlds_alone(&self, alloc: Global) -> Option<KeptSearch> {
        Some(KeptSearch {
            search: self.search.worlds_alone(alloc)?,
            members: self.members.as_slice().to_vec(alloc).ok()?,
            out: self.out.as_slice().to_vec(alloc).ok()?,
        })
    }

    // Takes the equations over from a search over a component within this one.
    pub(crate) fn take_over(&mut self, alloc: Global, smaller: &KeptSearch) -> Option<()> {
        self.search.take_over(alloc, &smaller.search)
    }

    // The first of its cells.
    pub(crate) fn first_cell(&self) -> Option<u32> {
        Some(*self.members.first()?)
    }

    // The last of its cells that isn't within a scope.
    pub(crate) fn last_outside(&self, scope: Scope<'_>) -> Option<u32> {
        let mut last = None;
        for cell in &self.members {
            if !scope.has(*cell) {
                last = Some(*cell);
            }
        }
        last
    }

    // What a question comes to that may move the cells of a scope, from the truths. None where the search failed; it is
    // of no use then.
    fn find(
        &mut self,
        alloc: Global,
        scope: Scope<'_>,
        question: Question,
    ) -> Option<Option<Found>> {
        self.fit(alloc, scope)?;
        Some(
            self.search.ask(
                alloc,
                question.cell,
                question.side,
                question.target,
                MOST_STEPS,
            ),
        )
    }

    // Returns to the truths, leaves the cells out that aren't within a scope, and takes those back that are.
    fn fit(&mut self, alloc: Global, scope: Scope<'_>) -> Option<()> {
        self.search.return_to_truths();
        for place in 0..self.members.len() {
            self.fit_one(alloc, scope, place)?;
        }
        Some(())
    }

    // The same for the cell at a place.
    fn fit_one(&mut self, alloc: Global, scope: Scope<'_>, place: usize) -> Option<()> {
        let cell = *self.members.get(place)?;
        let slot = self.out.get_mut(place)?;
        let leaves = !scope.has(cell);
        if leaves == *slot {
            return Some(());
        }
        *slot = leaves;
        if leaves {
            self.search.leave_out(alloc, cell)
        } else {
            self.search.take_back(cell)
        }
    }
}

// What a question comes to that is asked of a search, if there is one; after a failure there is none.
pub(crate) fn find_in(
    alloc: Global,
    slot: &mut Option<KeptSearch>,
    scope: Scope<'_>,
    question: Question,
) -> Option<Found> {
    let mut kept = slot.take()?;
    let found = kept.find(alloc, scope, question)?;
    *slot = Some(kept);
    found
}
