// The searches over the primary cells alone, which are asked first: a world that moves no other cell serves whichever of
// the others are shown later.
use crate::kept_search::{Finds, KeptSearch, SystemCells, find_in, search_over};
use crate::scope::Scope;
use compact_search::Found;
use interval_audit::Question;
use sdc_base::{Cell, Hidden, Side, System, components};
use std::alloc::Global;
use worlds::Pattern;

#[derive(Drop)]
pub(crate) struct PrimarySearch {
    // The number of each primary cell's component among the primary cells, none for another cell.
    of: Vec<Option<u32>>,
    // By the number of a component the search over it, once it was asked.
    searches: Vec<Option<KeptSearch>>,
    // For each cell whether a question about it found nothing, above and below.
    missed_above: Vec<bool>,
    missed_below: Vec<bool>,
}

impl PrimarySearch {
    // That of these cells; none where memory is wanting or there isn't a cell for each of the system.
    pub(crate) fn new(alloc: Global, system: &System, cells: &[Cell]) -> Option<PrimarySearch> {
        if cells.len() != system.cells as usize {
            return None;
        }
        let hidden = Hidden::of_primary(alloc, cells).ok()?;
        let grouping = components(alloc, system, &hidden).ok()?;
        Some(PrimarySearch {
            of: grouping.of.into_vec(),
            searches: no_searches(alloc, grouping.sizes.as_slice().len())?,
            missed_above: Vec::from_elem(alloc, false, cells.len()).ok()?,
            missed_below: Vec::from_elem(alloc, false, cells.len()).ok()?,
        })
    }

    // A world for a question, unless nothing was found for its cell and side before.
    pub(crate) fn find(
        &mut self,
        alloc: Global,
        pattern: &Pattern<'_>,
        question: Question,
    ) -> Option<Found> {
        if *self.missed(question.side).get(question.cell as usize)? {
            return None;
        }
        let found = self.find_by_component(alloc, pattern, question);
        if found.is_none() {
            let missed = self.missed(question.side);
            *missed.get_mut(question.cell as usize)? = true;
        }
        found
    }

    // The same, whether or not nothing was found before.
    fn find_by_component(
        &mut self,
        alloc: Global,
        pattern: &Pattern<'_>,
        question: Question,
    ) -> Option<Found> {
        let number = (*self.of.get(question.cell as usize)?)?;
        let slot = self.searches.get_mut(number as usize)?;
        if slot.is_none() {
            let given = SystemCells::of(pattern);
            *slot = search_over(alloc, given, &self.of, question.cell, Finds::Worlds);
        }
        find_in(alloc, slot, Scope::of(pattern), question)
    }

    // For which cells nothing was found to a side.
    fn missed(&mut self, side: Side) -> &mut Vec<bool> {
        match side {
            Side::Above => &mut self.missed_above,
            Side::Below => &mut self.missed_below,
        }
    }
}

// No search for each of so many components.
fn no_searches(alloc: Global, count: usize) -> Option<Vec<Option<KeptSearch>>> {
    let mut searches = Vec::new(alloc);
    for _component in 0..count {
        searches.push(None).ok()?;
    }
    Some(searches)
}
