// The searches over one component, each made once it is asked.
use crate::kept_search::{Finds, KeptSearch, SystemCells, find_in, search_over};
use crate::scope::Scope;
use compact_search::Found;
use interval_audit::Question;
use std::alloc::Global;
use worlds::Pattern;

#[derive(Drop)]
pub(crate) struct ComponentSearches {
    // For worlds that don't move the free cells beyond the last one that isn't hidden. Where cells are tried as shown in
    // ascending order, such a world serves however the later trials end.
    early_worlds: Option<KeptSearch>,
    // For all worlds.
    worlds: Option<KeptSearch>,
    // For multipliers as well.
    multipliers: Option<KeptSearch>,
}

impl ComponentSearches {
    // None is made yet.
    pub(crate) fn none() -> ComponentSearches {
        ComponentSearches {
            early_worlds: None,
            worlds: None,
            multipliers: None,
        }
    }

    // A cell of the component, once a search was made.
    pub(crate) fn first_cell(&self) -> Option<u32> {
        match (&self.worlds, &self.multipliers) {
            (Some(kept), _) => kept.first_cell(),
            (_, Some(kept)) => kept.first_cell(),
            _ => None,
        }
    }

    // What a question about one of its cells comes to, unchecked, by the numbers of all cells' components.
    pub(crate) fn find(
        &mut self,
        alloc: Global,
        pattern: &Pattern<'_>,
        of: &[Option<u32>],
        question: Question,
    ) -> Option<Found> {
        let scope = Scope::of(pattern);
        if self.worlds.is_none() {
            let given = SystemCells::of(pattern);
            self.worlds = self.new_worlds(alloc, given, of, question.cell);
        }
        if let Some(found) = self.find_early(alloc, scope, question) {
            return Some(found);
        }
        if let Some(found) = find_in(alloc, &mut self.worlds, scope, question) {
            return Some(found);
        }
        if self.multipliers.is_none() {
            let given = SystemCells::of(pattern);
            let cell = question.cell;
            self.multipliers = search_over(alloc, given, of, cell, Finds::Multipliers);
        }
        find_in(alloc, &mut self.multipliers, scope, question)
    }

    // A search for worlds: with the equations of the one for multipliers, where there is one.
    fn new_worlds(
        &self,
        alloc: Global,
        given: SystemCells<'_>,
        of: &[Option<u32>],
        cell: u32,
    ) -> Option<KeptSearch> {
        match &self.multipliers {
            Some(kept) => kept.worlds_alone(alloc),
            None => search_over(alloc, given, of, cell, Finds::Worlds),
        }
    }

    // A world that moves no free cell beyond the last one outside of a scope, where there is such a cell.
    fn find_early(&mut self, alloc: Global, scope: Scope<'_>, question: Question) -> Option<Found> {
        let worlds = self.worlds.as_ref()?;
        let last = worlds.last_outside(scope)?;
        if self.early_worlds.is_none() {
            self.early_worlds = worlds.worlds_alone(alloc);
        }
        find_in(alloc, &mut self.early_worlds, scope.up_to(last), question)
    }

    // Takes the equations with slacks over from searches over a component within this one, by the numbers of all cells'
    // components.
    pub(crate) fn take_over(
        &mut self,
        alloc: Global,
        given: SystemCells<'_>,
        of: &[Option<u32>],
        smaller: &ComponentSearches,
    ) -> Option<()> {
        let kept = smaller.multipliers.as_ref()?;
        if self.multipliers.is_none() {
            let cell = kept.first_cell()?;
            self.multipliers = search_over(alloc, given, of, cell, Finds::Multipliers);
        }
        self.multipliers.as_mut()?.take_over(alloc, kept)
    }
}
