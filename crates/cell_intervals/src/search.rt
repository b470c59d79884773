ghost use Rattle.std.specs.Prelude.{◌≡◌, ◌<◌, ◌≤◌, IfSome, true, ℕ};
ghost use Rattle.sdc_base.specs.Patterns.{IsPattern};
ghost use Rattle.sdc_base.specs.HiddenSets.{is_hidden};
ghost use Rattle.sdc_base.specs.Signs.{HasNone};
ghost use Rattle.sdc_base.specs.declared.side.Side.TheVariants.{Above, Below};
ghost use Rattle.interval_audit.specs.Answers.{IsTrueAnswer};
ghost use Rattle.interval_audit.specs.Ends.{IsTrueEnd};
ghost use Rattle.cell_intervals.specs.IntervalFaults.{HasSmallComponent};

use crate::grouping::{component_at, small_components};
use compact_search::{CompactSearch, Found};
use interval_audit::{Answer, Question, SignedSystem, TwoEnds, end_question, signed_interval};
use kept_questions::checked_answer;
use sdc_base::{Cell, Hidden, Items, Side, System, rows_of};
use std::alloc::Global;
use worlds::Pattern;

// How many steps a search makes for a question at most.
const MOST_STEPS: u32 = 10_000;

/// Searches for how far worlds take hidden cells, one for each component of a hidden set ([`CompactSearch`]). Each is
/// kept from question to question, and given up once it finds nothing.
#[derive(Drop)]
pub struct EndSearch {
    // The number of each cell's component.
    of: Items<Option<u32>>,
    // The search of each component, as long as it goes on.
    searches: Vec<Option<CompactSearch>>,
    scratch: Vec<i128>,
}

impl EndSearch {
    /// The searches over a hidden set.
    ///
    /// There are a cell and a flag for each cell of the system. None where the system has signs, so that flows answer
    /// its questions, where a component has more than 4,000 hidden cells, so that questions about these have no answer,
    /// or where memory is wanting. It goes three times through the relations and their parts.
    pub fn of(
        alloc: Global,
        system: &SignedSystem<'_>,
        cells: &[Cell],
        hidden: &Hidden,
    ) -> Option<EndSearch>
        requires ground { IsPattern system.now cells.now hidden.now.flags }
        ensures no_signs { IfSome result (λ _. HasNone system.now.relations) }
        ensures small { IfSome result (λ _. (cell : ℕ) → is_hidden hidden.now.flags cell ≡ true
            → HasSmallComponent system.now hidden.now.flags cell) }
    {
        if system.has_signs() {
            return None;
        }
        searches_in(alloc, system.system(), cells, hidden)
    }

    /// How far a hidden cell can lie to both sides, as [`interval_audit::interval`] says: by the searches, or where they
    /// find nothing, or something that isn't right, by that walk; none where that has no answer.
    ///
    /// An end of the searches is where a world takes the cell, if multipliers bound it there, or 2^110 units away from
    /// the truth. The system, its cells and the hidden set are those of the searches: with others they find nothing, or
    /// what is right for these. `limit`, 1 or more, says how many improvements each question may make; how many steps a
    /// search takes is no part of the contract. Each world and each sum of multipliers is checked by a walk through the
    /// relations and the cells.
    ///
    /// The two ends are those of the feasibility interval in Hundepool et al., Statistical Disclosure Control, chapter
    /// on magnitude tables; that multipliers bound a cell is linear duality.
    pub fn ends_of(
        &mut self,
        alloc: Global,
        system: &SignedSystem<'_>,
        cells: &[Cell],
        hidden: &Hidden,
        cell: u32,
        limit: u64,
    ) -> Option<TwoEnds>
        requires ground { IsPattern system.now cells.now hidden.now.flags }
        requires hidden { is_hidden hidden.now.flags cell ≡ true }
        requires limit { 1 ≤ limit }
        ensures below { IfSome result (λ ends. IsTrueEnd system.now cells.now hidden.now.flags cell Below ends.below) }
        ensures above { IfSome result (λ ends. IsTrueEnd system.now cells.now hidden.now.flags cell Above ends.above) }
    {
        let own = system.system();
        if let Some(ends) = self.find_ends(alloc, own, cells, hidden, cell, limit) {
            return Some(ends);
        }
        let Ok(ends) = signed_interval(alloc, system, cells, hidden, cell, limit) else {
            return None;
        };
        Some(ends)
    }

    // How far a hidden cell can lie to both sides, if the search of its component finds that.
    fn find_ends(
        &mut self,
        alloc: Global,
        system: &System,
        cells: &[Cell],
        hidden: &Hidden,
        cell: u32,
        limit: u64,
    ) -> Option<TwoEnds>
        requires ground { IsPattern system.now cells.now hidden.now.flags }
        requires hidden { is_hidden hidden.now.flags cell ≡ true }
        ensures below { IfSome result (λ ends. IsTrueEnd system.now cells.now hidden.now.flags cell Below ends.below) }
        ensures above { IfSome result (λ ends. IsTrueEnd system.now cells.now hidden.now.flags cell Above ends.above) }
    {
        let pattern = Pattern {
            system,
            cells,
            hidden,
        };
        let steps = steps_within(limit);
        let below = self.answer_of(alloc, &pattern, end_question(cell, Side::Below), steps)?;
        let above = self.answer_of(alloc, &pattern, end_question(cell, Side::Above), steps)?;
        Some(TwoEnds { below, above })
    }

    // The answer of a question, if the search of its component finds one.
    fn answer_of(
        &mut self,
        alloc: Global,
        pattern: &Pattern<'_>,
        question: Question,
        steps: u32,
    ) -> Option<Answer>
        requires asked { question.cell < pattern.now.system.now.cells }
        ensures { IfSome result (IsTrueAnswer pattern.now.system.now pattern.now.cells.now
            pattern.now.hidden.now.flags question) }
    {
        let found = self.find(alloc, question, steps)?;
        if self.scratch.len() != pattern.system.cells as usize {
            return None;
        }
        checked_answer(pattern, question, found, &mut self.scratch)
    }

    // What the search of a question's component finds, unchecked; it is given up where it finds nothing.
    fn find(&mut self, alloc: Global, question: Question, steps: u32) -> Option<Found> {
        let number = component_at(self.of.as_slice(), question.cell)?;
        let slot = self.searches.get_mut(number as usize)?;
        let mut search = slot.take()?;
        let found = search.ask(alloc, question.cell, question.side, question.target, steps)?;
        *slot = Some(search);
        Some(found)
    }
}

// The searches over a hidden set with small components; none also for want of memory.
fn searches_in(alloc: Global, system: &System, cells: &[Cell], hidden: &Hidden) -> Option<EndSearch>
    requires ground { IsPattern system.now cells.now hidden.now.flags }
    ensures { IfSome result (λ _. (cell : ℕ) → is_hidden hidden.now.flags cell ≡ true
        → HasSmallComponent system.now hidden.now.flags cell) }
{
    let grouping = small_components(alloc, system, hidden)?;
    let Ok(rows) = rows_of(alloc, system, &grouping) else {
        return None;
    };
    let searches = all_searches(alloc, system, cells, hidden, &rows)?;
    let Ok(scratch) = Vec::from_elem(alloc, 0, system.cells as usize) else {
        return None;
    };
    Some(EndSearch {
        of: grouping.of,
        searches,
        scratch,
    })
}

// A search for each component, by the relations in which its cells stand.
fn all_searches(
    alloc: Global,
    system: &System,
    cells: &[Cell],
    hidden: &Hidden,
    rows: &[Vec<u32>],
) -> Option<Vec<Option<CompactSearch>>> {
    let flags = hidden.flags.as_slice();
    let mut searches = Vec::new(alloc);
    for relations in rows {
        let search = CompactSearch::for_ends(alloc, system, cells, flags, relations);
        searches.push(search).ok()?;
    }
    Some(searches)
}

// How many steps a search may make where each question may make so many improvements.
fn steps_within(limit: u64) -> u32 {
    match u32::try_from(limit) {
        Ok(steps) if steps < MOST_STEPS => steps,
        _ => MOST_STEPS,
    }
}
