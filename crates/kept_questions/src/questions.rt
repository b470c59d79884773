ghost use Rattle.std.specs.Prelude.{◌≡◌, true, Some};
ghost use Rattle.sdc_base.specs.HiddenSets.{is_hidden};
ghost use Rattle.sdc_base.specs.Signs.{HasNone};
ghost use Rattle.worlds.specs.declared.multipliers.Multipliers.{Multipliers as AnyMultipliers};
ghost use Rattle.worlds.specs.declared.world.World.{World as AnyWorld};
ghost use Rattle.interval_audit.specs.Answers.{IsTrueAnswer};
ghost use Rattle.interval_audit.specs.declared.answer.Answer.TheVariants as answer;
ghost use Rattle.kept_questions.specs.KeptAnswers.{IsKeptStop};
ghost use Rattle.kept_questions.specs.declared.kept_answer.KeptAnswer.TheVariants as kept_answer;

use crate::component_searches::ComponentSearches;
use crate::kept_answer::KeptAnswer;
use crate::kept_search::SystemCells;
use crate::primary_search::PrimarySearch;
use crate::reach_check::check_reach;
use crate::stop_check::check_stop;
use compact_search::Found;
use interval_audit::Question;
use sdc_base::{Cell, Hidden, System, components};
use std::alloc::Global;
use worlds::Pattern;

/// Questions about the hidden cells of a system, asked of tables that are kept from one to the next.
#[derive(Drop)]
pub struct KeptQuestions {
    // The number of each cell's component in the hidden set for which this was made, none for a shown cell.
    of: Vec<Option<u32>>,
    // By the number of a component how many cells it has, and the searches over it.
    sizes: Vec<u32>,
    searches: Vec<ComponentSearches>,
    // The searches over the primary cells alone.
    primary: Option<PrimarySearch>,
}

impl KeptQuestions {
    /// Questions about the cells of a hidden set, to be asked of that set and of those within it.
    ///
    /// Nothing is refused: where memory is wanting there are no answers later. It makes the components of the set and
    /// those of the primary cells, which goes twice through the relations and their parts, and no table before a question
    /// asks for one.
    pub fn new(alloc: Global, system: &System, cells: &[Cell], hidden: &Hidden) -> KeptQuestions {
        let mut questions = unasked(alloc, system, hidden);
        questions.primary = PrimarySearch::new(alloc, system, cells);
        questions
    }

    /// Questions about the cells of a larger hidden set of the same system, which holds the one for which this was made.
    ///
    /// Nothing is refused. Components that didn't grow keep their tables, and the primary cells theirs. A component that
    /// grew takes over the tables with slacks of those within it: the numbers of a cell that is hidden now follow from
    /// those of its relations' slacks. It makes the components of the set, and goes once through the tables that are
    /// taken over. How tables are carried over is own.
    pub fn widen(
        self,
        alloc: Global,
        system: &System,
        cells: &[Cell],
        hidden: &Hidden,
    ) -> KeptQuestions {
        let mut wider = unasked(alloc, system, hidden);
        wider.primary = self.primary;
        let given = SystemCells { system, cells };
        let sizes = self.sizes;
        wider.carry_all(alloc, given, self.searches, &sizes);
        wider
    }

    /// The answer of a question about a cell that the pattern hides, where the kept table gives one that passes its
    /// check.
    ///
    /// Where a world is given the cell lies in it exactly at the target. Where multipliers are given no world takes the
    /// cell so far, and where the system has no signs they are those that [`interval_audit::ask`] answers. That nothing
    /// is given says nothing: the pattern may hide other cells than those for which this was made, the search may have
    /// ended early, a number may leave 128 bits or memory be wanting. No table is of use to another system.
    ///
    /// The first question about a component makes its table, and each later one goes on with its equations, from the
    /// truths; cells that the pattern doesn't hide are left out. Tables for worlds alone, which have no slacks, are asked
    /// first: one of the primary cells, unless it found nothing for that cell and side before; where the pattern doesn't
    /// hide a cell of the component, one without the free cells beyond the last such cell; then one of all its cells.
    /// Where none finds a world, one with slacks is asked, which has multipliers as well. The check of a world goes once
    /// through its moves and the parts of all relations. That of multipliers makes the components of the pattern, goes
    /// once through the lists of the moves for each cell of the asked cell's component and once for each time that
    /// one of its relations counts one, and then once through the parts of the relations that have a multiplier and
    /// through all cells.
    ///
    /// The question is that of the feasibility interval in Hundepool et al., Statistical Disclosure Control, chapter on
    /// magnitude tables; that an answer stops is shown by linear duality. The order of the questions' tables is own.
    pub fn ask(
        &mut self,
        alloc: Global,
        pattern: &Pattern<'_>,
        question: Question,
    ) -> Option<KeptAnswer>
        requires hidden { is_hidden pattern.now.hidden.now.flags question.cell ≡ true }
        ensures reaches { (world : AnyWorld) → result ≡ Some (kept_answer.Reaches world)
            → IsTrueAnswer pattern.now.system.now pattern.now.cells.now pattern.now.hidden.now.flags question
            (answer.Reaches world) }
        ensures stops { HasNone pattern.now.system.now.relations → (multipliers : AnyMultipliers)
            → result ≡ Some (kept_answer.Stops multipliers)
            → IsKeptStop pattern.now.system.now pattern.now.cells.now pattern.now.hidden.now.flags question
            multipliers }
    {
        match self.find(alloc, pattern, question)? {
            Found::Reaches(world) => {
                if check_reach(alloc, pattern, question, &world).is_err() {
                    return None;
                }
                Some(KeptAnswer::Reaches(world))
            }
            Found::Stops(stop) => {
                let lists = stop.lists?;
                let multipliers = check_stop(alloc, pattern, question, &lists)?;
                Some(KeptAnswer::Stops(multipliers))
            }
        }
    }

    // What the searches over the asked cell's component find, unchecked: a world of the primary cells alone, or else what
    // the others give.
    fn find(&mut self, alloc: Global, pattern: &Pattern<'_>, question: Question) -> Option<Found> {
        if let Some(found) = self.find_primary(alloc, pattern, question) {
            return Some(found);
        }
        let number = (*self.of.get(question.cell as usize)?)?;
        let searches = self.searches.get_mut(number as usize)?;
        searches.find(alloc, pattern, &self.of, question)
    }

    // A world that moves primary cells alone.
    fn find_primary(
        &mut self,
        alloc: Global,
        pattern: &Pattern<'_>,
        question: Question,
    ) -> Option<Found> {
        self.primary.as_mut()?.find(alloc, pattern, question)
    }

    // Takes the searches over the components of a smaller hidden set, which have these sizes.
    fn carry_all(
        &mut self,
        alloc: Global,
        given: SystemCells<'_>,
        searches: Vec<ComponentSearches>,
        sizes: &[u32],
    ) {
        for (smaller, size) in searches.into_iter().zip(sizes.iter()) {
            let _carried = self.carry(alloc, given, smaller, *size);
        }
    }

    // Takes the searches over a component of a smaller hidden set, which has this size.
    fn carry(
        &mut self,
        alloc: Global,
        given: SystemCells<'_>,
        smaller: ComponentSearches,
        size: u32,
    ) -> Option<()> {
        let cell = smaller.first_cell()?;
        let number = (*self.of.get(cell as usize)?)? as usize;
        let searches = self.searches.get_mut(number)?;
        if *self.sizes.get(number)? == size {
            *searches = smaller;
            return Some(());
        }
        searches.take_over(alloc, given, &self.of, &smaller)
    }
}

// Questions about a hidden set of which none has been asked yet, without searches over the primary cells.
fn unasked(alloc: Global, system: &System, hidden: &Hidden) -> KeptQuestions {
    match questions_of(alloc, system, hidden) {
        Some(questions) => questions,
        None => KeptQuestions {
            of: Vec::new(alloc),
            sizes: Vec::new(alloc),
            searches: Vec::new(alloc),
            primary: None,
        },
    }
}

// The same; none where memory is wanting or there isn't a flag for each cell.
fn questions_of(alloc: Global, system: &System, hidden: &Hidden) -> Option<KeptQuestions> {
    if hidden.flags.as_slice().len() != system.cells as usize {
        return None;
    }
    let grouping = components(alloc, system, hidden).ok()?;
    let mut searches = Vec::new(alloc);
    for _component in 0..grouping.sizes.as_slice().len() {
        searches.push(ComponentSearches::none()).ok()?;
    }
    Some(KeptQuestions {
        of: grouping.of.into_vec(),
        sizes: grouping.sizes.into_vec(),
        searches,
        primary: None,
    })
}
