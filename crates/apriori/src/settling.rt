ghost use Rattle.std.specs.Prelude.{◌≡◌, map, All, length, IfOk, Ok};
ghost use Rattle.std.specs.List.{zip};
ghost use Rattle.sdc_base.specs.Answers.{Gives};
ghost use Rattle.primary_rules.specs.Ranges.{AreInRange};
ghost use Rattle.apriori.specs.Faults.{prior_fault_of};
ghost use Rattle.apriori.specs.Priors.{ArePriors};
ghost use Rattle.apriori.specs.Settling.{view_of_cell, told_of, IsReadyFor, settle_of, GivesCells, OverRecords};
ghost use Rattle.apriori.specs.PrimaryShown.{first_of};
ghost use Rattle.apriori.specs.CellLevels.{HasLevelsInRange};
ghost use Rattle.apriori.specs.Settling as spec;
ghost use Rattle.apriori.specs.PrimaryShown as primary_shown;

use crate::faults::{PriorError, PriorWhy};
use crate::prior::Prior;
use crate::settled::{clash_of, settled_cell};
use linked_tables::{Book, Mark};
use sdc_base::{Cell, Rules};
use std::alloc::Global;

/// What each cell of a book is to its protection, in the order of the cells' numbers, with all amounts in units.
///
/// A cell is primary where it is declared unsafe, or where a rule names it and it isn't declared safe. Its levels are
/// those that are stated of it, the lower one cut at the truth, else the greatest of the rules that name it and, where
/// it is declared unsafe, of `MAN`. Any other cell is fixed where it has no records or is stated to be always shown,
/// and else free. The bounds are those that are stated, else 0 and none; the price is the one that is stated, if any.
///
/// It takes one prior for each cell, as [`blank_priors`](crate::blank_priors) and [`apply`](crate::apply) make them;
/// rules in their ranges; and marks with a truth from 0 to `10^29` that keep as many contributions as the rules look
/// at. `ProtectedPrimary` is given where a primary cell is stated to be always shown, for the first such line by table
/// and line; want of memory is `Memory`. It looks at each cell once, and at each rule for it.
///
/// Rules and levels are the handbook's (sensitivity rules and protection levels); what is stated beforehand is argus's
/// own.
pub fn settle(
    alloc: Global,
    book: &Book,
    rules: &Rules,
    priors: &[Prior],
) -> Result<Vec<Cell>, PriorError>
    requires in_range { AreInRange rules.now }
    requires ready { All (IsReadyFor rules.now) book.now.marks }
    requires priors { ArePriors book.now.marks priors.now }
    ensures exact { GivesCells result rules.now (told_of book.now.marks) priors.now }
    ensures over_records { OverRecords book.now.marks (λ figures. GivesCells result rules.now figures priors.now) }
    ensures one_each { IfOk result (λ cells. length cells.items ≡ length book.now.marks) }
    ensures levels { IfOk result (λ cells. All HasLevelsInRange cells.items) }
{
    settle_cells(alloc, book.marks(), rules, priors)
}

// The cells with these marks and priors.
#[tactic(auto, unfolding(crate::specs::Settling::settle_of))]
fn settle_cells(
    alloc: Global,
    marks: &[Mark],
    rules: &Rules,
    priors: &[Prior],
) -> Result<Vec<Cell>, PriorError>
    requires in_range { AreInRange rules.now }
    requires ready { All (IsReadyFor rules.now) marks.now }
    requires priors { ArePriors marks.now priors.now }
    ensures exact { GivesCells result rules.now (told_of marks.now) priors.now }
    ensures one_each { IfOk result (λ cells. length cells.items ≡ length marks.now) }
    ensures levels { IfOk result (λ cells. All HasLevelsInRange cells.items) }
{
    let (cells, clash) = cells_of(alloc, marks, rules, priors)?;
    if let Some((table, line)) = clash {
        return Err(PriorError::At {
            table,
            line,
            why: PriorWhy::ProtectedPrimary,
        });
    }
    Ok(cells)
}

// What each cell is, with the first line by which a primary cell is to be always shown.
fn cells_of(
    alloc: Global,
    marks: &[Mark],
    rules: &Rules,
    priors: &[Prior],
) -> Result<(Vec<Cell>, Option<(u32, u32)>), PriorError>
    requires in_range { AreInRange rules.now }
    requires ready { All (IsReadyFor rules.now) marks.now }
    requires priors { ArePriors marks.now priors.now }
    ensures exact { Gives prior_fault_of (λ settled. map view_of_cell settled.0.items) result
        (Ok (map (λ cell. spec.settled_cell rules.now cell.0 cell.1) (zip (told_of marks.now) priors.now))) }
    ensures clash { IfOk result (λ settled. settled.1
        ≡ primary_shown.first_clash rules.now (zip (told_of marks.now) priors.now)) }
    ensures one_each { IfOk result (λ settled. length settled.0.items ≡ length marks.now) }
    ensures levels { IfOk result (λ settled. All HasLevelsInRange settled.0.items) }
{
    let mut cells = Vec::new(alloc);
    let mut clash = None;
    'cells: for (cell, prior) in priors.iter().enumerate() {
        let settled = settled_cell(rules, &marks[cell].facts, prior);
        clash = first_line(clash, clash_of(&settled, prior));
        cells.push(settled)?;
    }
    Ok((cells, clash))
}

// The first of two lines that may be there.
fn first_line(one: Option<(u32, u32)>, other: Option<(u32, u32)>) -> Option<(u32, u32)>
    ensures { result ≡ first_of one other }
{
    let Some(here) = one else { return other };
    let Some(there) = other else { return one };
    Some(if is_before(there, here) { there } else { here })
}

// Whether a line comes before another: by table, and then by line.
fn is_before(one: (u32, u32), other: (u32, u32)) -> bool
    ensures { result ≡ primary_shown.is_before one other }
{
    one.0 < other.0 || (one.0 == other.0 && one.1 < other.1)
}
