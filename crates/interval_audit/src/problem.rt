ghost use Rattle.std.specs.Prelude.{◌≡◌, ◌≤◌, ◌<◌, ◌^◌, ◌++◌, List, map, length, All, IfOk, OnOk, pos, ℕ};
ghost use Rattle.std.specs.List.{flat_map};
ghost use Rattle.sdc_base.specs.declared.cell.Cell.{Cell as AnyCell};
ghost use Rattle.sdc_base.specs.declared.system.System.{System as AnySystem};
ghost use Rattle.sdc_base.specs.Worlds.{amount_toward};
ghost use Rattle.interval_audit.specs.Groups.{Group, group_of, OfMembers};
ghost use Rattle.interval_audit.specs.Groups as groups;
ghost use Rattle.interval_audit.specs.Columns as columns_specs;
ghost use Rattle.interval_audit.specs.Labels.{caps_for, met_relations, OfGroupWith};
ghost use Rattle.interval_audit.specs.FormSigns.{IsFormSign};
ghost use Rattle.interval_audit.specs.CellNumbers.{AreZeros};
ghost use Rattle.interval_audit.specs.Problems.{asked_move, row_of, met_rows};
ghost use Rattle.interval_audit.specs.Problems as problems;
ghost use Rattle.interval_audit.specs.ProblemSizes.{HasQuestionSize};

use crate::entries::entries_of;
use crate::group::{members_of, met_by};
use crate::question::Question;
use crate::rows::{push_caps, push_forms};
use sdc_base::{Cell, Items, Memory, Side, System};
use std::alloc::Global;
use tableau::{LinRow, Problem};

/// The problem of a question: raise the asked cell's move to its side, up to the target.
///
/// Its columns are, for each hidden cell of the asked cell's component, ascending, how far it goes up and how far it
/// goes down; a cell's move is its up less its down. Its rows are, in this order: for each of these cells that its up
/// is at most how far it can rise, where it has an upper bound, and that its down is at most how far it can fall; for
/// each relation in which one of these cells stands, ascending, that its form is at most 0, and that its negated form
/// is. The target is the last row. So with h such cells and r such relations there are at most 2h columns and, the
/// target's among them, 2h + 2r + 1 rows.
///
/// There is a cell for each cell of the system, `of` has the number of each cell's component, none for a shown one, and
/// the component has at most 4,000 cells. It goes once through the cells and through the parts of all relations, and
/// for each relation in which one of the component's cells stands twice through these. Its one refusal is want of
/// memory. The question is the handbook's (feasibility intervals by linear programs), the order of rows argus's own.
pub fn problem_of(
    alloc: Global,
    system: &System,
    cells: &[Cell],
    of: &[Option<u32>],
    question: Question,
) -> Result<Problem, Memory>
    requires cells { length cells.now ≡ system.now.cells }
    requires asked { question.cell < system.now.cells }
    requires within_most_members { length (groups.members (group_of of.now question.cell) system.now.cells)
        ≤ groups.most_members }
    ensures problem { IfOk result (λ problem. problem
        ≡ problems.problem_of system.now cells.now (group_of of.now question.cell) question) }
    ensures size { IfOk result (λ problem. HasQuestionSize system.now (group_of of.now question.cell) problem) }
{
    let relations = system.relations.as_slice();
    let met = met_by(alloc, relations, of, question.cell)?;
    let list = met.as_slice();
    problem_over(alloc, system, cells, of, list, question)
}

// The problem of a question, where the relations are known in which a cell of the asked cell's component stands.
pub(crate) fn problem_over(
    alloc: Global,
    system: &System,
    cells: &[Cell],
    of: &[Option<u32>],
    met: &[u32],
    question: Question,
) -> Result<Problem, Memory>
    requires cells { length cells.now ≡ system.now.cells }
    requires asked { question.cell < system.now.cells }
    requires within_most_members { length (groups.members (group_of of.now question.cell) system.now.cells)
        ≤ groups.most_members }
    requires met { met.now ≡ met_relations (group_of of.now question.cell) system.now.relations }
    ensures { IfOk result (λ problem. problem
        ≡ problems.problem_of system.now cells.now (group_of of.now question.cell) question) }
{
    let members = members_of(alloc, of, question.cell, system.cells)?;
    let list = members.as_slice();
    let mut rows = Vec::new(alloc);
    push_all_caps(alloc, &mut rows, list, cells)?;
    let mut scratch = Vec::from_elem(alloc, 0, system.cells as usize)?;
    let numbers = scratch.as_mut_slice();
    push_all_forms(alloc, &mut rows, list, system, met, numbers)?;
    let objective = objective_of(alloc, list, question.cell, question.side, numbers)?;
    Ok(Problem {
        columns: 2 * list.len() as u32,
        rows: Items::new(rows),
        objective: Items::new(objective),
        target: question.target,
    })
}

// Puts the caps of the cells of a component at the end of rows.
fn push_all_caps(
    alloc: Global,
    rows: &mut Vec<LinRow>,
    members: &[u32],
    cells: &[Cell],
) -> Result<(), Memory>
    requires fewer_than_2_31 { length members.now < 2 ^ 31 }
    requires known { All (λ cell. cell < length cells.now) members.now }
    ensures { (system : AnySystem) → OfMembers members.now (λ group n. OnOk result (rows.new.items ≡ rows.old.items
        ++ map (row_of system cells.now group) (flat_map (caps_for cells.now) members.now))) }
{
    'members: for (place, number) in members.iter().enumerate() {
        push_caps(alloc, rows, 2 * place as u32, &cells[*number as usize])?;
    }
    Ok(())
}

// Puts the forms of the relations with these numbers at the end of rows, at the columns of the cells of a component.
fn push_all_forms(
    alloc: Global,
    rows: &mut Vec<LinRow>,
    members: &[u32],
    system: &System,
    met: &[u32],
    scratch: &mut [i128],
) -> Result<(), Memory>
    requires fewer_than_2_31 { length members.now < 2 ^ 31 }
    requires known { All (λ cell. cell < length scratch.old) members.now }
    requires met { All (λ number. number < length system.now.relations) met.now }
    requires scratch { length scratch.old ≡ system.now.cells }
    requires zeros { AreZeros scratch.old }
    ensures length { length scratch.new ≡ length scratch.old }
    ensures zeros { OnOk result (AreZeros scratch.new) }
    ensures rows { (cells : List AnyCell) → OfGroupWith system.now members.now met.now
        (λ group. OnOk result (rows.new.items ≡ rows.old.items ++ met_rows system.now cells group)) }
{
    let relations = system.relations.as_slice();
    'numbers: for number in met {
        push_forms(alloc, rows, members, &relations[*number as usize], scratch)?;
    }
    Ok(())
}

// The asked cell's move to its side, at the columns of the cells of a component.
fn objective_of(
    alloc: Global,
    members: &[u32],
    asked: u32,
    side: Side,
    scratch: &mut [i128],
) -> Result<Vec<(u32, i128)>, Memory>
    requires fewer_than_2_31 { length members.now < 2 ^ 31 }
    requires known { All (λ cell. cell < length scratch.old) members.now }
    requires asked { asked < length scratch.old }
    requires zeros { AreZeros scratch.old }
    ensures { (group : Group) (n : ℕ) → members.now ≡ groups.members group n
        → IfOk result (λ entries. entries.items ≡ columns_specs.entries_of group n (asked_move asked side)) }
{
    let terms = [(asked, one_toward(side))];
    entries_of(alloc, members, &terms, scratch)
}

// One toward a side.
fn one_toward(side: Side) -> i128
    ensures value { result ≡ amount_toward side (pos 1) }
    ensures one { IsFormSign result }
{
    match side {
        Side::Above => 1,
        Side::Below => -1,
    }
}
