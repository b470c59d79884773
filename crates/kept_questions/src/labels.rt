ghost use Rattle.std.specs.Prelude.{◌≡◌, ◌+◌, ◌<◌, ℕ, true, length, IfOk, OnOk};
ghost use Rattle.std.specs.List.{flat_map};
ghost use Rattle.interval_audit.specs.Groups.{group_of};
ghost use Rattle.interval_audit.specs.Labels.{caps_for, forms_for};
ghost use Rattle.kept_questions.specs.Checks.{LabelsFit, IsHeldBelow};

use crate::exact::opposite;
use crate::lists::{form_list, list_at, number_at};
use crate::sides::{Limit, check_side, place_after};
use crate::unfit::Unfit;
use interval_audit::is_in;
use sdc_base::{Cell, Items, System};
use std::alloc::Global;

// What is checked: lists of the cells' moves over a den, what is left over at the cells, and weights of the relations.
#[derive(Drop)]
pub(crate) struct Checked<'a> {
    pub(crate) system: &'a System,
    pub(crate) cells: &'a [Cell],
    pub(crate) lists: &'a [Items<(u32, i128)>],
    pub(crate) den: i128,
    pub(crate) left: &'a [i128],
    pub(crate) weights: &'a [i128],
}

// That the rows of the caps of these cells fit, the first of them at a place; the place behind.
pub(crate) fn check_caps(
    alloc: Global,
    checked: &Checked<'_>,
    members: &[u32],
) -> Result<u32, Unfit>
    ensures fit { IfOk result (λ _. LabelsFit checked.now 0 (flat_map (caps_for checked.now.cells.now) members.now)) }
    ensures next { IfOk result (λ next. next ≡ length (flat_map (caps_for checked.now.cells.now) members.now)) }
{
    let mut place = 0;
    'members: for number in members {
        place = check_cap(alloc, checked, *number, place)?;
    }
    Ok(place)
}

// That the rows of a cell's caps fit.
fn check_cap(alloc: Global, checked: &Checked<'_>, number: u32, place: u32) -> Result<u32, Unfit>
    ensures fit { IfOk result (λ _. LabelsFit checked.now place (caps_for checked.now.cells.now number)) }
    ensures next { IfOk result (λ next. next ≡ place + length (caps_for checked.now.cells.now number)) }
{
    let Some(cell) = checked.cells.get(number as usize) else {
        return Err(Unfit);
    };
    let list = list_at(checked.lists, number);
    let left = number_at(checked.left, number);
    let less = opposite(left)?;
    let fall = cell.truth - cell.low;
    let Some(high) = cell.high else {
        let below = limit_of(checked, fall, place);
        check_side(alloc, list, -1, below, less)?;
        let behind = place_after(place)?;
        return Ok(behind);
    };
    let rise = high - cell.truth;
    let above = limit_of(checked, rise, place);
    check_side(alloc, list, 1, above, left)?;
    let next = place_after(place)?;
    let below = limit_of(checked, fall, next);
    check_side(alloc, list, -1, below, less)?;
    let behind = place_after(next)?;
    Ok(behind)
}

// That nothing is left over above 0 at the cells of the asked cell's component that have no upper bound.
pub(crate) fn check_held(checked: &Checked<'_>, of: &[Option<u32>], asked: u32) -> Result<(), Unfit>
    ensures { OnOk result ((cell : ℕ) → cell < checked.now.system.now.cells → group_of of.now asked cell ≡ true
        → IsHeldBelow checked.now cell) }
{
    'cells: for cell in 0..checked.system.cells {
        if is_in(of, asked, cell) && !is_held_below(checked, cell) {
            return Err(Unfit);
        }
    }
    Ok(())
}

// Whether a cell has an upper bound, or nothing above 0 is left over at it.
fn is_held_below(checked: &Checked<'_>, cell: u32) -> bool
    ensures { result ≡ true → IsHeldBelow checked.now cell }
{
    if let Some(found) = checked.cells.get(cell as usize) {
        if found.high.is_some() {
            return true;
        }
    }
    number_at(checked.left, cell) <= 0
}

// A limit over the den of what is checked.
fn limit_of(checked: &Checked<'_>, bound: i128, own: u32) -> Limit
    ensures bound { result.bound ≡ bound }
    ensures own { result.own ≡ own }
    ensures den { result.den ≡ checked.now.den }
{
    let den = checked.den;
    Limit { bound, own, den }
}

// That the rows of the forms of these relations fit, the first of them at a place.
pub(crate) fn check_forms(
    alloc: Global,
    checked: &Checked<'_>,
    met: &[u32],
    first: u32,
) -> Result<(), Unfit>
    ensures { OnOk result (LabelsFit checked.now first (flat_map forms_for met.now)) }
{
    let mut place = first;
    'met: for number in met {
        place = check_form(alloc, checked, *number, place)?;
    }
    Ok(())
}

// That the rows of a relation's form and of its negated form fit.
fn check_form(alloc: Global, checked: &Checked<'_>, number: u32, place: u32) -> Result<u32, Unfit>
    ensures fit { IfOk result (λ _. LabelsFit checked.now place (forms_for number)) }
    ensures next { IfOk result (λ next. next ≡ place + 2) }
{
    let Some(relation) = checked.system.relations.as_slice().get(number as usize) else {
        return Err(Unfit);
    };
    let made = form_list(alloc, checked.lists, relation)?;
    let list = made.as_slice();
    let weight = number_at(checked.weights, number);
    let less = opposite(weight)?;
    let form = limit_of(checked, 0, place);
    check_side(alloc, list, 1, form, less)?;
    let next = place_after(place)?;
    let negated = limit_of(checked, 0, next);
    check_side(alloc, list, -1, negated, weight)?;
    let behind = place_after(next)?;
    Ok(behind)
}
