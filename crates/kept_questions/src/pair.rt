ghost use Rattle.std.specs.Prelude.{◌≡◌, ℕ, Bool, List, length, ◌*ℤ◌, ◌<ℤ◌, IfOk, OnOk};
ghost use Rattle.sdc_base.specs.Forms.{coefficient};
ghost use Rattle.sdc_base.specs.Systems.{number_at};
ghost use Rattle.sdc_base.specs.Worlds.{amount_toward};
ghost use Rattle.interval_audit.specs.Groups.{IsComponentOf, group_of, members};
ghost use Rattle.interval_audit.specs.Labels.{met_relations};
ghost use Rattle.interval_audit.specs.MovePairs.{IsMovePair, left_over};
ghost use Rattle.kept_questions.specs.TermLists.{moves_in};

use crate::component::Component;
use crate::exact::{product, sum};
use crate::labels::{Checked, check_caps, check_forms, check_held};
use crate::left_over::{left_over_of, toward};
use crate::lists::{check_outside, list_at};
use crate::unfit::Unfit;
use interval_audit::Question;
use sdc_base::Items;
use std::alloc::Global;
use worlds::Pattern;

// What is read off a table where nothing takes the asked cell further: for each cell of the system the list of its move
// over the den, and for each relation its weight over q.
#[derive(Drop)]
pub(crate) struct MovePair {
    pub(crate) den: i128,
    pub(crate) lists: Vec<Items<(u32, i128)>>,
    pub(crate) q: i128,
    pub(crate) weights: Vec<i128>,
}

// That lists of moves and weights show each other to be the best.
pub(crate) fn check_pair(
    alloc: Global,
    pattern: &Pattern<'_>,
    component: &Component,
    question: Question,
    pair: &MovePair,
) -> Result<(), Unfit>
    requires own { IsComponentOf pattern.now.system.now.relations pattern.now.hidden.now.flags question.cell
        (group_of component.now.of question.cell) }
    requires members { component.now.members.items
        ≡ members (group_of component.now.of question.cell) pattern.now.system.now.cells }
    requires met { component.now.met.items
        ≡ met_relations (group_of component.now.of question.cell) pattern.now.system.now.relations }
    ensures { OnOk result (IsMovePair pattern.now.system.now pattern.now.cells.now pattern.now.hidden.now.flags
        (group_of component.now.of question.cell) question pair.now.den pair.now.q (moves_in pair.now.lists.items)
        (number_at pair.now.weights.items)) }
{
    let system = pattern.system;
    let met = component.met.as_slice();
    let weights = pair.weights.as_slice();
    let left = left_over_of(alloc, system, question, pair.q, weights, met)?;
    let checked = Checked {
        system,
        cells: pattern.cells,
        lists: pair.lists.as_slice(),
        den: pair.den,
        left: left.as_slice(),
        weights,
    };
    check_rows(alloc, &checked, component, question, pair.q)?;
    Ok(())
}

// The same of what is left over at the cells.
fn check_rows(
    alloc: Global,
    checked: &Checked<'_>,
    component: &Component,
    question: Question,
    q: i128,
) -> Result<(), Unfit>
    requires members { component.now.members.items
        ≡ members (group_of component.now.of question.cell) checked.now.system.now.cells }
    requires met { component.now.met.items
        ≡ met_relations (group_of component.now.of question.cell) checked.now.system.now.relations }
    requires left { (cell : ℕ) → number_at checked.now.left.now cell ≡ left_over checked.now.system.now
        (group_of component.now.of question.cell) question q (number_at checked.now.weights.now) cell }
    ensures { (flags : List Bool) → length flags ≡ checked.now.system.now.cells
        → IsComponentOf checked.now.system.now.relations flags question.cell (group_of component.now.of question.cell)
        → OnOk result (IsMovePair checked.now.system.now checked.now.cells.now flags
        (group_of component.now.of question.cell) question checked.now.den q (moves_in checked.now.lists.now)
        (number_at checked.now.weights.now)) }
{
    if checked.den < 1 {
        return Err(Unfit);
    }
    if q < 1 {
        return Err(Unfit);
    }
    let lists = checked.lists;
    let cells = checked.system.cells;
    if lists.len() > cells as usize {
        return Err(Unfit);
    }
    let of = component.of.as_slice();
    check_outside(lists, of, question.cell, cells)?;
    let own = list_at(lists, question.cell);
    check_target(own, question, checked.den)?;
    check_held(checked, of, question.cell)?;
    let members = component.members.as_slice();
    let behind = check_caps(alloc, checked, members)?;
    let met = component.met.as_slice();
    check_forms(alloc, checked, met, behind)?;
    Ok(())
}

// That a list's move doesn't come to the target.
fn check_target(list: &[(u32, i128)], question: Question, den: i128) -> Result<(), Unfit>
    ensures { OnOk result (amount_toward question.side (coefficient list.now 0) <ℤ (den *ℤ question.target)) }
{
    let own = value_of(list)?;
    let turned = toward(question.side, own)?;
    let far = product(den, question.target)?;
    if turned >= far {
        return Err(Unfit);
    }
    Ok(())
}

// The value of a list, which stands at place 0.
fn value_of(list: &[(u32, i128)]) -> Result<i128, Unfit>
    ensures { IfOk result (λ value. value ≡ coefficient list.now 0) }
{
    let mut value = 0;
    'terms: for term in list {
        if term.0 == 0 {
            value = sum(value, term.1)?;
        }
    }
    Ok(value)
}
