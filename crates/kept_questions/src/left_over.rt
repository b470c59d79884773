ghost use Rattle.std.specs.Prelude.{◌≡◌, ℕ, ◌∷◌, [], length, map, ◌+ℤ◌, ◌*ℤ◌, pos, neg_ℤ, ◌≤ℤ◌, IfOk, OnOk};
ghost use Rattle.sdc_base.specs.Forms.{coefficient, form_times};
ghost use Rattle.sdc_base.specs.Systems as spec;
ghost use Rattle.sdc_base.specs.Totals.{sum_of};
ghost use Rattle.sdc_base.specs.Worlds.{amount_toward};
ghost use Rattle.interval_audit.specs.Labels.{form_at};
ghost use Rattle.interval_audit.specs.Problems.{asked_move};

use crate::exact::{opposite, sum};
use crate::lists::number_at;
use crate::unfit::Unfit;
use interval_audit::Question;
use sdc_base::{Relation, Side, System};
use std::alloc::Global;

// What is left over at each cell: the asked cell's move, q times, and the forms of these relations, each as many times
// as its weight says.
pub(crate) fn left_over_of(
    alloc: Global,
    system: &System,
    question: Question,
    q: i128,
    weights: &[i128],
    met: &[u32],
) -> Result<Vec<i128>, Unfit>
    ensures { IfOk result (λ left. (cell : ℕ) → spec.number_at left.items cell
        ≡ q *ℤ coefficient (asked_move question.cell question.side) cell
        +ℤ sum_of (λ number. spec.number_at weights.now number
        *ℤ coefficient (form_at system.now.relations (pos 1) number) cell) met.now) }
{
    let mut left = Vec::from_elem(alloc, 0, system.cells as usize)?;
    let own = toward(question.side, q)?;
    add_at(&mut left, question.cell, own)?;
    let relations = system.relations.as_slice();
    add_forms(&mut left, relations, weights, met)?;
    Ok(left)
}

// An amount toward a side.
pub(crate) fn toward(side: Side, amount: i128) -> Result<i128, Unfit>
    ensures { IfOk result (λ turned. turned ≡ amount_toward side amount) }
{
    match side {
        Side::Above => Ok(amount),
        Side::Below => opposite(amount),
    }
}

// Adds the forms of relations to the numbers of the cells, each as many times as its weight says.
fn add_forms(
    numbers: &mut Vec<i128>,
    relations: &[Relation],
    weights: &[i128],
    met: &[u32],
) -> Result<(), Unfit>
    ensures { OnOk result ((cell : ℕ) → spec.number_at numbers.new.items cell ≡ spec.number_at numbers.old.items cell
        +ℤ sum_of (λ number. spec.number_at weights.now number
        *ℤ coefficient (form_at relations.now (pos 1) number) cell) met.now) }
{
    'met: for number in met {
        let weight = number_at(weights, *number);
        add_weighted(numbers, relations, *number, weight)?;
    }
    Ok(())
}

// Adds the form of a relation so many times.
fn add_weighted(
    numbers: &mut Vec<i128>,
    relations: &[Relation],
    number: u32,
    weight: i128,
) -> Result<(), Unfit>
    ensures { OnOk result ((cell : ℕ) → spec.number_at numbers.new.items cell ≡ spec.number_at numbers.old.items cell
        +ℤ weight *ℤ coefficient (form_at relations.now (pos 1) number) cell) }
{
    if weight == 0 {
        return Ok(());
    }
    let Some(relation) = relations.get(number as usize) else {
        return Err(Unfit);
    };
    add_at(numbers, relation.total, weight)?;
    let less = opposite(weight)?;
    let parts = relation.parts.as_slice();
    add_parts(numbers, parts, less)?;
    Ok(())
}

// Adds so much to each of these cells.
fn add_parts(numbers: &mut Vec<i128>, parts: &[u32], times: i128) -> Result<(), Unfit>
    ensures { OnOk result ((cell : ℕ) → spec.number_at numbers.new.items cell ≡ spec.number_at numbers.old.items cell
        +ℤ times *ℤ coefficient (map (λ part. (part, pos 1)) parts.now) cell) }
{
    'parts: for part in parts {
        add_at(numbers, *part, times)?;
    }
    Ok(())
}

// Adds to the number of a cell.
fn add_at(numbers: &mut Vec<i128>, cell: u32, by: i128) -> Result<(), Unfit>
    ensures { OnOk result ((at : ℕ) → spec.number_at numbers.new.items at
        ≡ spec.number_at numbers.old.items at +ℤ coefficient ((cell, by) ∷ []) at) }
{
    let place = cell as usize;
    if place >= numbers.len() {
        return Err(Unfit);
    }
    let both = sum(numbers[place], by)?;
    numbers[place] = both;
    Ok(())
}
