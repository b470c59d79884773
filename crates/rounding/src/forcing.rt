ghost use Rattle.std.specs.Prelude.{◌≡◌, ◌<◌, ◌≤◌, ◌^◌, ◌≤ℤ◌, neg_ℤ, pos, false, true, ℕ, length, slice_get, slice_index, Some, IsTrue, IfOk, OnOk};
ghost use Rattle.sdc_base.specs.declared.relation.Relation.{Relation as AnyRelation};
ghost use Rattle.rounding.specs.Fixes.{NoneWithin, AllCanHold, HoldFrom, HoldOf, can_hold};
ghost use Rattle.rounding.specs.FixedSteps.{IsForced, CountsCell};
ghost use Rattle.rounding.specs.Namings.{IsNaming};
ghost use Rattle.rounding.specs.Tasks.{IsProper};

use crate::bounds::Bounds;
use crate::forms::times_in;
use sdc_base::{Items, Memory, Relation};

// Fixes what relations force, from the cell that was fixed at this place on. False where some relation can't hold.
pub(crate) fn propagate(
    bounds: &mut Bounds<'_>,
    naming: &[Items<u32>],
    from: usize,
) -> Result<bool, Memory>
    requires proper { IsProper bounds.old.system bounds.old.truths bounds.old.base }
    requires naming { IsNaming bounds.old.system naming.now }
    requires from { from ≤ length bounds.old.fixes }
    requires ready { HoldFrom from bounds.old }
    ensures forced { IfOk result (λ _. IsForced bounds.old bounds.new) }
    ensures hold { IfOk result (λ all. IsTrue all → AllCanHold bounds.new) }
    ensures none { IfOk result (λ all. all ≡ false → NoneWithin bounds.new) }
{
    let mut next = from;
    'fixes: while next < bounds.fix_count() {
        let cell = bounds.fixed_cell(next);
        let all = settle_each(bounds, naming, naming[cell as usize].as_slice())?;
        if !all {
            return Ok(false);
        }
        next += 1;
    }
    Ok(true)
}

// Fixes what these relations force, each looked at once. False where one can't hold.
fn settle_each(
    bounds: &mut Bounds<'_>,
    naming: &[Items<u32>],
    numbers: &[u32],
) -> Result<bool, Memory>
    requires proper { IsProper bounds.old.system bounds.old.truths bounds.old.base }
    requires naming { IsNaming bounds.old.system naming.now }
    requires within { (place : ℕ) → place < length numbers.now
        → slice_index numbers.now place < length bounds.old.system.relations }
    ensures forced { IfOk result (λ _. IsForced bounds.old bounds.new) }
    ensures hold { IfOk result (λ all. IsTrue all → HoldOf numbers.now (length bounds.old.fixes) bounds.new) }
    ensures none { IfOk result (λ all. all ≡ false → NoneWithin bounds.new) }
{
    'numbers: for number in numbers {
        let holds = force_relation(bounds, naming, *number)?;
        if !holds {
            return Ok(false);
        }
    }
    Ok(true)
}

// Fixes what a relation forces. False where it can't hold.
fn force_relation(
    bounds: &mut Bounds<'_>,
    naming: &[Items<u32>],
    number: u32,
) -> Result<bool, Memory>
    requires proper { IsProper bounds.old.system bounds.old.truths bounds.old.base }
    requires naming { IsNaming bounds.old.system naming.now }
    requires number { number < length bounds.old.system.relations }
    ensures forced { IfOk result (λ _. IsForced bounds.old bounds.new) }
    ensures hold { IfOk result (λ holds. IsTrue holds → (r : AnyRelation)
        → slice_get bounds.old.system.relations number ≡ Some r → can_hold bounds.old r ≡ true) }
    ensures none { IfOk result (λ holds. holds ≡ false → NoneWithin bounds.new) }
{
    let least = bounds.least_of(number);
    let greatest = bounds.greatest_of(number);
    if least > 0 {
        return Ok(false);
    }
    if greatest < 0 {
        return Ok(false);
    }
    if has_room(least, greatest, bounds.base()) {
        return Ok(true);
    }
    let relations = bounds.relations();
    force_cells(bounds, naming, number, &relations[number as usize])?;
    Ok(true)
}

// Whether each cell that is left can go either way, as far as these extremes of a form say, or none is left.
fn has_room(least: i128, greatest: i128, base: i128) -> bool
    requires least { (neg_ℤ (pos (2 ^ 120)) ≤ℤ least) × (least ≤ℤ pos (2 ^ 120)) }
    requires greatest { (neg_ℤ (pos (2 ^ 120)) ≤ℤ greatest) × (greatest ≤ℤ pos (2 ^ 120)) }
    requires base { (pos 1 ≤ℤ base) × (base ≤ℤ pos (10 ^ 22)) }
{
    least == greatest || least + base <= 0 && greatest - base >= 0
}

// Fixes each cell of a relation that is left one way.
fn force_cells(
    bounds: &mut Bounds<'_>,
    naming: &[Items<u32>],
    number: u32,
    relation: &Relation,
) -> Result<(), Memory>
    requires proper { IsProper bounds.old.system bounds.old.truths bounds.old.base }
    requires naming { IsNaming bounds.old.system naming.now }
    requires relation { slice_get bounds.old.system.relations number ≡ Some relation.now }
    ensures { OnOk result (IsForced bounds.old bounds.new) }
{
    force_total(bounds, naming, number, relation)?;
    'parts: for part in relation.parts.as_slice() {
        if *part == relation.total {
            continue;
        }
        force(bounds, naming, number, *part, false)?;
    }
    Ok(())
}

// Fixes the total of a relation, if it is no part too and is left one way.
fn force_total(
    bounds: &mut Bounds<'_>,
    naming: &[Items<u32>],
    number: u32,
    relation: &Relation,
) -> Result<(), Memory>
    requires proper { IsProper bounds.old.system bounds.old.truths bounds.old.base }
    requires naming { IsNaming bounds.old.system naming.now }
    requires relation { slice_get bounds.old.system.relations number ≡ Some relation.now }
    ensures { OnOk result (IsForced bounds.old bounds.new) }
{
    if times_in(relation.parts.as_slice(), relation.total) == 0 {
        force(bounds, naming, number, relation.total, true)
    } else {
        Ok(())
    }
}

// Fixes a cell that a relation leaves one way. Its form counts the cell above 0 times, or below.
fn force(
    bounds: &mut Bounds<'_>,
    naming: &[Items<u32>],
    number: u32,
    cell: u32,
    above: bool,
) -> Result<(), Memory>
    requires proper { IsProper bounds.old.system bounds.old.truths bounds.old.base }
    requires naming { IsNaming bounds.old.system naming.now }
    requires cell { cell < bounds.old.system.cells }
    requires number { number < length bounds.old.system.relations }
    requires counted { (r : AnyRelation) → slice_get bounds.old.system.relations number ≡ Some r
        → CountsCell above r cell }
    ensures { OnOk result (IsForced bounds.old bounds.new) }
{
    if !bounds.is_free(cell) {
        return Ok(());
    }
    let named = naming[cell as usize].as_slice();
    if bounds.least_of(number) + bounds.base() > 0 {
        bounds.fix(named, cell, !above)
    } else if bounds.greatest_of(number) - bounds.base() < 0 {
        bounds.fix(named, cell, above)
    } else {
        Ok(())
    }
}
