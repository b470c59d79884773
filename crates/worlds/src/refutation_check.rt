ghost use Rattle.std.specs.Prelude.{◌≡◌, ◌↔◌, ℕ, ◌<◌, ◌≤ℤ◌, ℤ, pos, length, replicate, All, Err, IsOk, IfOk, OnOk, IfErr, Ok};
ghost use Rattle.sdc_base.specs.Forms.{coefficient};
ghost use Rattle.sdc_base.specs.Patterns.{IsPattern};
ghost use Rattle.sdc_base.specs.Refutations.{refuting_terms};
ghost use Rattle.sdc_base.specs.Refutations as spec;
ghost use Rattle.sdc_base.specs.Systems.{NamesCells, number_at};
ghost use Rattle.sdc_base.specs.Worlds.{Protects, amount_toward};
ghost use Rattle.worlds.specs.BoundedNumbers.{numbers_with_terms};
ghost use Rattle.worlds.specs.RefutationFaults.{terms_added, sum_of_bounds, refutation_fault, IsGivenSum, IsGivenRefutation, IsWideWhereBounded};

use crate::adding::{add_at, add_forms};
use crate::faults::RefutationFault;
use crate::listed::misplaced_multiplier;
use crate::moves::clear;
use crate::multipliers::Multipliers;
use crate::pattern::Pattern;
use crate::shares::{held_product, level_of, sum_shares};
use sdc_base::{Cell, Hidden, Relation, Side, System};

/// The bound sum of multipliers for a cell and a side: how far, times their denominator, they let the cell move at
/// most.
///
/// The forms of relations, each as many times as its multiplier says, are added to the cell, as many times as the
/// denominator says, or below to as many times its opposite. A hidden cell adds to the sum its coefficient times how
/// far it can rise where the coefficient is above 0, and else times how far it can fall.
///
/// There are a cell, a flag and a number of the scratch for each cell of the system, and the cell that is asked about
/// is one of them; afterwards the scratch may hold any numbers. The fault is the first in this order: the denominator;
/// the first multiplier that isn't ascending, names no relation or is 0; the first cell whose coefficient leaves 128
/// bits as it grows, relation by relation and in each the total before its parts; cell by cell, that a coefficient
/// above 0 meets no upper bound, or that its share or the sum leaves 128 bits. It goes once through the parts of the
/// relations that have a multiplier and through all cells, and takes no memory.
///
/// Bound sums are those of linear duality.
pub fn bound_sum(
    system: &System,
    cells: &[Cell],
    hidden: &Hidden,
    cell: u32,
    side: Side,
    multipliers: &Multipliers,
    scratch: &mut [i128],
) -> Result<i128, RefutationFault>
    requires ground { IsPattern system.now cells.now hidden.now.flags }
    requires scratch { length scratch.old ≡ system.now.cells }
    requires asked { cell < system.now.cells }
    ensures exact { result ≡ sum_of_bounds system.now cells.now hidden.now.flags cell side multipliers.now }
    ensures given { IsOk result ↔ IsGivenSum system.now cells.now hidden.now.flags cell side multipliers.now }
    ensures sum { IfOk result (λ sum. sum
        ≡ spec.bound_sum cells.now hidden.now.flags (coefficient (terms_added system.now cell side multipliers.now))) }
    ensures wide { IfErr result (IsWideWhereBounded system.now cells.now hidden.now.flags cell side multipliers.now) }
    ensures length { length scratch.new ≡ length scratch.old }
{
    let pattern = Pattern {
        system,
        cells,
        hidden,
    };
    first_sum(&pattern, cell, side, multipliers, scratch)
}

/// Whether multipliers refute that a cell lies in some world for a hidden set as far as its level to a side.
///
/// The conditions and faults are those of [`bound_sum`], and behind them that the denominator times the level leaves
/// 128 bits, and that the sum isn't below it. Where the answer is good no world of any denominator takes the cell as
/// far as its level, and the scratch holds each cell's coefficient. It takes no memory.
///
/// Refutations are those of linear duality.
pub fn check_refutation(
    system: &System,
    cells: &[Cell],
    hidden: &Hidden,
    cell: u32,
    side: Side,
    multipliers: &Multipliers,
    scratch: &mut [i128],
) -> Result<(), RefutationFault>
    requires ground { IsPattern system.now cells.now hidden.now.flags }
    requires scratch { length scratch.old ≡ system.now.cells }
    requires asked { cell < system.now.cells }
    ensures exact { result ≡ refutation_fault system.now cells.now hidden.now.flags cell side multipliers.now }
    ensures refutation { IsOk result ↔ IsGivenRefutation system.now cells.now hidden.now.flags cell side multipliers.now }
    ensures unprotected { IsOk result → ¬ Protects system.now cells.now hidden.now.flags cell side }
    ensures length { length scratch.new ≡ length scratch.old }
    ensures coefficients { OnOk result ((number : ℕ)
        → number_at scratch.new number ≡ coefficient (terms_added system.now cell side multipliers.now) number) }
{
    let pattern = Pattern {
        system,
        cells,
        hidden,
    };
    first_refutation_fault(&pattern, cell, side, multipliers, scratch)
}

// The first fault of a refutation.
fn first_refutation_fault(
    pattern: &Pattern<'_>,
    cell: u32,
    side: Side,
    multipliers: &Multipliers,
    scratch: &mut [i128],
) -> Result<(), RefutationFault>
    requires scratch { length scratch.old ≡ pattern.now.system.now.cells }
    requires asked { cell < pattern.now.system.now.cells }
    ensures exact { result ≡ refutation_fault pattern.now.system.now pattern.now.cells.now pattern.now.hidden.now.flags
        cell side multipliers.now }
    ensures length { length scratch.new ≡ length scratch.old }
    ensures coefficients { OnOk result ((number : ℕ)
        → number_at scratch.new number ≡ coefficient (terms_added pattern.now.system.now cell side multipliers.now)
        number) }
{
    let sum = first_sum(pattern, cell, side, multipliers, scratch)?;
    let cells = pattern.cells;
    let level = level_of(&cells[cell as usize], side);
    let most = held_product(cell, multipliers.den, level)?;
    if sum < most {
        Ok(())
    } else {
        Err(RefutationFault::NotBelow)
    }
}

// The bound sum, or the first fault on the way to it.
fn first_sum(
    pattern: &Pattern<'_>,
    cell: u32,
    side: Side,
    multipliers: &Multipliers,
    scratch: &mut [i128],
) -> Result<i128, RefutationFault>
    requires scratch { length scratch.old ≡ pattern.now.system.now.cells }
    requires asked { cell < pattern.now.system.now.cells }
    ensures exact { result ≡ sum_of_bounds pattern.now.system.now pattern.now.cells.now pattern.now.hidden.now.flags
        cell side multipliers.now }
    ensures length { length scratch.new ≡ length scratch.old }
    ensures coefficients { OnOk result ((number : ℕ)
        → number_at scratch.new number ≡ coefficient (terms_added pattern.now.system.now cell side multipliers.now)
        number) }
{
    if multipliers.den < 1 {
        return Err(RefutationFault::Den);
    }
    let listed = multipliers.by_relation.as_slice();
    let relations = pattern.system.relations.as_slice();
    if let Some(place) = misplaced_multiplier(listed, relations.len() as u32) {
        return Err(RefutationFault::Order(place));
    }
    gather(relations, cell, side, multipliers.den, listed, scratch)?;
    sum_shares(pattern.cells, pattern.hidden.flags.as_slice(), scratch)
}

// The coefficients of all cells: the asked one so many times, and the weighted forms.
fn gather(
    relations: &[Relation],
    asked: u32,
    side: Side,
    den: i128,
    multipliers: &[(u32, i128)],
    numbers: &mut [i128],
) -> Result<(), RefutationFault>
    requires asked { asked < length numbers.old }
    requires cells { All (NamesCells (length numbers.old)) relations.now }
    requires relations { All (λ m. m.0 < length relations.now) multipliers.now }
    requires positive { pos 1 ≤ℤ den }
    ensures length { length numbers.new ≡ length numbers.old }
    ensures ok { OnOk result (numbers_with_terms (replicate (length numbers.old) (pos 0))
        (refuting_terms relations.now asked side den multipliers.now) ≡ Ok numbers.new) }
    ensures err { IfErr result (λ fault. numbers_with_terms (replicate (length numbers.old) (pos 0))
        (refuting_terms relations.now asked side den multipliers.now) ≡ Err fault) }
{
    clear(numbers);
    add_at(numbers, asked, toward_side(side, den))?;
    add_forms(numbers, relations, multipliers)
}

// An amount toward a side.
fn toward_side(side: Side, amount: i128) -> i128
    requires { pos 1 ≤ℤ amount }
    ensures { result ≡ amount_toward side amount }
{
    match side {
        Side::Above => amount,
        Side::Below => -amount,
    }
}
