ghost use Rattle.std.specs.Prelude.{◌≡◌, ◌≤ℤ◌, ◌+ℤ◌, ◌-ℤ◌, ◌<◌, ◌^◌, true, pos, int_lt, length, All, IfOk};
ghost use Rattle.std.specs.Int.RustNames.{int_rem};
ghost use Rattle.std.specs.Ordering.{int_eq};
ghost use Rattle.sdc_base.specs.Answers.{Gives};
ghost use Rattle.sdc_base.specs.Steps.{map_fault};
ghost use Rattle.sdc_base.specs.Systems.{NamesCells, form, number_at};
ghost use Rattle.release_writer.specs.ReleaseReading.{rounded_read};
ghost use Rattle.cert_check.specs.Cases.{IsCase};
ghost use Rattle.cert_check.specs.FirstFault.{check_fault_of};
ghost use Rattle.cert_check.specs.Methods.{rounds_cells};
ghost use Rattle.cert_check.specs.RoundedRelease as spec;

use crate::case::Case;
use crate::faults::CheckFault;
use release_writer::rounded_of;
use sdc_base::{Cell, Items, Relation, System, Text};
use std::alloc::Global;

/// Refuses tables that aren't the texts of numbers, and numbers that aren't a rounding of the truths.
pub(crate) fn check_rounded(
    alloc: Global,
    case: &Case<'_>,
    release: &[Text],
) -> Result<(), CheckFault>
    requires case { IsCase case.now release.now }
    requires rounds { rounds_cells case.now.method ≡ true }
    ensures { Gives check_fault_of (λ u. u) result (spec.rounded_fault case.now release.now) }
{
    let values = read_values(alloc, case, release)?;
    check_values(case.system, case.cells, case.base, values.as_slice())
}

// The numbers that the tables show.
fn read_values(alloc: Global, case: &Case<'_>, release: &[Text]) -> Result<Items<i128>, CheckFault>
    requires case { IsCase case.now release.now }
    ensures exact { Gives check_fault_of (λ values. values) result
        (map_fault spec.at_line (rounded_read case.now.book.now case.now.names.now case.now.decimals release.now)) }
    ensures each { IfOk result (λ values. length values ≡ length case.now.cells.now) }
    ensures from_zero { IfOk result (λ values. All (λ value. pos 0 ≤ℤ value) values) }
{
    // for the proof: read, so that what holds of every book is known.
    let _cells = case.book.cells();
    let values = rounded_of(alloc, case.book, case.names, case.decimals, release)?;
    Ok(values)
}

// Refuses values that aren't a rounding of the truths.
fn check_values(
    system: &System,
    cells: &[Cell],
    base: i128,
    values: &[i128],
) -> Result<(), CheckFault>
    requires each_cell { length cells.now ≡ system.now.cells }
    requires each { length values.now ≡ length cells.now }
    requires base { pos 1 ≤ℤ base }
    requires from_zero { All (λ value. pos 0 ≤ℤ value) values.now }
    ensures { result ≡ spec.values_fault system.now cells.now base values.now }
{
    if let Some(number) = first_unrounded(cells, base, values) {
        return Err(CheckFault::Rounded(number));
    }
    if let Some(number) = first_broken(system.relations.as_slice(), values) {
        return Err(CheckFault::Relation(number));
    }
    Ok(())
}

// The first cell whose value isn't an adjacent multiple of the base.
fn first_unrounded(cells: &[Cell], base: i128, values: &[i128]) -> Option<u32>
    requires each { length values.now ≡ length cells.now }
    requires fewer_than_2_32 { length cells.now < 2 ^ 32 }
    requires base { pos 1 ≤ℤ base }
    requires from_zero { All (λ value. pos 0 ≤ℤ value) values.now }
    ensures { result ≡ spec.first_unrounded base (number_at values.now) 0 cells.now }
{
    for (number, cell) in cells.iter().enumerate() {
        if !is_adjacent(cell, base, values[number]) {
            return Some(number as u32);
        }
    }
    None
}

// Whether a value is a multiple of the base, less than one base from a cell's truth.
fn is_adjacent(cell: &Cell, base: i128, value: i128) -> bool
    requires base { pos 1 ≤ℤ base }
    requires from_zero { pos 0 ≤ℤ value }
    ensures { result ≡ spec.is_adjacent base cell.now.truth value }
{
    is_multiple(base, value)
        && is_above_lower(cell, base, value)
        && is_below_upper(cell, base, value)
}

// Whether a value is a multiple of the base.
fn is_multiple(base: i128, value: i128) -> bool
    requires base { pos 1 ≤ℤ base }
    ensures { result ≡ int_eq (int_rem value base) (pos 0) }
{
    value % base == 0
}

// Whether a value is less than one base below a cell's truth.
#[tactic(auto, using(crate::proofs::PartsTaken::above_lower))]
fn is_above_lower(cell: &Cell, base: i128, value: i128) -> bool
    requires from_zero { pos 0 ≤ℤ value }
    ensures { result ≡ int_lt (cell.now.truth -ℤ base) value }
{
    // for the proof: read, so that the truth is known to be from 0.
    let _low = cell.low;
    cell.truth - value < base
}

// Whether a value is less than one base above a cell's truth.
#[tactic(auto, using(crate::proofs::PartsTaken::below_upper))]
fn is_below_upper(cell: &Cell, base: i128, value: i128) -> bool
    requires from_zero { pos 0 ≤ℤ value }
    ensures { result ≡ int_lt value (cell.now.truth +ℤ base) }
{
    // for the proof: read, so that the truth is known to be from 0.
    let _low = cell.low;
    value - cell.truth < base
}

// The first relation that doesn't hold on the values.
fn first_broken(relations: &[Relation], values: &[i128]) -> Option<u32>
    requires named { All (NamesCells (length values.now)) relations.now }
    requires fewer_than_2_32 { length relations.now < 2 ^ 32 }
    requires from_zero { All (λ value. pos 0 ≤ℤ value) values.now }
    ensures { result ≡ spec.first_broken (number_at values.now) 0 relations.now }
{
    for (number, relation) in relations.iter().enumerate() {
        if !holds(relation, values) {
            return Some(number as u32);
        }
    }
    None
}

// Whether a relation holds on values from 0: taken off the total one after another, its parts leave nothing.
fn holds(relation: &Relation, values: &[i128]) -> bool
    requires named { NamesCells (length values.now) relation.now }
    requires from_zero { All (λ value. pos 0 ≤ℤ value) values.now }
    ensures { result ≡ int_eq (form (number_at values.now) relation.now) (pos 0) }
{
    let mut left = values[relation.total as usize];
    for part in relation.parts.as_slice() {
        let value = values[*part as usize];
        if value > left {
            return false;
        }
        left -= value;
    }
    left == 0
}
