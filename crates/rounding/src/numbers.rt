ghost use Rattle.std.specs.Prelude.{◌≡◌, ◌<◌, ◌≤◌, ◌^◌, ◌≤ℤ◌, ◌-ℤ◌, ◌+ℤ◌, neg_ℤ, pos, ℕ, ℤ, List, [], All, IsTrue, ◌↔◌, if◌then◌else◌, int_lt, length, slice_get, slice_set, Some, IfOk};
ghost use Rattle.sdc_base.specs.declared.relation.Relation.{Relation as AnyRelation};
ghost use Rattle.sdc_base.specs.Systems.{NamesCells, HoldOn, form, number_at};
ghost use Rattle.rounding.specs.Neighbours.{neighbour};
ghost use Rattle.rounding.specs.Neighbours as neighbours_specs;
ghost use Rattle.rounding.specs.Choices.{unrounded_cells, by_choices};
ghost use Rattle.sdc_base.specs.Forms as forms_specs;
ghost use Rattle.rounding.specs.Extremes.{change, extreme_numbers, extreme_of_form};
ghost use Rattle.sdc_base.specs.Truths.{IsTruth};
ghost use Rattle.rounding.specs.Sums.{IsNear, AreExtremes, AreSmall};
ghost use Rattle.rounding.specs.Namings.{IsNamingOf};
ghost use Rattle.rounding.specs.Fixes.{IsSettable};

use crate::forms::count_of;
use crate::neighbours::{down, is_multiple};
use sdc_base::{Memory, Relation};
use std::alloc::Global;

// The cells whose truths aren't multiples of the base, ascending.
pub(crate) fn cells_to_round(
    alloc: Global,
    cells: u32,
    truths: &[i128],
    base: i128,
) -> Result<Vec<u32>, Memory>
    requires base { pos 1 ≤ℤ base }
    requires truths { All IsTruth truths.now }
    requires each { length truths.now ≡ cells }
    ensures { IfOk result (λ found. found.items ≡ unrounded_cells base 0 truths.now) }
{
    let mut found = Vec::new(alloc);
    'cells: for cell in 0..cells {
        if is_multiple(base, truths[cell as usize]) {
            continue;
        }
        found.push(cell)?;
    }
    Ok(found)
}

// A number for each cell: a truth that is a multiple as it is, any other to one side.
pub(crate) fn numbers_to(
    alloc: Global,
    truths: &[i128],
    base: i128,
    side: bool,
) -> Result<Vec<i128>, Memory>
    requires base { pos 1 ≤ℤ base }
    requires most { base ≤ℤ pos (10 ^ 22) }
    requires truths { All IsTruth truths.now }
    ensures { IfOk result (λ numbers. numbers.items ≡ by_choices side base truths.now []) }
{
    let mut numbers = Vec::new(alloc);
    'truths: for truth in truths {
        numbers.push(number_to(base, *truth, side))?;
    }
    Ok(numbers)
}

// A truth that is a multiple as it is, any other to one side.
fn number_to(base: i128, truth: i128, side: bool) -> i128
    requires base { pos 1 ≤ℤ base }
    requires most { base ≤ℤ pos (10 ^ 22) }
    requires truth { IsTruth truth }
    ensures { result ≡ (if neighbours_specs.is_multiple base truth then truth else neighbour base truth side) }
{
    if is_multiple(base, truth) {
        truth
    } else if side {
        down(base, truth) + base
    } else {
        down(base, truth)
    }
}

// The forms that name a cell, by the numbers of their relations.
#[derive(Drop)]
pub(crate) struct CellForms<'a> {
    pub(crate) relations: &'a [Relation],
    pub(crate) named: &'a [u32],
    pub(crate) cell: u32,
}

// Sets the number of a cell to another near it, and the extremes of the forms that name it with it: the first ones take
// these numbers for the cells that a form counts above 0 times, the second ones for the others.
pub(crate) fn set_number(
    forms: &CellForms,
    numbers: &mut Vec<i128>,
    to: i128,
    first: &mut Vec<i128>,
    second: &mut Vec<i128>,
)
    requires { IsSettable forms.now.relations.now forms.now.named.now numbers.old.items forms.now.cell to first.old.items
        second.old.items }
    ensures numbers { numbers.new.items ≡ slice_set numbers.old.items forms.now.cell to }
    ensures first { (other : List ℤ) → AreExtremes numbers.old.items other forms.now.relations.now first.old.items
        → AreExtremes numbers.new.items other forms.now.relations.now first.new.items }
    ensures second { (other : List ℤ) → AreExtremes other numbers.old.items forms.now.relations.now second.old.items
        → AreExtremes other numbers.new.items forms.now.relations.now second.new.items }
{
    let cell = forms.cell as usize;
    let by = to - numbers[cell];
    numbers[cell] = to;
    move_sums(forms, first, by, 0);
    move_sums(forms, second, 0, by);
}

// Moves the extremes of the forms that name a cell as its numbers move: by the first amount where a form counts it
// above 0 times, else by the other one.
fn move_sums(forms: &CellForms, sums: &mut Vec<i128>, one: i128, other: i128)
    requires named { IsNamingOf forms.now.relations.now forms.now.cell forms.now.named.now }
    requires each { length sums.old.items ≡ length forms.now.relations.now }
    requires small { AreSmall sums.old.items }
    requires one { (neg_ℤ (pos (2 ^ 74)) ≤ℤ one) × (one ≤ℤ pos (2 ^ 74)) }
    requires other { (neg_ℤ (pos (2 ^ 74)) ≤ℤ other) × (other ≤ℤ pos (2 ^ 74)) }
    ensures each { length sums.new.items ≡ length sums.old.items }
    ensures moved { (number : ℕ) (r : AnyRelation) → slice_get forms.now.relations.now number ≡ Some r
        → number_at sums.new.items number ≡ number_at sums.old.items number +ℤ change r forms.now.cell one other }
{
    let relations = forms.relations;
    'named: for number in forms.named {
        sums[*number as usize] += sum_change(&relations[*number as usize], forms.cell, one, other);
    }
}

// By how much the extreme of one form moves.
fn sum_change(relation: &Relation, cell: u32, one: i128, other: i128) -> i128
    requires one { (neg_ℤ (pos (2 ^ 74)) ≤ℤ one) × (one ≤ℤ pos (2 ^ 74)) }
    requires other { (neg_ℤ (pos (2 ^ 74)) ≤ℤ other) × (other ≤ℤ pos (2 ^ 74)) }
    ensures value { result ≡ change relation.now cell one other }
    ensures low { neg_ℤ (pos (2 ^ 110)) ≤ℤ result }
    ensures high { result ≤ℤ pos (2 ^ 110) }
{
    let times = count_of(relation, cell);
    let by = number_by_count(times, one, other);
    times * by
}

// The extremes of the forms between one list of numbers and another.
pub(crate) fn extremes_of(
    alloc: Global,
    relations: &[Relation],
    truths: &[i128],
    one: &[i128],
    other: &[i128],
) -> Result<Vec<i128>, Memory>
    requires named { All (NamesCells (length truths.now)) relations.now }
    requires lengths { (length one.now ≡ length truths.now) × (length other.now ≡ length truths.now) }
    requires near_one { (c : ℕ) → IsNear (10 ^ 22) (number_at one.now c) (number_at truths.now c) }
    requires near_other { (c : ℕ) → IsNear (10 ^ 22) (number_at other.now c) (number_at truths.now c) }
    requires hold { HoldOn (number_at truths.now) relations.now }
    ensures { IfOk result (λ sums. AreExtremes one.now other.now relations.now sums.items) }
{
    let mut sums = Vec::new(alloc);
    'relations: for relation in relations {
        sums.push(extreme_of(relation, truths, one, other))?;
    }
    Ok(sums)
}

// The extreme of one form. The relation holds on the truths, so this is what the form takes on how far the numbers are
// from them, and these sums stay within 128 bits.
fn extreme_of(relation: &Relation, truths: &[i128], one: &[i128], other: &[i128]) -> i128
    requires named { NamesCells (length truths.now) relation.now }
    requires lengths { (length one.now ≡ length truths.now) × (length other.now ≡ length truths.now) }
    requires near_one { (c : ℕ) → IsNear (10 ^ 22) (number_at one.now c) (number_at truths.now c) }
    requires near_other { (c : ℕ) → IsNear (10 ^ 22) (number_at other.now c) (number_at truths.now c) }
    requires holds { form (number_at truths.now) relation.now ≡ pos 0 }
    ensures { result ≡ extreme_of_form (number_at one.now) (number_at other.now) relation.now }
{
    let mut sum = distance(relation, relation.total, truths, one, other);
    'parts: for part in relation.parts.as_slice() {
        sum -= distance(relation, *part, truths, one, other);
    }
    sum
}

// How far the number that an extreme takes for a cell is from its truth.
fn distance(relation: &Relation, cell: u32, truths: &[i128], one: &[i128], other: &[i128]) -> i128
    requires cell { cell < length truths.now }
    requires lengths { (length one.now ≡ length truths.now) × (length other.now ≡ length truths.now) }
    requires near_one { IsNear (10 ^ 22) (number_at one.now cell) (number_at truths.now cell) }
    requires near_other { IsNear (10 ^ 22) (number_at other.now cell) (number_at truths.now cell) }
    ensures value { result ≡ extreme_numbers relation.now (number_at one.now) (number_at other.now) cell -ℤ number_at
        truths.now cell }
    ensures low { neg_ℤ (pos (10 ^ 22)) ≤ℤ result }
    ensures high { result ≤ℤ pos (10 ^ 22) }
{
    let times = count_of(relation, cell);
    let number = number_by_count(times, one[cell as usize], other[cell as usize]);
    number - truths[cell as usize]
}

// The first number where there are more than 0 times, else the other.
fn number_by_count(times: i128, one: i128, other: i128) -> i128
    ensures { result ≡ (if int_lt (pos 0) times then one else other) }
{
    if times > 0 { one } else { other }
}
