ghost use Rattle.std.specs.Prelude.{◌≡◌, ◌≤◌, ◌<◌, ◌+◌, ◌^◌, ◌++◌, ◌∷◌, [], ℕ, length, All, IfOk, OnOk, pos, negsuc};
ghost use Rattle.sdc_base.specs.Forms.{form_times};
ghost use Rattle.sdc_base.specs.Systems.{NamesCells};
ghost use Rattle.interval_audit.specs.CellNumbers.{AreZeros};
ghost use Rattle.interval_audit.specs.Groups.{Group};
ghost use Rattle.interval_audit.specs.Groups as groups;
ghost use Rattle.interval_audit.specs.Columns as columns;
ghost use Rattle.interval_audit.specs.FormSigns.{IsFormSign};
ghost use Rattle.interval_audit.specs.Problems.{row, cap_rows, form_rows};

use crate::entries::entries_of;
use crate::terms::form_terms;
use sdc_base::{Cell, Items, Memory, Relation};
use std::alloc::Global;
use tableau::LinRow;

// Puts the caps of a cell at the end of rows: above where it has an upper bound, and below.
pub(crate) fn push_caps(
    alloc: Global,
    rows: &mut Vec<LinRow>,
    column: u32,
    cell: &Cell,
) -> Result<(), Memory>
    requires { column + 1 < 2 ^ 32 }
    ensures { OnOk result (rows.new.items ≡ rows.old.items ++ cap_rows column (column + 1) cell.now) }
{
    let fall = cell.truth - cell.low;
    let Some(high) = cell.high else {
        return push_cap(alloc, rows, column + 1, fall);
    };
    let rise = high - cell.truth;
    push_cap(alloc, rows, column, rise)?;
    push_cap(alloc, rows, column + 1, fall)
}

// Puts a row at the end of rows that keeps a column at most at a bound.
fn push_cap(alloc: Global, rows: &mut Vec<LinRow>, column: u32, bound: i128) -> Result<(), Memory>
    ensures { OnOk result (rows.new.items ≡ rows.old.items ++ row ((column, pos 1) ∷ []) bound ∷ []) }
{
    let one = cap(alloc, column, bound)?;
    rows.push(one)?;
    Ok(())
}

// A row that keeps a column at most at a bound.
fn cap(alloc: Global, column: u32, bound: i128) -> Result<LinRow, Memory>
    ensures { IfOk result (λ one. one ≡ row ((column, pos 1) ∷ []) bound) }
{
    let mut entries = Vec::new(alloc);
    entries.push((column, 1))?;
    Ok(LinRow {
        entries: Items::new(entries),
        bound,
    })
}

// Puts the two rows of a relation at the end of rows: its form, and its negated form, at most 0.
pub(crate) fn push_forms(
    alloc: Global,
    rows: &mut Vec<LinRow>,
    members: &[u32],
    relation: &Relation,
    scratch: &mut [i128],
) -> Result<(), Memory>
    requires fewer_than_2_31 { length members.now < 2 ^ 31 }
    requires known { All (λ cell. cell < length scratch.old) members.now }
    requires named { NamesCells (length scratch.old) relation.now }
    requires zeros { AreZeros scratch.old }
    ensures length { length scratch.new ≡ length scratch.old }
    ensures zeros { OnOk result (AreZeros scratch.new) }
    ensures rows { (group : Group) (n : ℕ) → members.now ≡ groups.members group n
        → OnOk result (rows.new.items ≡ rows.old.items ++ form_rows group n relation.now) }
{
    let form = form_row(alloc, members, relation, 1, scratch)?;
    rows.push(form)?;
    let negated = form_row(alloc, members, relation, -1, scratch)?;
    rows.push(negated)?;
    Ok(())
}

// A row that keeps a relation's form, taken 1 or -1 times, at most at 0.
fn form_row(
    alloc: Global,
    members: &[u32],
    relation: &Relation,
    times: i128,
    scratch: &mut [i128],
) -> Result<LinRow, Memory>
    requires fewer_than_2_31 { length members.now < 2 ^ 31 }
    requires known { All (λ cell. cell < length scratch.old) members.now }
    requires named { NamesCells (length scratch.old) relation.now }
    requires one { IsFormSign times }
    requires zeros { AreZeros scratch.old }
    ensures length { length scratch.new ≡ length scratch.old }
    ensures zeros { OnOk result (AreZeros scratch.new) }
    ensures row { (group : Group) (n : ℕ) → members.now ≡ groups.members group n
        → IfOk result (λ one. one ≡ row (columns.entries_of group n (form_times times relation.now)) (pos 0)) }
{
    let terms = form_terms(alloc, relation, times)?;
    let entries = entries_of(alloc, members, terms.as_slice(), scratch)?;
    Ok(LinRow {
        entries: Items::new(entries),
        bound: 0,
    })
}
