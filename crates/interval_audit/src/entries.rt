ghost use Rattle.std.specs.Prelude.{◌≡◌, ◌≤◌, ◌<◌, ◌+◌, ◌^◌, ◌++◌, ◌∷◌, [], List, length, All, if◌then◌else◌, IfOk, OnOk, pos, ◌≤ℤ◌, neg_ℤ};
ghost use Rattle.std.specs.Ordering.{int_eq};
ghost use Rattle.sdc_base.specs.Forms.{Term};
ghost use Rattle.interval_audit.specs.CellNumbers.{AreZeros, AreCoefficients, AreWithin};
ghost use Rattle.interval_audit.specs.Columns as columns_specs;
ghost use Rattle.interval_audit.specs.FormSigns.{IsFormSign};
ghost use Rattle.interval_audit.specs.Groups.{OfMembers};

use crate::terms::{add_terms, take_terms};
use sdc_base::Memory;
use std::alloc::Global;

// Multiples of cells, each 1 or -1, at the columns of the cells of a group. The scratch has a 0 for each cell, and has
// it again afterwards.
pub(crate) fn entries_of(
    alloc: Global,
    members: &[u32],
    terms: &[(u32, i128)],
    scratch: &mut [i128],
) -> Result<Vec<(u32, i128)>, Memory>
    requires few_members { length members.now < 2 ^ 31 }
    requires known { All (λ cell. cell < length scratch.old) members.now }
    requires named { All (λ term. term.0 < length scratch.old) terms.now }
    requires signs { All (λ term. IsFormSign term.1) terms.now }
    requires at_most_2_32 { length terms.now ≤ 2 ^ 32 }
    requires zeros { AreZeros scratch.old }
    ensures length { length scratch.new ≡ length scratch.old }
    ensures zeros { OnOk result (AreZeros scratch.new) }
    ensures entries { OfMembers members.now (λ group n. IfOk result (λ entries. entries.items
        ≡ columns_specs.entries_of group n terms.now)) }
{
    add_terms(scratch, terms);
    let entries = entries_at(alloc, members, scratch)?;
    take_terms(scratch, terms);
    Ok(entries)
}

// The numbers of the cells of a group as multiples of their moves, at the group's columns.
fn entries_at(alloc: Global, members: &[u32], numbers: &[i128]) -> Result<Vec<(u32, i128)>, Memory>
    requires fewer_than_2_31 { length members.now < 2 ^ 31 }
    requires known { All (λ cell. cell < length numbers.now) members.now }
    requires within { AreWithin (pos (2 ^ 32)) numbers.now }
    ensures { OfMembers members.now (λ group n. (terms : List Term) → AreCoefficients numbers.now terms
        → IfOk result (λ entries. entries.items ≡ columns_specs.entries_of group n terms)) }
{
    let mut entries = Vec::new(alloc);
    'members: for (place, cell) in members.iter().enumerate() {
        let multiple = numbers[*cell as usize];
        push_entries(&mut entries, 2 * place as u32, multiple)?;
    }
    Ok(entries)
}

// Puts a multiple of a cell's move at the end of entries: so much of its up, and as much less of its down.
fn push_entries(entries: &mut Vec<(u32, i128)>, column: u32, multiple: i128) -> Result<(), Memory>
    requires column { column + 1 < 2 ^ 32 }
    requires low { neg_ℤ (pos (2 ^ 32)) ≤ℤ multiple }
    requires high { multiple ≤ℤ pos (2 ^ 32) }
    ensures { OnOk result (entries.new.items
        ≡ entries.old.items ++ (if int_eq multiple (pos 0) then []
        else (column, multiple) ∷ (column + 1, neg_ℤ multiple) ∷ [])) }
{
    if multiple == 0 {
        return Ok(());
    }
    let turned = -multiple;
    entries.push((column, multiple))?;
    entries.push((column + 1, turned))?;
    Ok(())
}
