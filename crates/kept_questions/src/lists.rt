ghost use Rattle.std.specs.Prelude.{◌≡◌, ◌≤◌, ℕ, [], false, length, map, ◌+ℤ◌, pos, neg_ℤ, IfOk, OnOk};
ghost use Rattle.sdc_base.specs.Forms.{coefficient, form_times};
ghost use Rattle.sdc_base.specs.Systems as spec;
ghost use Rattle.tableau.specs.Amounts.{value_of};
ghost use Rattle.interval_audit.specs.Groups.{group_of};
ghost use Rattle.kept_questions.specs.TermLists.{moves_in};
ghost use Rattle.kept_questions.specs.TermLists as term_lists;

use crate::terms::{gathered, push_times};
use crate::unfit::Unfit;
use interval_audit::is_in;
use sdc_base::{Items, Relation};
use std::alloc::Global;

// The list at a number; the empty one beyond the end.
pub(crate) fn list_at(lists: &[Items<(u32, i128)>], cell: u32) -> &[(u32, i128)]
    ensures { result.now ≡ term_lists.list_at lists.now cell }
{
    match lists.get(cell as usize) {
        Some(list) => list.as_slice(),
        None => &[],
    }
}

// The number at a place; 0 beyond the end.
pub(crate) fn number_at(numbers: &[i128], place: u32) -> i128
    ensures { result ≡ spec.number_at numbers.now place }
{
    match numbers.get(place as usize) {
        Some(number) => *number,
        None => 0,
    }
}

// The list of a relation's form, where those of the cells' moves are these.
pub(crate) fn form_list(
    alloc: Global,
    lists: &[Items<(u32, i128)>],
    relation: &Relation,
) -> Result<Vec<(u32, i128)>, Unfit>
    ensures { IfOk result (λ made. (place : ℕ) → coefficient made.items place
        ≡ value_of (λ cell. moves_in lists.now cell place) (form_times (pos 1) relation.now)) }
{
    let mut terms = Vec::new(alloc);
    let total = list_at(lists, relation.total);
    push_times(&mut terms, total, 1)?;
    let parts = relation.parts.as_slice();
    push_parts(&mut terms, lists, parts)?;
    let made = gathered(alloc, terms)?;
    Ok(made)
}

// Puts the lists of parts behind terms, each turned round.
fn push_parts(
    terms: &mut Vec<(u32, i128)>,
    lists: &[Items<(u32, i128)>],
    parts: &[u32],
) -> Result<(), Unfit>
    ensures { OnOk result ((place : ℕ) → coefficient terms.new.items place ≡ coefficient terms.old.items place
        +ℤ value_of (λ cell. moves_in lists.now cell place) (map (λ part. (part, neg_ℤ (pos 1))) parts.now)) }
{
    'parts: for part in parts {
        let list = list_at(lists, *part);
        push_times(terms, list, -1)?;
    }
    Ok(())
}

// That the cells outside of the asked cell's component have no list.
pub(crate) fn check_outside(
    lists: &[Items<(u32, i128)>],
    of: &[Option<u32>],
    asked: u32,
    cells: u32,
) -> Result<(), Unfit>
    requires few { length lists.now ≤ cells }
    ensures { OnOk result ((cell : ℕ) → group_of of.now asked cell ≡ false
        → term_lists.list_at lists.now cell ≡ []) }
{
    'cells: for cell in 0..cells {
        let list = list_at(lists, cell);
        if !list.is_empty() && !is_in(of, asked, cell) {
            return Err(Unfit);
        }
    }
    Ok(())
}
