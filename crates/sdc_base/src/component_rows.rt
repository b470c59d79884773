ghost use Rattle.std.specs.Prelude.{◌≡◌, ◌<◌, [], ℕ, Bool, List, true, false, length, replicate, IfOk, IfSome, OnOk, None, Some};
ghost use Rattle.sdc_base.specs.Components.{AreComponents};
ghost use Rattle.sdc_base.specs.ComponentRows.{lists_in, put_in, stands_in};
ghost use Rattle.sdc_base.specs.ComponentRows as spec;

use crate::connected::{Grouping, component_at};
use crate::memory::Memory;
use crate::relation::Relation;
use crate::system::System;
use std::alloc::Global;

/// The relations of each component of a hidden set: for each component, by its number from 0, the numbers of the
/// relations in which one of its cells stands, as their total or as one of their parts, ascending. Whoever works
/// component by component, as a question does, then reads its own relations alone.
///
/// `components` are those of `system` and some hidden set, as `components` gives them: hidden cells that stand in one
/// relation are in one component, so that a relation is in at most one list. The rule is our own.
///
/// It takes one walk over all relations and their parts, and one step for each component; its one refusal is want of
/// memory.
pub fn rows_of(
    alloc: Global,
    system: &System,
    components: &Grouping,
) -> Result<Vec<Vec<u32>>, Memory>
    requires components { (flags : List Bool) × (length flags ≡ system.now.cells)
        × AreComponents system.now.relations flags components.now.of components.now.sizes }
    ensures { IfOk result (λ lists. lists_in lists.items
        ≡ spec.rows_of system.now.relations components.now.of (length components.now.sizes)) }
{
    let relations = system.relations.as_slice();
    let of = components.of.as_slice();
    let mut lists = empty_lists(alloc, components.sizes.as_slice().len())?;
    'relations: for number in 0..relations.len() as u32 {
        let met = component_of(of, &relations[number as usize]);
        put(&mut lists, met, number)?;
    }
    Ok(lists)
}

// So many empty lists.
fn empty_lists(alloc: Global, count: usize) -> Result<Vec<Vec<u32>>, Memory>
    ensures { IfOk result (λ lists. lists_in lists.items ≡ replicate count []) }
{
    let mut lists = Vec::new(alloc);
    'lists: for _list in 0..count {
        lists.push(Vec::new(alloc))?;
    }
    Ok(lists)
}

// The component whose cells stand in a relation: that of its total, or else of its first part that has one.
fn component_of(of: &[Option<u32>], relation: &Relation) -> Option<u32>
    ensures stands_in { IfSome result (λ number. stands_in of.now number relation.now ≡ true) }
    ensures none { result ≡ None → (number : ℕ) → stands_in of.now number relation.now ≡ false }
{
    let total = component_at(of, relation.total);
    if total.is_some() {
        return total;
    }
    'parts: for part in relation.parts.as_slice() {
        let number = component_at(of, *part);
        if number.is_some() {
            return number;
        }
    }
    None
}

// Puts a relation's number at the end of the list of its component, where it has one.
fn put(lists: &mut Vec<Vec<u32>>, component: Option<u32>, number: u32) -> Result<(), Memory>
    requires within { IfSome component (λ at. at < length lists.old.items) }
    ensures { OnOk result (lists_in lists.new.items ≡ put_in component number (lists_in lists.old.items)) }
{
    let Some(at) = component else {
        return Ok(());
    };
    push_at(lists, at, number)
}

// Puts a relation's number at the end of the list of a component.
fn push_at(lists: &mut Vec<Vec<u32>>, at: u32, number: u32) -> Result<(), Memory>
    requires within { at < length lists.old.items }
    ensures { OnOk result (lists_in lists.new.items ≡ put_in (Some at) number (lists_in lists.old.items)) }
{
    lists[at as usize].push(number)?;
    Ok(())
}
