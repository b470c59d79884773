ghost use Rattle.std.specs.Prelude.{◌≡◌, ◌<◌, ◌^◌, ◌++◌, ◌∷◌, [], ℕ, List, length, if◌then◌else◌, IfOk, IfSome, OnOk};
ghost use Rattle.sdc_base.specs.declared.relation.Relation.{Relation as AnyRelation};
ghost use Rattle.sdc_base.specs.Components.{component};
ghost use Rattle.sdc_base.specs.ComponentRows.{lists_in};
ghost use Rattle.sdc_base.specs.ComponentRows as spec;
ghost use Rattle.interval_audit.specs.Groups.{group_of, members};
ghost use Rattle.interval_audit.specs.Labels.{is_met, met_relations};

use sdc_base::{Memory, Relation};
use std::alloc::Global;

/// The cells of the asked cell's component, ascending.
///
/// `of` has the number of each cell's component, none for a shown one, as [`sdc_base::components`] gives it, and there
/// are so many cells. It goes once through the cells; its one refusal is want of memory. Components are argus's own.
pub fn members_of(
    alloc: Global,
    of: &[Option<u32>],
    asked: u32,
    cells: u32,
) -> Result<Vec<u32>, Memory>
    ensures { IfOk result (λ list. list.items ≡ members (group_of of.now asked) cells) }
{
    let mut list = Vec::new(alloc);
    'cells: for cell in 0..cells {
        let wanted = is_in(of, asked, cell);
        push_if(&mut list, cell, wanted)?;
    }
    Ok(list)
}

/// The relations in which a cell of the asked cell's component stands, ascending.
///
/// `of` is as for [`members_of`]. It goes once through the relations and their parts; its one refusal is want of memory.
/// Components are argus's own.
pub fn met_by(
    alloc: Global,
    relations: &[Relation],
    of: &[Option<u32>],
    asked: u32,
) -> Result<Vec<u32>, Memory>
    requires fewer_than_2_32 { length relations.now < 2 ^ 32 }
    ensures { IfOk result (λ list. list.items ≡ met_relations (group_of of.now asked) relations.now) }
{
    let mut list = Vec::new(alloc);
    'relations: for number in 0..relations.len() as u32 {
        let wanted = meets(of, asked, &relations[number as usize]);
        push_if(&mut list, number, wanted)?;
    }
    Ok(list)
}

// Of lists with the relations of each component, that of the asked cell's component; none where it is shown.
pub(crate) fn list_of<'a>(lists: &'a [Vec<u32>], of: &[Option<u32>], asked: u32) -> &'a [u32]
    requires known { IfSome (component of.now asked) (λ number. number < length lists.now) }
    ensures { (relations : List AnyRelation) (components : ℕ)
        → lists_in lists.now ≡ spec.rows_of relations of.now components
        → result.now ≡ met_relations (group_of of.now asked) relations }
{
    let Some(number) = component_at(of, asked) else {
        return &[];
    };
    lists[number as usize].as_slice()
}

// Puts a number at the end of a list, where it is wanted.
fn push_if(list: &mut Vec<u32>, number: u32, wanted: bool) -> Result<(), Memory>
    ensures { OnOk result (list.new.items ≡ list.old.items ++ (if wanted then number ∷ [] else [])) }
{
    if wanted {
        list.push(number)?;
    }
    Ok(())
}

// Whether a cell of the asked cell's component stands in a relation.
fn meets(of: &[Option<u32>], asked: u32, relation: &Relation) -> bool
    ensures { result ≡ is_met (group_of of.now asked) relation.now }
{
    if is_in(of, asked, relation.total) {
        return true;
    }
    'parts: for part in relation.parts.as_slice() {
        if is_in(of, asked, *part) {
            return true;
        }
    }
    false
}

/// Whether a cell is in the asked cell's component.
///
/// `of` is as for [`members_of`]. It takes two looks. Components are argus's own.
pub fn is_in(of: &[Option<u32>], asked: u32, cell: u32) -> bool
    ensures { result ≡ group_of of.now asked cell }
{
    let Some(number) = component_at(of, asked) else {
        return false;
    };
    let Some(other) = component_at(of, cell) else {
        return false;
    };
    other == number
}

// The number of a cell's component, none where it is shown.
fn component_at(of: &[Option<u32>], cell: u32) -> Option<u32>
    ensures { result ≡ component of.now cell }
{
    match of.get(cell as usize) {
        Some(number) => *number,
        None => None,
    }
}
