ghost use Rattle.std.specs.Prelude.{◌<◌, ◌+◌, ℕ, length, IfOk, OnOk, slice_set, slice_index_or, []};
ghost use Rattle.rounding.specs.Namings.{IsNaming, AreNoted, IsNotedMore, IsNotedWhole, IsNotIn, Ascends};
ghost use Rattle.sdc_base.specs.Systems.{NamesCells};

use sdc_base::{Items, Memory, Relation, System};
use signed_network::empty_lists;
use std::alloc::Global;

// For each cell the numbers of the relations that name it, ascending.
pub(crate) fn naming_of(alloc: Global, system: &System) -> Result<Vec<Items<u32>>, Memory>
    ensures { IfOk result (λ naming. IsNaming system.now naming.items) }
{
    let mut naming = empty_lists(alloc, system.cells)?;
    let relations = system.relations.as_slice();
    'relations: for (number, relation) in relations.iter().enumerate() {
        note_cells(&mut naming, number as u32, relation)?;
    }
    Ok(naming)
}

// Notes a relation's number at each cell that it names, behind the numbers of earlier relations.
fn note_cells(naming: &mut Vec<Items<u32>>, number: u32, relation: &Relation) -> Result<(), Memory>
    requires named { NamesCells (length naming.old.items) relation.now }
    requires noted { AreNoted (number + 1) naming.old.items }
    ensures more { OnOk result (IsNotedMore number naming.old.items naming.new.items) }
    ensures all_cells_noted { OnOk result (IsNotedWhole number relation.now naming.new.items) }
{
    note(naming, relation.total, number)?;
    'parts: for part in relation.parts.as_slice() {
        note(naming, *part, number)?;
    }
    Ok(())
}

// Notes a number at a cell, if it isn't the last there already.
fn note(naming: &mut Vec<Items<u32>>, cell: u32, number: u32) -> Result<(), Memory>
    requires cell { cell < length naming.old.items }
    requires noted { AreNoted (number + 1) naming.old.items }
    ensures more { OnOk result (IsNotedMore number naming.old.items naming.new.items) }
    ensures here { OnOk result (IsNotIn (slice_index_or naming.new.items cell []) number → ⊥) }
{
    add_number(&mut naming[cell as usize], number)?;
    Ok(())
}

// Puts a number at the end of a list, if it isn't the last already.
fn add_number(numbers: &mut Items<u32>, number: u32) -> Result<(), Memory>
    requires { Ascends (number + 1) numbers.old }
    ensures ascends { OnOk result (Ascends (number + 1) numbers.new) }
    ensures stays { OnOk result ((other : ℕ) → IsNotIn numbers.new other → IsNotIn numbers.old other) }
    ensures here { OnOk result (IsNotIn numbers.new number → ⊥) }
{
    let count = numbers.as_slice().len();
    if count > 0 && numbers.as_slice()[count - 1] == number {
        return Ok(());
    }
    numbers.push(number)
}
