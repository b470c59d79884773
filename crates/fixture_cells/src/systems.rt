ghost use Rattle.std.specs.Prelude.{◌≡◌, true};
ghost use Rattle.sdc_base.specs.Systems.{NamesCells};

use sdc_base::{Hidden, Items, Relation, System};
use std::alloc::{AllocError, Global};

/// The system of so many cells in which the first cell of each relation is the sum of the others; none where a relation
/// names another cell, or where it has more than five thousand cells, relations or parts.
pub fn system_of(
    alloc: Global,
    cells: usize,
    relations: &[(u32, &[u32])],
) -> Result<Option<System>, AllocError> {
    if cells > 5000 {
        return Ok(None);
    }
    let mut related = Vec::new(alloc);
    for (total, parts) in relations {
        let parts = Items::new(parts.to_vec(alloc)?);
        if parts.as_slice().len() > 5000 {
            return Ok(None);
        }
        related.push(Relation {
            total: *total,
            parts,
        })?;
    }
    let cells = cells as u32;
    if related.len() > 5000 || !related.iter().all(|relation| is_named(relation, cells)) {
        return Ok(None);
    }
    Ok(Some(System {
        cells,
        relations: Items::new(related),
    }))
}

// Whether a relation names cells below a number.
fn is_named(relation: &Relation, cells: u32) -> bool
    ensures { result ≡ true → NamesCells cells relation.now }
{
    if relation.total >= cells || relation.parts.as_slice().len() > 5000 {
        return false;
    }
    relation.parts.as_slice().iter().all(|part| *part < cells)
}

/// Which of so many cells are hidden.
pub fn hidden_of(alloc: Global, count: usize, cells: &[u32]) -> Result<Hidden, AllocError> {
    let mut flags = vec![in alloc; false; count]?;
    for cell in cells {
        if (*cell as usize) < flags.len() {
            flags[*cell as usize] = true;
        }
    }
    Ok(Hidden {
        flags: Items::new(flags),
    })
}
