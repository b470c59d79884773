ghost use Rattle.std.specs.Prelude.{◌≡◌, ◌<◌, ◌==◌, ◌&&◌, not, pos, length, replicate, slice_get, slice_set, IfOk, IfNone, IfSome, None, Some, true, false};
ghost use Rattle.sdc_base.specs.declared.ends.Ends.{Ends as AnyEnds};
ghost use Rattle.sdc_base.specs.declared.ends.Ends.TheVariants.{Free};
ghost use Rattle.sdc_base.specs.Ends.{AreEnds, IsCounting, ends_at};
ghost use Rattle.sdc_base.specs.Ends as spec;
ghost use Rattle.sdc_base.specs.Forms.{count_of};
ghost use Rattle.sdc_base.specs.Signs.{HasNone};

use crate::memory::Memory;
use crate::relation::Relation;
use crate::system::System;
use std::alloc::Global;

/// That a relation counts a cell: with plus as its total, with minus as a part.
#[derive(Clone, Copy)]
pub struct End {
    /// The number of the relation.
    pub relation: u32,
    /// Whether it counts the cell with plus.
    pub plus: bool,
}

/// Which relations count a cell.
#[derive(Clone, Copy)]
pub enum Ends {
    /// None does.
    Free,
    /// One does.
    One(End),
    /// Two different ones do.
    Two(End, End),
}

/// Which relations count each cell, and with which sign. None where one counts a cell twice or three count it: then the
/// relations have no signs.
///
/// Its one refusal is want of memory. It looks at each part of each relation once. That a cell is an arc between two
/// relations is the rule of network flows.
pub fn ends_of(alloc: Global, system: &System) -> Result<Option<Vec<Ends>>, Memory>
    ensures ends { IfOk result (λ found. IfSome found (λ ends. AreEnds system.now.relations ends.items)) }
    ensures none { IfOk result (λ found. IfNone found (HasNone system.now.relations)) }
{
    let mut ends = no_ends(alloc, system.cells)?;
    'relations: for (number, relation) in system.relations.as_slice().iter().enumerate() {
        if !add_relation(system, relation, number as u32, &mut ends) {
            return Ok(None);
        }
    }
    Ok(Some(ends))
}

// No relation counts any of so many cells.
fn no_ends(alloc: Global, cells: u32) -> Result<Vec<Ends>, Memory>
    ensures { IfOk result (λ ends. ends.items ≡ replicate cells Free) }
{
    let mut ends = Vec::new(alloc);
    'cells: for _ in 0..cells {
        ends.push(Ends::Free)?;
    }
    Ok(ends)
}

// Notes which cells a relation counts. No where it counts one twice, or one that two others count.
fn add_relation(system: &System, relation: &Relation, number: u32, ends: &mut Vec<Ends>) -> bool
    requires at { slice_get system.now.relations number ≡ Some relation.now }
    requires each { length ends.old.items ≡ system.now.cells }
    requires counting { IsCounting system.now.relations number (λ _. pos 0) ends.old.items }
    ensures each { length ends.new.items ≡ system.now.cells }
    ensures counting { result ≡ true → IsCounting system.now.relations number (count_of relation.now) ends.new.items }
    ensures none { result ≡ false → HasNone system.now.relations }
{
    let mut met = false;
    'parts: for part in relation.parts.as_slice() {
        if meets_total(met, *part, relation.total) {
            met = true;
            continue;
        }
        let end = End {
            relation: number,
            plus: false,
        };
        if !add_end(*part, end, ends) {
            return false;
        }
    }
    if met {
        return true;
    }
    let end = End {
        relation: number,
        plus: true,
    };
    add_end(relation.total, end, ends)
}

// Whether a part is the total, and the first such part.
fn meets_total(met: bool, part: u32, total: u32) -> bool
    ensures { result ≡ (not met && (part == total)) }
{
    !met && part == total
}

// Notes an end of a cell. No where its relation has an end there already, and where there are two.
fn add_end(cell: u32, end: End, ends: &mut Vec<Ends>) -> bool
    requires known { cell < length ends.old.items }
    ensures joined { result ≡ true → (new : AnyEnds) × (spec.with_end (ends_at ends.old.items cell) end ≡ Some new)
        × (ends.new.items ≡ slice_set ends.old.items cell new) }
    ensures none { result ≡ false → spec.with_end (ends_at ends.old.items cell) end ≡ None }
    ensures each { length ends.new.items ≡ length ends.old.items }
{
    let Some(new) = with_end(ends[cell as usize], end) else {
        return false;
    };
    ends[cell as usize] = new;
    true
}

// A cell's ends with an end more.
fn with_end(ends: Ends, end: End) -> Option<Ends>
    ensures { result ≡ spec.with_end ends end }
{
    match ends {
        Ends::Free => Some(Ends::One(end)),
        Ends::One(one) if one.relation == end.relation => None,
        Ends::One(one) => Some(Ends::Two(one, end)),
        Ends::Two(_, _) => None,
    }
}
