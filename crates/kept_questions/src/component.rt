ghost use Rattle.std.specs.Prelude.{◌≡◌, ◌≤◌, true, length, IfOk};
ghost use Rattle.sdc_base.specs.HiddenSets.{is_hidden};
ghost use Rattle.interval_audit.specs.Groups.{IsComponentOf, group_of, members, most_members};
ghost use Rattle.interval_audit.specs.Labels.{met_relations};

use crate::unfit::Unfit;
use interval_audit::{members_of, met_by};
use sdc_base::{Items, components};
use std::alloc::Global;
use worlds::Pattern;

// The most hidden cells that a question is about.
const MOST_MEMBERS: usize = 4000;

// The component of an asked cell: the number of each cell's component, its cells, and the relations in which one of
// these stands, both ascending.
#[derive(Drop)]
pub(crate) struct Component {
    pub(crate) of: Items<Option<u32>>,
    pub(crate) members: Vec<u32>,
    pub(crate) met: Vec<u32>,
}

// That of a hidden cell, if it has at most 4,000 cells.
pub(crate) fn component_of(
    alloc: Global,
    pattern: &Pattern<'_>,
    asked: u32,
) -> Result<Component, Unfit>
    requires hidden { is_hidden pattern.now.hidden.now.flags asked ≡ true }
    ensures own { IfOk result (λ found. IsComponentOf pattern.now.system.now.relations pattern.now.hidden.now.flags
        asked (group_of found.of asked)) }
    ensures members { IfOk result (λ found. found.members.items
        ≡ members (group_of found.of asked) pattern.now.system.now.cells) }
    ensures met { IfOk result (λ found. found.met.items
        ≡ met_relations (group_of found.of asked) pattern.now.system.now.relations) }
    ensures few { IfOk result (λ found. length found.members.items ≤ most_members) }
{
    let system = pattern.system;
    let grouping = components(alloc, system, pattern.hidden)?;
    let of = grouping.of.as_slice();
    let members = members_of(alloc, of, asked, system.cells)?;
    if members.len() > MOST_MEMBERS {
        return Err(Unfit);
    }
    let met = met_by(alloc, system.relations.as_slice(), of, asked)?;
    Ok(Component {
        of: grouping.of,
        members,
        met,
    })
}
