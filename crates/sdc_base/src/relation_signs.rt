ghost use Rattle.std.specs.Prelude.{◌≡◌, IfOk, IfNone, IfSome, length, slice_get, true};
ghost use Rattle.std.specs.Option.{option_map_or};
ghost use Rattle.sdc_base.specs.Links.{AreLinks, Follow};
ghost use Rattle.sdc_base.specs.Links as spec;
ghost use Rattle.sdc_base.specs.Signs.{AreSigns, HasNone};

use crate::ends::ends_of;
use crate::links::{Link, links_of, sign_by_link};
use crate::memory::Memory;
use crate::system::System;
use std::alloc::Global;

/// Signs for a system's relations, true for plus: with each relation's form, total less parts, taken with its sign,
/// each cell stands with 1 in at most one form, with -1 in at most one, and with no other number but 0. So each cell is
/// an arc between at most two relations, and numbers on which the relations hold are a flow.
///
/// There is one sign for each relation, in the order of the relations. None says that there are no signs for them, as
/// where three relations count one cell. One variable and two flat ones have signs; three flat ones have none.
///
/// Its one refusal is want of memory. It looks at each part and at each cell once, with a walk along links of relations
/// for each cell that two relations count, which halves later walks from there. The rule is that of network flows, and
/// the way to find the signs our own.
pub fn signs(alloc: Global, system: &System) -> Result<Option<Vec<bool>>, Memory>
    ensures signs { IfOk result (λ found. IfSome found (λ signs. AreSigns system.now.relations signs.items)) }
    ensures none { IfOk result (λ found. IfNone found (HasNone system.now.relations)) }
{
    let Some(ends) = ends_of(alloc, system)? else {
        return Ok(None);
    };
    let Some(links) = links_of(alloc, system, ends.as_slice())? else {
        return Ok(None);
    };
    let signs = signs_along(alloc, links.as_slice())?;
    Ok(Some(signs))
}

// The signs that links give where each relation that is linked to itself has plus.
fn signs_along(alloc: Global, links: &[Link]) -> Result<Vec<bool>, Memory>
    requires links { AreLinks links.now }
    ensures each { IfOk result (λ signs. length signs.items ≡ length links.now) }
    ensures follow { IfOk result (λ signs. Follow signs.items links.now) }
{
    let mut signs = Vec::new(alloc);
    'links: for link in links {
        let sign = sign_by(*link, signs.as_slice());
        signs.push(sign)?;
    }
    Ok(signs)
}

// A relation's sign by its link and by the signs of those before; plus where it is linked to none of these.
fn sign_by(link: Link, signs: &[bool]) -> bool
    ensures { result ≡ option_map_or (spec.sign_by_link link.same) (slice_get signs.now link.to) true }
{
    match signs.get(link.to as usize) {
        Some(sign) => sign_by_link(link.same, *sign),
        None => true,
    }
}
