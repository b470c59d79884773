ghost use Rattle.std.specs.Prelude.{◌≡◌, ◌<◌, ◌^◌, length, IfOk};
ghost use Rattle.sdc_base.specs.Ends as ends_specs;
ghost use Rattle.sdc_base.specs.Signs as signs_specs;
ghost use Rattle.sdc_base.specs.Signs.{AreSigns};
ghost use Rattle.signed_network.specs.Arcs as spec;
ghost use Rattle.signed_network.specs.Arcs.{AreArcsOf};

use sdc_base::{End, Ends, Memory, System, ends_of};
use std::alloc::Global;

/// The arc of a cell between points, which are the relations, by their numbers, and behind them the outside.
#[derive(Clone, Copy)]
pub struct Arc {
    /// The point that counts the cell with -1.
    pub from: u32,
    /// The point that counts it with 1.
    pub to: u32,
}

// The arcs of all cells.
pub(crate) fn arcs_of(alloc: Global, system: &System, signs: &[bool]) -> Result<Vec<Arc>, Memory>
    requires signs { AreSigns system.now.relations signs.now }
    ensures arcs { IfOk result (λ arcs. AreArcsOf system.now.relations signs.now system.now.cells arcs.items) }
    ensures fewer_than_2_32 { IfOk result (λ arcs. length arcs.items < 2 ^ 32) }
{
    let Some(ends) = ends_of(alloc, system)? else {
        // For the proof: the relations have signs.
        unreachable!()
    };
    let outside = system.relations.as_slice().len() as u32;
    let mut arcs = Vec::new(alloc);
    'cells: for cell in 0..system.cells {
        let at = ends_at(ends.as_slice(), cell);
        arcs.push(arc_of(at, signs, outside))?;
    }
    Ok(arcs)
}

// The ends of a cell.
fn ends_at(ends: &[Ends], cell: u32) -> Ends
    ensures { result ≡ ends_specs.ends_at ends.now cell }
{
    match ends.get(cell as usize) {
        Some(at) => *at,
        None => Ends::Free,
    }
}

// The arc of a cell with these ends.
fn arc_of(ends: Ends, signs: &[bool], outside: u32) -> Arc
    ensures { result ≡ spec.arc_of signs.now outside ends }
{
    let free = Arc {
        from: outside,
        to: outside,
    };
    match ends {
        Ends::Free => free,
        Ends::One(one) => arc_with(free, one, signs),
        Ends::Two(one, other) => arc_with(arc_with(free, one, signs), other, signs),
    }
}

// An arc, joined to the relation of an end.
fn arc_with(arc: Arc, end: End, signs: &[bool]) -> Arc
    ensures { result ≡ spec.arc_with signs.now arc end }
{
    if is_same(end.plus, sign_at(signs, end.relation)) {
        Arc {
            from: arc.from,
            to: end.relation,
        }
    } else {
        Arc {
            from: end.relation,
            to: arc.to,
        }
    }
}

// The sign of the relation with this number.
fn sign_at(signs: &[bool], number: u32) -> bool
    ensures { result ≡ signs_specs.sign_of signs.now number }
{
    match signs.get(number as usize) {
        Some(sign) => *sign,
        None => true,
    }
}

/// Whether two flags are alike.
///
/// Nothing is refused, and it takes one look. The rule is argus's own.
pub fn is_same(one: bool, other: bool) -> bool
    ensures { result ≡ spec.is_same one other }
{
    if one { other } else { !other }
}
