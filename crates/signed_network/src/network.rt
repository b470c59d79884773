ghost use Rattle.std.specs.Prelude.{◌≡◌, ◌<◌, ◌+◌, ◌++◌, ◌∷◌, ◌==◌, ◌^◌, [], ℕ, length, if◌then◌else◌, IfOk, OnOk};
ghost use Rattle.sdc_base.specs.Signs.{AreSigns};
ghost use Rattle.signed_network.specs.Arcs.{AreArcsOf, arc_at};
ghost use Rattle.signed_network.specs.Networks.{AreTouching, IsNetwork, cells_at};

use crate::arcs::{Arc, arcs_of};
use crate::lists::empty_lists;
use sdc_base::{Items, Memory, System, is_hidden};
use std::alloc::Global;

/// The arcs of cells, and for each point some of the cells whose arcs touch it.
#[derive(Drop)]
pub struct Network {
    /// The arc of each cell.
    pub arcs: Vec<Arc>,
    /// For each point the cells with a flag whose arcs touch it, ascending.
    pub touching: Vec<Items<u32>>,
}

/// The network of a system, by signs for its relations ([`sdc_base::signs`]). Its points are the relations and, behind
/// them, the outside; at each it lists the cells that have a flag.
///
/// Its one refusal is want of memory. It looks once at each part of each relation and at each cell. That relations with
/// signs are the points of a network, and cells its arcs, is the rule of network flows.
pub fn network_of(
    alloc: Global,
    system: &System,
    signs: &[bool],
    flags: &[bool],
) -> Result<Network, Memory>
    requires signs { AreSigns system.now.relations signs.now }
    ensures arcs { IfOk result (λ network. AreArcsOf system.now.relations signs.now system.now.cells network.arcs.items) }
    ensures points { IfOk result (λ network. length network.touching.items ≡ length system.now.relations + 1) }
    ensures network { IfOk result (λ network. IsNetwork flags.now network.arcs.items network.touching.items) }
{
    let arcs = arcs_of(alloc, system, signs)?;
    let points = system.relations.as_slice().len() as u32 + 1;
    let touching = touching_of(alloc, flags, arcs.as_slice(), points)?;
    Ok(Network { arcs, touching })
}

// For each point the cells with a flag whose arcs touch it.
fn touching_of(
    alloc: Global,
    flags: &[bool],
    arcs: &[Arc],
    points: u32,
) -> Result<Vec<Items<u32>>, Memory>
    requires fewer_than_2_32 { length arcs.now < 2 ^ 32 }
    requires within { (cell : ℕ) → cell < length arcs.now
        → ((arc_at arcs.now cell).from < points) × ((arc_at arcs.now cell).to < points) }
    ensures each { IfOk result (λ touching. length touching.items ≡ points) }
    ensures touched { IfOk result (λ touching. AreTouching flags.now arcs.now (length arcs.now) touching.items) }
{
    let mut touching = empty_lists(alloc, points)?;
    'cells: for (cell, arc) in arcs.iter().enumerate() {
        if !is_hidden(flags, cell) {
            continue;
        }
        add_cell(&mut touching, arc.from, cell as u32)?;
        add_cell(&mut touching, arc.to, cell as u32)?;
    }
    Ok(touching)
}

// Puts a cell at the end of the list of a point.
fn add_cell(touching: &mut Vec<Items<u32>>, point: u32, cell: u32) -> Result<(), Memory>
    requires point { point < length touching.old.items }
    ensures each { OnOk result (length touching.new.items ≡ length touching.old.items) }
    ensures added { OnOk result ((other : ℕ)
        → cells_at touching.new.items other
        ≡ (if other == point then cells_at touching.old.items other ++ cell ∷ []
        else cells_at touching.old.items other)) }
{
    touching[point as usize].push(cell)?;
    Ok(())
}
