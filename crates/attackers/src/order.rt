ghost use Rattle.std.specs.Prelude.{◌≡◌, ◌++◌, ◌<◌, length, All, IfOk, OnOk};
ghost use Rattle.worlds.specs.ProtectFaults.{asked_of};
ghost use Rattle.attackers.specs.AttackOrder as spec;

use crate::attack::Attack;
use crate::known::{is_known, serves};
use sdc_base::{Cell, Memory, Side};
use std::alloc::Global;
use std::collections::BTreeSet;
use worlds::World;

/// The rows that alone make up some cell, ascending.
pub(crate) fn sole_rows(alloc: Global, soles: &[Option<u32>]) -> Result<Vec<u32>, Memory>
    ensures { IfOk result (λ rows. rows.items ≡ spec.sole_rows soles.now) }
{
    let mut rows = BTreeSet::new(alloc);
    for sole in soles {
        if let Some(row) = sole {
            rows.insert(*row)?;
        }
    }
    let list = rows.into_iter().collect(alloc)?;
    Ok(list)
}

/// The attacks against which the worlds for what is asked, one for each, don't serve, in their order.
pub(crate) fn unserved_attacks(
    alloc: Global,
    cells: &[Cell],
    soles: &[Option<u32>],
    asked: &[(u32, Side)],
    worlds: &[World],
) -> Result<Vec<Attack>, Memory>
    requires asked { asked.now ≡ asked_of 0 cells.now }
    requires worlds { length worlds.now ≡ length asked.now }
    ensures { IfOk result (λ left. left.items ≡ spec.unserved_attacks cells.now soles.now worlds.now) }
{
    let rows = sole_rows(alloc, soles)?;
    let mut left = Vec::new(alloc);
    'rows: for row in &rows {
        add_unserved(&mut left, cells, soles, asked, worlds, *row)?;
    }
    Ok(left)
}

// Adds those of one contributor.
fn add_unserved(
    left: &mut Vec<Attack>,
    cells: &[Cell],
    soles: &[Option<u32>],
    asked: &[(u32, Side)],
    worlds: &[World],
    row: u32,
) -> Result<(), Memory>
    requires asked { All (λ one. one.0 < length cells.now) asked.now }
    requires worlds { length worlds.now ≡ length asked.now }
    ensures { OnOk result (left.new.items
        ≡ left.old.items ++ spec.unserved_on cells.now soles.now asked.now worlds.now row) }
{
    'places: for place in 0..asked.len() {
        let attack = attack_by(row, asked[place]);
        if is_unserved(cells, soles, attack, &worlds[place]) {
            left.push(attack)?;
        }
    }
    Ok(())
}

/// What a contributor tries of what is asked.
pub(crate) fn attack_by(row: u32, asked: (u32, Side)) -> Attack
    ensures { result ≡ spec.attack_by row asked }
{
    Attack {
        row,
        cell: asked.0,
        side: asked.1,
    }
}

// Whether the contributor doesn't know the cell, and the world doesn't serve against it.
fn is_unserved(cells: &[Cell], soles: &[Option<u32>], attack: Attack, world: &World) -> bool
    requires { attack.cell < length cells.now }
    ensures { result ≡ spec.is_unserved cells.now soles.now attack world.now }
{
    !is_known(soles, attack.row, attack.cell) && !serves(cells, soles, attack, world)
}
