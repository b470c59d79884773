ghost use Rattle.std.specs.Prelude.{◌≡◌, ◌<◌, ◌++◌, ◌^◌, flat_map, IsTrue, true, length, All};
ghost use Rattle.sdc_base.specs.Answers.{Gives};
ghost use Rattle.attackers.specs.AttackOrder.{attacks_on, attacks_of};
ghost use Rattle.attackers.specs.KnownCells as spec;
ghost use Rattle.attackers.specs.ExtraFaults.{extra_fault_of, attacks_fault};

use crate::attack::Attack;
use crate::faults::ExtraFault;
use crate::known::{is_known, serves};
use crate::lines::is_served;
use crate::order::{attack_by, sole_rows};
use certificate::WorldLine;
use repair::questions_of;
use sdc_base::{Cell, Side};
use std::alloc::Global;

/// Refuses the first attack against which neither a world nor a guard serves.
pub(crate) fn check_attacks(
    alloc: Global,
    cells: &[Cell],
    soles: &[Option<u32>],
    worlds: &[WorldLine],
    guards: &[WorldLine],
) -> Result<(), ExtraFault>
    requires { length cells.now < 2 ^ 32 }
    ensures { Gives extra_fault_of (λ u. u) result
        (attacks_fault cells.now soles.now (worlds.now ++ guards.now) (attacks_of cells.now soles.now)) }
{
    let rows = sole_rows(alloc, soles)?;
    let asked = questions_of(alloc, cells)?;
    check_rows(cells, soles, &asked, &rows, worlds, guards)
}

// The same of what is asked, for these rows.
fn check_rows(
    cells: &[Cell],
    soles: &[Option<u32>],
    asked: &[(u32, Side)],
    rows: &[u32],
    worlds: &[WorldLine],
    guards: &[WorldLine],
) -> Result<(), ExtraFault>
    requires asked { All (λ one. one.0 < length cells.now) asked.now }
    ensures { result ≡ attacks_fault cells.now soles.now (worlds.now ++ guards.now)
        (flat_map (attacks_on soles.now asked.now) rows.now) }
{
    'rows: for row in rows {
        check_row(cells, soles, asked, *row, worlds, guards)?;
    }
    Ok(())
}

// The same for one row.
fn check_row(
    cells: &[Cell],
    soles: &[Option<u32>],
    asked: &[(u32, Side)],
    row: u32,
    worlds: &[WorldLine],
    guards: &[WorldLine],
) -> Result<(), ExtraFault>
    requires asked { All (λ one. one.0 < length cells.now) asked.now }
    ensures { result ≡ attacks_fault cells.now soles.now (worlds.now ++ guards.now) (attacks_on soles.now asked.now row) }
{
    'places: for place in 0..asked.len() {
        let attack = attack_by(row, asked[place]);
        if !is_known(soles, row, attack.cell)
            && !is_met(cells, soles, attack, place, worlds, guards)
        {
            return Err(ExtraFault::Open {
                row,
                cell: attack.cell,
                side: attack.side,
            });
        }
    }
    Ok(())
}

// Whether some world or guard serves against an attack: first the world at a place, then a guard of its cell and side,
// then any.
fn is_met(
    cells: &[Cell],
    soles: &[Option<u32>],
    attack: Attack,
    place: usize,
    worlds: &[WorldLine],
    guards: &[WorldLine],
) -> bool
    requires { attack.cell < length cells.now }
    ensures { result ≡ spec.is_served cells.now soles.now attack (worlds.now ++ guards.now) }
{
    is_met_at(cells, soles, attack, place, worlds)
        || is_served(cells, soles, attack, guards)
        || is_met_by(cells, soles, attack, worlds)
        || is_met_by(cells, soles, attack, guards)
}

// Whether the world at a place serves against an attack.
fn is_met_at(
    cells: &[Cell],
    soles: &[Option<u32>],
    attack: Attack,
    place: usize,
    lines: &[WorldLine],
) -> bool
    requires { attack.cell < length cells.now }
    ensures { IsTrue result → spec.is_served cells.now soles.now attack lines.now ≡ true }
{
    if place >= lines.len() {
        return false;
    }
    serves(cells, soles, attack, &lines[place].world)
}

// Whether any world serves against an attack.
fn is_met_by(cells: &[Cell], soles: &[Option<u32>], attack: Attack, lines: &[WorldLine]) -> bool
    requires { attack.cell < length cells.now }
    ensures { result ≡ spec.is_served cells.now soles.now attack lines.now }
{
    lines
        .iter()
        .any(|line| serves(cells, soles, attack, &line.world))
}
