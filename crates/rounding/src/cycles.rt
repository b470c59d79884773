ghost use Rattle.std.specs.Prelude.{◌≡◌, ◌<◌, ◌+◌, ℕ, true, length, IfOk, OnOk};
ghost use Rattle.sdc_base.specs.Roundings.{IsRounding};
ghost use Rattle.sdc_base.specs.Systems.{number_at};
ghost use Rattle.sdc_base.specs.Signs.{AreSigns};
ghost use Rattle.rounding.specs.Neighbours as spec;
ghost use Rattle.signed_network.specs.Arcs.{AreArcsOf};
ghost use Rattle.signed_network.specs.Balances.{IsBalanced};
ghost use Rattle.rounding.specs.Rings.{AreBeside, AreWholeBelow, IsWholeNetwork, KeepMultiples};
ghost use Rattle.rounding.specs.Tasks.{IsProper};

use crate::underway::{Task, go_round, is_whole};
use crate::walk::{circuit, walk_from};
use sdc_base::{Items, Memory, System};
use signed_network::{Network, network_of};
use std::alloc::Global;

// A rounding by going round cycles, where the system has signs.
pub(crate) fn gone_round(
    alloc: Global,
    system: &System,
    signs: &[bool],
    truths: &[i128],
    base: i128,
) -> Result<Items<i128>, Memory>
    requires proper { IsProper system.now truths.now base }
    requires signs { AreSigns system.now.relations signs.now }
    ensures { IfOk result (λ values. IsRounding system.now truths.now base values) }
{
    let network = whole_network(alloc, system, signs)?;
    let mut numbers = truths.to_vec(alloc)?;
    let task = Task { truths, base };
    round_cells(alloc, &network, &task, numbers.as_mut_slice())?;
    Ok(Items::new(numbers))
}

// The network of all cells.
fn whole_network(alloc: Global, system: &System, signs: &[bool]) -> Result<Network, Memory>
    requires signs { AreSigns system.now.relations signs.now }
    ensures arcs { IfOk result (λ network. AreArcsOf system.now.relations signs.now system.now.cells network.arcs.items) }
    ensures points { IfOk result (λ network. length network.touching.items ≡ length system.now.relations + 1) }
    ensures network { IfOk result (λ network. IsWholeNetwork network.arcs.items network.touching.items) }
{
    let flags = Vec::from_elem(alloc, true, system.cells as usize)?;
    network_of(alloc, system, signs, flags.as_slice())
}

// Goes round until all cells are multiples.
fn round_cells(
    alloc: Global,
    network: &Network,
    task: &Task<'_>,
    numbers: &mut [i128],
) -> Result<(), Memory>
    requires network { IsWholeNetwork network.now.arcs.items network.now.touching.items }
    requires each { length network.now.arcs.items ≡ length numbers.old }
    requires balanced { IsBalanced network.now.arcs.items (length network.now.touching.items) (number_at numbers.old) }
    requires beside { AreBeside task.now.truths.now task.now.base numbers.old }
    ensures balanced { OnOk result (IsBalanced network.now.arcs.items (length network.now.touching.items)
        (number_at numbers.new)) }
    ensures beside { OnOk result (AreBeside task.now.truths.now task.now.base numbers.new) }
    ensures all_multiples { OnOk result ((cell : ℕ) → cell < length numbers.new
        → spec.is_multiple task.now.base (number_at numbers.new cell) ≡ true) }
{
    let cells = network.arcs.as_slice().len() as u32;
    'cells: for cell in 0..cells {
        round_cell(alloc, network, task, numbers, cell)?;
    }
    Ok(())
}

// Goes round until this cell is a multiple, where those below it are.
fn round_cell(
    alloc: Global,
    network: &Network,
    task: &Task<'_>,
    numbers: &mut [i128],
    cell: u32,
) -> Result<(), Memory>
    requires network { IsWholeNetwork network.now.arcs.items network.now.touching.items }
    requires each { length network.now.arcs.items ≡ length numbers.old }
    requires balanced { IsBalanced network.now.arcs.items (length network.now.touching.items) (number_at numbers.old) }
    requires beside { AreBeside task.now.truths.now task.now.base numbers.old }
    requires cell { cell < length numbers.old }
    requires first { AreWholeBelow task.now.base numbers.old cell }
    ensures balanced { OnOk result (IsBalanced network.now.arcs.items (length network.now.touching.items)
        (number_at numbers.new)) }
    ensures beside { OnOk result (AreBeside task.now.truths.now task.now.base numbers.new) }
    ensures multiples { OnOk result (KeepMultiples task.now.base numbers.old numbers.new) }
    ensures is_multiple { OnOk result (spec.is_multiple task.now.base (number_at numbers.new cell) ≡ true) }
{
    'rounds: while !is_whole(task, numbers, cell) {
        let walk = walk_from(alloc, network, task, numbers, cell)?;
        go_round(task, numbers, circuit(&walk));
    }
    Ok(())
}
