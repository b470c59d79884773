ghost use Rattle.std.specs.Prelude.{◌≡◌, ◌++◌, filter, IfOk, OnOk};
ghost use Rattle.repair.specs.Laws as laws;
ghost use Rattle.attackers.specs.Extras.{subjects_of};
ghost use Rattle.attackers.specs.Guarding as guarding;

use crate::accepting::rank_of;
use certificate::{Extra, ExtraNeed, WorldLine};
use sdc_base::{Items, Memory, Side};
use std::alloc::Global;
use worlds::World;

/// What is handed out: the cells that have needs, and the guards in the order of what is asked.
pub(crate) fn extra_of(
    alloc: Global,
    asked: &[(u32, Side)],
    guards: &[WorldLine],
    needs: Items<ExtraNeed>,
) -> Result<Extra, Memory>
    ensures cells { IfOk result (λ extra. extra.cells ≡ subjects_of needs) }
    ensures needs { IfOk result (λ extra. extra.needs ≡ needs) }
    ensures guards { IfOk result (λ extra. extra.guards ≡ guarding.guards_in_order asked.now guards.now) }
{
    let cells = list_subjects(alloc, needs.as_slice())?;
    let ordered = order_guards(alloc, asked, guards)?;
    Ok(Extra {
        cells,
        needs,
        guards: ordered,
    })
}

// The subjects of needs.
fn list_subjects(alloc: Global, needs: &[ExtraNeed]) -> Result<Items<u32>, Memory>
    ensures { IfOk result (λ cells. cells ≡ subjects_of needs.now) }
{
    let mut cells = Items::empty(alloc);
    'needs: for need in needs {
        cells.push(need.subject)?;
    }
    Ok(cells)
}

// The guards in the order of what is asked.
fn order_guards(
    alloc: Global,
    asked: &[(u32, Side)],
    guards: &[WorldLine],
) -> Result<Items<WorldLine>, Memory>
    ensures { IfOk result (λ lines. lines ≡ guarding.guards_in_order asked.now guards.now) }
{
    let mut lines = Items::empty(alloc);
    'asked: for one in asked {
        add_for(alloc, &mut lines, *one, guards)?;
    }
    Ok(lines)
}

// Adds the guards for a cell and side.
fn add_for(
    alloc: Global,
    lines: &mut Items<WorldLine>,
    asked: (u32, Side),
    guards: &[WorldLine],
) -> Result<(), Memory>
    ensures { OnOk result (lines.new ≡ lines.old ++ filter (guarding.is_for asked) guards.now) }
{
    'guards: for line in guards {
        if is_for(asked, line) {
            lines.push(copy_of(alloc, line)?)?;
        }
    }
    Ok(())
}

// Whether a line is for this cell and side.
fn is_for(asked: (u32, Side), line: &WorldLine) -> bool
    ensures { result ≡ guarding.is_for asked line.now }
{
    rank_of(line) == rank(asked)
}

// Where a cell and side stand in the order of all.
fn rank(asked: (u32, Side)) -> u64
    ensures { result ≡ laws.rank asked }
{
    match asked.1 {
        Side::Above => 2 * u64::from(asked.0),
        Side::Below => 2 * u64::from(asked.0) + 1,
    }
}

// A line once more.
fn copy_of(alloc: Global, line: &WorldLine) -> Result<WorldLine, Memory>
    ensures { IfOk result (λ copy. copy ≡ line.now) }
{
    let moves = line.world.moves.as_slice().to_vec(alloc)?;
    Ok(WorldLine {
        cell: line.cell,
        side: line.side,
        world: World {
            den: line.world.den,
            moves: Items::new(moves),
        },
    })
}
