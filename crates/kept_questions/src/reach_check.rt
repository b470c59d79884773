ghost use Rattle.std.specs.Prelude.{◌≡◌, OnOk};
ghost use Rattle.worlds.specs.NumberLists.{terms_of, number_given};
ghost use Rattle.interval_audit.specs.Answers.{ReachesTarget};

use crate::exact::product;
use crate::left_over::toward;
use crate::unfit::Unfit;
use interval_audit::Question;
use std::alloc::Global;
use worlds::{Move, Pattern, World, check_world};

// That in a world the asked cell lies exactly at the target.
pub(crate) fn check_reach(
    alloc: Global,
    pattern: &Pattern<'_>,
    question: Question,
    world: &World,
) -> Result<(), Unfit>
    ensures { OnOk result (ReachesTarget pattern.now.system.now pattern.now.cells.now pattern.now.hidden.now.flags
        question world.now) }
{
    let mut scratch = Vec::from_elem(alloc, 0, pattern.system.cells as usize)?;
    let own = move_of(world.moves.as_slice(), question.cell);
    let turned = toward(question.side, own)?;
    let far = product(world.den, question.target)?;
    if turned != far {
        return Err(Unfit);
    }
    let found = check_world(
        pattern.system,
        pattern.cells,
        pattern.hidden,
        world,
        &mut scratch,
    );
    match found {
        Ok(()) => Ok(()),
        Err(_) => Err(Unfit),
    }
}

// The move that is given for a cell, of several the last; 0 where none is given.
fn move_of(moves: &[Move], cell: u32) -> i128
    ensures { result ≡ number_given (terms_of moves.now) cell }
{
    let mut by = 0;
    'moves: for one in moves {
        if one.cell == cell {
            by = one.by;
        }
    }
    by
}
