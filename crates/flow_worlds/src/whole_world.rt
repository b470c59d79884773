ghost use Rattle.std.specs.Prelude.{◌≡◌, ◌<◌, ◌^◌, ◌++◌, ◌∷◌, [], ℕ, length, pos, if◌then◌else◌, IfOk, OnOk};
ghost use Rattle.std.specs.Ordering.{int_eq};
ghost use Rattle.sdc_base.specs.Systems.{number_at};
ghost use Rattle.worlds.specs.NumberLists.{IsListed, number_given, terms_of};

use sdc_base::{Items, Memory};
use std::alloc::Global;
use worlds::{Move, World};

// The world with these moves of the cells, over the denominator 1.
pub(crate) fn world_of(alloc: Global, moves: &[i128]) -> Result<World, Memory>
    requires fewer_than_2_32 { length moves.now < 2 ^ 32 }
    ensures whole { IfOk result (λ world. world.den ≡ pos 1) }
    ensures listed { IfOk result (λ world. IsListed (length moves.now) (terms_of world.moves)) }
    ensures given { IfOk result (λ world. (cell : ℕ) → number_given (terms_of world.moves) cell ≡ number_at moves.now cell) }
{
    let mut listed = Vec::new(alloc);
    'cells: for (cell, by) in moves.iter().enumerate() {
        push_move(&mut listed, cell as u32, *by)?;
    }
    Ok(World {
        den: 1,
        moves: Items::new(listed),
    })
}

// Puts the move of a cell at the end of a list, where it isn't 0.
fn push_move(listed: &mut Vec<Move>, cell: u32, by: i128) -> Result<(), Memory>
    ensures { OnOk result (terms_of listed.new.items
        ≡ terms_of listed.old.items ++ (if int_eq by (pos 0) then [] else (cell, by) ∷ [])) }
{
    if by == 0 {
        return Ok(());
    }
    listed.push(Move { cell, by })?;
    Ok(())
}
