ghost use Rattle.std.specs.Prelude.{◌≡◌, ◌<◌, ◌^◌};
ghost use Rattle.worlds.specs.NumberLists.{first_misplaced, terms_of};
ghost use Rattle.worlds.specs.NumberLists as spec;

use crate::world::Move;

// The first place whose move isn't ascending, names no cell below the size or is 0.
pub(crate) fn misplaced_move(moves: &[Move], size: u32) -> Option<u32>
    ensures { result ≡ first_misplaced size 0 0 (terms_of moves.now) }
{
    let mut least = 0;
    for (place, one) in moves.iter().enumerate() {
        if !is_next(size, least, one.cell, one.by) {
            return Some(place as u32);
        }
        least = one.cell + 1;
    }
    None
}

// The first place whose multiplier isn't ascending, names no relation below the size or is 0.
pub(crate) fn misplaced_multiplier(multipliers: &[(u32, i128)], size: u32) -> Option<u32>
    ensures { result ≡ first_misplaced size 0 0 multipliers.now }
{
    let mut least = 0;
    for (place, one) in multipliers.iter().enumerate() {
        if !is_next(size, least, one.0, one.1) {
            return Some(place as u32);
        }
        least = one.0 + 1;
    }
    None
}

// Whether a number may come next, with what is given for it.
fn is_next(size: u32, least: u32, number: u32, by: i128) -> bool
    ensures { result ≡ spec.is_next size least (number, by) }
{
    number >= least && number < size && by != 0
}
