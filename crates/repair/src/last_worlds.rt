ghost use Rattle.std.specs.Prelude.{◌≡◌, slice_set, All, None, Some};
ghost use Rattle.repair.specs.CellTrials as spec;

use crate::trial::fits;
use std::alloc::Global;
use worlds::World;

// No world yet for each of so many questions, or for fewer where memory is wanting.
pub(crate) fn no_last(alloc: Global, count: usize) -> Vec<Option<World>>
    ensures { All (λ last. last ≡ None) result.items }
{
    let mut worlds = Vec::new(alloc);
    'questions: for _question in 0..count {
        let Ok(()) = worlds.push(None) else {
            return worlds;
        };
    }
    worlds
}

// Whether the question at a place has a last world, and it moves only hidden cells.
pub(crate) fn has_fitting(worlds: &[Option<World>], place: usize, flags: &[bool]) -> bool
    ensures { result ≡ spec.last_fits flags.now worlds.now place }
{
    match worlds.get(place) {
        Some(Some(world)) => fits(world, flags),
        _ => false,
    }
}

// Keeps a world as the last of the question at a place, where there is room for it.
pub(crate) fn keep_last(worlds: &mut Vec<Option<World>>, place: usize, world: World)
    ensures { worlds.new.items ≡ slice_set worlds.old.items place (Some world) }
{
    if place < worlds.len() {
        worlds[place] = Some(world);
    }
}
