ghost use Rattle.std.specs.Prelude.{◌≤◌, ◌<◌, ◌^◌, length, All};
ghost use Rattle.sdc_base.specs.Systems.{NamesCells};

use crate::items::Items;
use crate::relation::Relation;

/// Cells and their relations.
#[derive(Drop)]
pub struct System {
    /// How many cells there are. They are numbered from 0.
    pub cells: u32,
    /// The relations in the order of their numbers, which begin at 0.
    pub relations: Items<Relation>,
    ghost named: { All (NamesCells cells) relations },
    ghost at_most_2_30: { length relations ≤ 2 ^ 30 },
    ghost below_2_32: { cells < 2 ^ 32 },
}
