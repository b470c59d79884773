ghost use Rattle.std.specs.Prelude.{◌<◌, ◌^◌, length};

use crate::items::Items;

/// A relation among cells: the total is the sum of the parts.
#[derive(Drop)]
pub struct Relation {
    /// The number of the cell that is the total.
    pub total: u32,
    /// The numbers of the cells that are the parts.
    pub parts: Items<u32>,
    ghost fewer_than_2_32: { length parts < 2 ^ 32 },
}
