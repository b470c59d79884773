use crate::multipliers::Multipliers;
use sdc_base::Side;

/// A refutation for which a cell is hidden, or stays hidden: with that cell shown, it refutes one side of a primary
/// cell.
#[derive(Drop)]
pub struct Refuted {
    /// The number of the cell that is hidden for it.
    pub subject: u32,
    /// The number of the primary cell that is refuted.
    pub cell: u32,
    /// The side to which it is refuted.
    pub side: Side,
    /// The multipliers that refute it: their bound sum stays below the level.
    pub multipliers: Multipliers,
}
