use cell_intervals::Ratio;
use worlds::{Multipliers, World};

/// How far the tables that a reader can't rule out take a primary cell to one side.
#[derive(Drop)]
pub struct AuditedEnd {
    /// The cell's least value, or its greatest one, in units.
    pub value: Ratio,
    /// Whether some such table takes the cell at least its level to the side.
    pub covered: bool,
    /// A table that gives the cell this value.
    pub world: World,
    /// Multipliers that show that none takes it further.
    pub stop: Multipliers,
}

/// What a rounded release leaves open of a primary cell.
#[derive(Drop)]
pub struct AuditedCell {
    /// The number of the cell.
    pub cell: u32,
    /// Its least value.
    pub below: AuditedEnd,
    /// Its greatest value.
    pub above: AuditedEnd,
}
