use crate::tops::Tops;

/// What is known of a cell from its records.
#[derive(Drop)]
pub struct CellFacts {
    /// The sum of weight times value, in units.
    pub truth: i128,
    /// How many records fall in the cell.
    pub freq: u32,
    /// The largest contributions.
    pub tops: Tops,
}

/// How far a cell must be open to either side of its truth, in units.
#[derive(Clone, Copy, Debug, PartialEq, Eq)]
pub struct Levels {
    /// Upwards.
    pub up: i128,
    /// Downwards.
    pub down: i128,
}
