use crate::ratio::Ratio;

/// How much a hidden cell can be at most, by all that is shown.
#[derive(Clone, Copy)]
pub enum UpperEnd {
    /// The greatest value that a complete table gives the cell, in units.
    At(Ratio),
    /// Some complete table gives the cell 2^110 units more than its truth.
    Open,
}

/// What a reader of the tables can find out of a hidden cell: that its value, in units, is from `low` to `high`.
#[derive(Clone, Copy)]
pub struct CellInterval {
    /// The number of the cell.
    pub cell: u32,
    /// The least value that a complete table gives the cell.
    pub low: Ratio,
    /// The greatest one.
    pub high: UpperEnd,
}
