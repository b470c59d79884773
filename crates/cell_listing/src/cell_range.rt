use sdc_base::Text;

/// The interval of a hidden cell, as an interval file says it.
#[derive(Drop)]
pub(crate) struct CellRange {
    /// The number of the cell.
    pub cell: u32,
    /// The text of its lower end: a whole number of units, or a fraction.
    pub low: Text,
    /// The text of its upper end: such a one, or the word `open`.
    pub high: Text,
}
