use sdc_base::Items;

/// The file of intervals that is to be put.
#[derive(Drop)]
pub struct IntervalFile {
    /// How many cells the tables hide.
    pub cells: u32,
    /// The bytes of the file.
    pub bytes: Items<u8>,
}
