use linked_tables::Book;
use sdc_base::{Dimensions, Items};

/// A table of a release that is read.
#[derive(Clone, Copy)]
pub(crate) struct TableLayout<'a> {
    pub(crate) book: &'a Book,
    pub(crate) table: &'a Dimensions,
    pub(crate) t: u32,
    pub(crate) decimals: u8,
    pub(crate) rounded: bool,
}

/// What the lines so far show of the cells, and the bytes that are left with the number of their first line.
#[derive(Drop)]
pub(crate) struct Progress<'a> {
    pub(crate) shown: Items<Option<i128>>,
    pub(crate) rest: &'a [u8],
    pub(crate) line: u32,
}

/// What a cell shows, and the bytes behind the line that shows it.
#[derive(Clone, Copy)]
pub(crate) struct LineMatch<'a> {
    pub(crate) value: Option<i128>,
    pub(crate) rest: &'a [u8],
}
