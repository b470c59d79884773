use crate::problem::Problem;
use crate::sparse_table::SparseTable;

// A column of a table, with what the rows' lists are compared by once each is divided by the row's number there.
#[derive(Drop)]
pub(crate) struct Column<'a> {
    pub(crate) problem: &'a Problem,
    pub(crate) table: &'a SparseTable,
    // For each slack its place among the others, or how many others there are where it is a member.
    pub(crate) places: &'a [u32],
    // The numbers of all rows in the column, each over its row's own den, the objective's being the last.
    pub(crate) numbers: &'a [i128],
    // The column's place among the others.
    pub(crate) place: usize,
}
