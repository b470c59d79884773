use crate::few::Place;
use crate::items::Items;

/// A table with one code that has children for each of its variables, the parents. Its cells are those that have for
/// each of these variables the parent or one of its children.
#[derive(Drop)]
pub struct Subtable {
    /// The number of the table.
    pub table: u32,
    /// A code for each variable of the table, in the table's order.
    pub parents: Place,
}

/// An edge of a cube: a code for one variable, and another one of the same subtable.
#[derive(Clone, Copy, Debug, Default, PartialEq, Eq)]
pub struct Edge {
    /// The code of the cell whose cube it is.
    pub code: u32,
    /// The code of its partner.
    pub other: u32,
    /// Whether both ends have one sign.
    pub equal: bool,
}

/// A corner of a cube.
#[derive(Clone, Copy, Debug, PartialEq, Eq)]
pub struct Corner {
    /// The number of its cell.
    pub cell: u32,
    /// Its sign: true for plus.
    pub plus: bool,
}

/// A cell with its partners in a subtable, one for each variable, and all that these make.
#[derive(Drop)]
pub struct Cube {
    /// The corners, by the numbers of their cells upwards.
    pub corners: Items<Corner>,
}
