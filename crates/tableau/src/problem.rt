use sdc_base::Items;

/// A row of a problem: what its entries come to on the amounts of the columns is at most the bound.
#[derive(Drop)]
pub struct LinRow {
    /// A column with a number of it, ascending by columns; a column without one has 0.
    pub entries: Items<(u32, i128)>,
    /// 0 or more.
    pub bound: i128,
}

/// A problem: raise the objective, over amounts of the columns that are at least 0, with every row at most its bound,
/// until the target is reached.
#[derive(Drop)]
pub struct Problem {
    /// How many columns there are; they are numbered from 0.
    pub columns: u32,
    /// The rows without the target's, which is one more, the last.
    pub rows: Items<LinRow>,
    /// What is raised, by columns as in a row.
    pub objective: Items<(u32, i128)>,
    /// What the objective is to come to, 0 or more.
    pub target: i128,
}
