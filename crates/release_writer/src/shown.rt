use sdc_base::Hidden;

/// What the cells of a release show.
#[derive(Clone, Copy)]
pub enum Shown<'a> {
    /// The truth of each cell that isn't hidden, and `x` for the others.
    Hidden(&'a Hidden),
    /// A rounded number for each cell, in units, in the order of the cells' numbers.
    Rounded(&'a [i128]),
}
