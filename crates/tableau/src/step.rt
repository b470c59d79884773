/// What an attempt to improve came to.
#[derive(Clone, Copy, Debug, PartialEq, Eq)]
pub enum Step {
    /// The step was made.
    Improved,
    /// The objective equals the target.
    Reached,
    /// The objective is below the target, and no column or slack improves it.
    Blocked,
    /// The exchange of the step needs, at the place of this row and column, a number of 2^127 or more in size. A row
    /// has the number of its member, columns before slacks; the objective's row and the values' column have the number
    /// after the last slack.
    Wide {
        /// The number of the row's member.
        row: u32,
        /// The number of the column or slack.
        column: u32,
    },
}
