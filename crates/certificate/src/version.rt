/// The versions of the text of a certificate.
#[derive(Clone, Copy, Debug, PartialEq, Eq)]
pub(crate) enum Version {
    /// A complete table has one move for each hidden cell.
    One,
    /// A complete table has the cells that move, each with its move.
    Two,
}
