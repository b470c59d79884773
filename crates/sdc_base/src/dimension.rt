ghost use Rattle.std.specs.Prelude.{◌≡◌};
ghost use Rattle.sdc_base.specs.Cells as cells;
ghost use Rattle.sdc_base.specs.CutTrees.{whole_depth};

use crate::few::{Few, Place};
use arrayvec::ArrayVec;

/// A variable that a table spans, down to a depth of its tree: the table has those codes that are at most so many steps
/// below the total.
#[derive(Clone, Copy, Debug, Default, PartialEq, Eq)]
pub struct Dimension {
    /// The number of the variable.
    pub variable: u32,
    /// The depth.
    pub depth: u32,
}

/// The dimensions of a table, in its order.
pub type Dimensions = Few<Dimension, 8>;

// No code of a tree is deeper.
const WHOLE_DEPTH: u32 = 9;

impl Dimension {
    /// A variable with all its codes. No code tree is deeper than nine levels, which is argus's own.
    pub fn whole(variable: u32) -> Dimension
        ensures whole { result ≡ cells.whole variable }
        ensures deep { result.depth ≡ whole_depth }
    {
        Dimension {
            variable,
            depth: WHOLE_DEPTH,
        }
    }
}

/// The table that spans these variables with all their codes. It takes no memory.
pub fn whole_table(variables: &Place) -> Dimensions
    ensures { result ≡ cells.whole_table variables.now }
{
    // for the proof: there are at most eight
    let _ = variables.len();
    let mut table: ArrayVec<Dimension, 8> = ArrayVec::new();
    'variables: for variable in variables.as_slice() {
        table.push(Dimension::whole(*variable));
    }
    Few::new(table)
}
