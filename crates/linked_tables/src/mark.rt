ghost use Rattle.linked_tables.specs.BlankMarks.{IsBlank};

use sdc_base::{CellFacts, Tops};

/// What is noted of a cell: the facts of its records, and whether it is hidden.
#[derive(Drop)]
pub struct Mark {
    /// The sum, the number and the largest of the contributions.
    pub facts: CellFacts,
    /// Whether the cell is hidden.
    pub hidden: bool,
}

impl Mark {
    /// The mark of a cell without records that isn't hidden. Its list keeps the two largest, with one weight
    /// step to a whole contribution. It takes no memory.
    pub(crate) fn blank() -> Mark
        ensures { IsBlank result }
    {
        Mark {
            facts: CellFacts {
                truth: 0,
                freq: 0,
                tops: Tops::new(2, 1),
            },
            hidden: false,
        }
    }
}
