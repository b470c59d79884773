ghost use Rattle.sdc_base.specs.Patterns.{IsPattern};

use sdc_base::{Cell, Hidden, System};

/// A suppression pattern: a system with a cell for each of its numbers, and which of the cells are hidden.
#[derive(Drop)]
pub struct Pattern<'a> {
    /// The relations between the cells.
    pub system: &'a System,
    /// The cells, in the order of their numbers.
    pub cells: &'a [Cell],
    /// Which cells are hidden, a flag for each.
    pub hidden: &'a Hidden,
    ghost one_each: { IsPattern system.now cells.now hidden.now.flags },
}
