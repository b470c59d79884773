use sdc_base::Side;
use worlds::Multipliers;

/// A cell that no permitted hidden set protects to a side.
#[derive(Drop)]
pub struct UnprotectedCell {
    /// Its number, from 0.
    pub cell: u32,
    /// The side to which no set opens it by its level.
    pub side: Side,
    /// Multipliers of relations, without a unit, with which its question stopped; they refute its level, in units, for
    /// the set with all cells hidden that may be.
    pub multipliers: Multipliers,
}
