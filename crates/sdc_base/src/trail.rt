use crate::few::Place;
use crate::items::Items;

/// A step of a plan: the corners of a cube of a hidden cell, some of which weren't hidden before.
#[derive(Drop)]
pub struct PlanStep {
    /// The number of the subtable's table.
    pub table: u32,
    /// The parents of the subtable.
    pub parents: Place,
    /// The number of the cell whose cube it is.
    pub cell: u32,
    /// The numbers of the corners' cells, upwards.
    pub corners: Items<u32>,
}

/// The steps of a plan, in their order.
#[derive(Drop)]
pub struct Trail {
    /// The steps.
    pub steps: Items<PlanStep>,
}
