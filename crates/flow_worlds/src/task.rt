use crate::steps::Step;
use sdc_base::{Cell, Items, System};
use signed_network::Arc;

// What is asked, with the network of the hidden cells on which it is asked.
#[derive(Drop)]
pub(crate) struct Task<'a> {
    pub(crate) system: &'a System,
    pub(crate) cells: &'a [Cell],
    // A flag for each cell, true for a hidden one.
    pub(crate) flags: &'a [bool],
    pub(crate) signs: &'a [bool],
    // The arcs of all cells.
    pub(crate) arcs: &'a [Arc],
    // For each point the hidden cells whose arcs touch it.
    pub(crate) touching: &'a [Items<u32>],
    // The step over the asked cell to its side.
    pub(crate) asked: Step,
}
