use crate::certificate::WorldLine;
use sdc_base::{Items, Side};
use worlds::Multipliers;

/// A refutation for which an extra cell is hidden, or stays hidden: with that cell shown, and without what a contributor
/// knows, it refutes one side of a primary cell.
#[derive(Drop)]
pub struct ExtraNeed {
    /// The number of the cell that is hidden for it.
    pub subject: u32,
    /// The place of the contributor's row, from 0.
    pub row: u32,
    /// The number of the primary cell that is refuted.
    pub cell: u32,
    /// The side to which it is refuted.
    pub side: Side,
    /// The multipliers that refute it: their bound sum stays below the level.
    pub multipliers: Multipliers,
}

/// The cells that are hidden against contributors, beside those of a certificate.
#[derive(Drop)]
pub struct Extra {
    /// The numbers of the cells, ascending.
    pub cells: Items<u32>,
    /// Why each of them must stay hidden.
    pub needs: Items<ExtraNeed>,
    /// The complete tables that serve against contributors, beside those of the certificate, by cell and side.
    pub guards: Items<WorldLine>,
}
