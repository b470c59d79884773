use certificate::{Extra, ExtraNeed};
use interval_audit::AskFault;
use sdc_base::{Items, Side};
use worlds::Multipliers;

/// How far guarding against contributors had come where it stopped.
#[derive(Drop)]
pub struct Against {
    /// The place of the row of the contributor that was asked about.
    pub row: u32,
    /// The extra cells so far, with their reasons, in the order in which they were hidden.
    pub extras: Items<ExtraNeed>,
    /// The extra cells that were shown again, ascending; the last was being tried.
    pub dropped: Items<u32>,
}

/// Guarding against contributors that stopped short of an answer.
#[derive(Drop)]
pub struct GuardStop {
    /// Why.
    pub fault: AskFault,
    /// What was done until then.
    pub against: Against,
}

/// What guarding against contributors comes to.
#[derive(Drop)]
pub enum Guarded {
    /// With these cells hidden too, every primary cell is open to both sides by its levels against each contributor that
    /// doesn't know it.
    Guards(Extra),
    /// Not even all cells that may be hidden guard this cell to this side against this contributor.
    CannotAgainst {
        row: u32,
        cell: u32,
        side: Side,
        /// Multipliers that refute it with all cells hidden that may be but those that the contributor knows.
        multipliers: Multipliers,
    },
}
