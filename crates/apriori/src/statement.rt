use crate::prior::Status;
use sdc_base::Levels;

/// What is the same for all lines of a table's file: the table, the byte between fields, and how many decimals a unit
/// has.
#[derive(Clone, Copy)]
pub(crate) struct Form {
    pub(crate) table: u32,
    pub(crate) separator: u8,
    pub(crate) decimals: u8,
}

/// What an attacker knows that a cell is at least and at most, in units.
#[derive(Clone, Copy)]
pub(crate) struct Bounds {
    pub(crate) low: i128,
    pub(crate) high: i128,
}

/// What a line claims of a cell.
#[derive(Clone, Copy)]
pub(crate) enum Claim {
    Declared(Status),
    Shown,
    Price(u64),
    Open(Levels),
    Between(Bounds),
}

/// What a line states: its number, the cell, and what is claimed of the cell.
#[derive(Clone, Copy)]
pub(crate) struct Statement {
    pub(crate) line: u32,
    pub(crate) cell: u32,
    pub(crate) claim: Claim,
}
