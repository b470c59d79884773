use sdc_base::Side;
use worlds::Multipliers;

/// What a contributor could try: to learn a primary cell that it doesn't know, from one side.
#[derive(Clone, Copy)]
pub struct Attack {
    /// The place of the contributor's row, from 0.
    pub row: u32,
    /// The number of the primary cell.
    pub cell: u32,
    /// The side to which the cell is to be open.
    pub side: Side,
}

/// An attack against which not even all cells guard that may be hidden.
#[derive(Drop)]
pub struct UnguardedAttack {
    /// What the contributor could try.
    pub attack: Attack,
    /// Multipliers that refute the cell's level to that side with all cells hidden that may be but those that the
    /// contributor knows.
    pub multipliers: Multipliers,
}
