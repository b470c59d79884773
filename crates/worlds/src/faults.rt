use sdc_base::Side;

/// Why something is no world for a hidden set.
#[derive(Clone, Copy, Debug, PartialEq, Eq)]
pub enum WorldFault {
    /// The denominator is below 1.
    Den,
    /// The move at this place isn't ascending, names no cell or is 0.
    Order(u32),
    /// This cell is shown, and moves.
    Shown(u32),
    /// This cell's value is outside its bounds.
    Bound(u32),
    /// This relation doesn't hold.
    Relation(u32),
}

/// Why multipliers are no refutation of a cell's level to a side.
#[derive(Clone, Copy, Debug, PartialEq, Eq)]
pub enum RefutationFault {
    /// The denominator is below 1.
    Den,
    /// The multiplier at this place isn't ascending, names no relation or is 0.
    Order(u32),
    /// A number at this cell leaves 128 bits.
    Wide(u32),
    /// This hidden cell has a coefficient above 0 and no upper bound.
    Unbounded(u32),
    /// The bound sum isn't below the level.
    NotBelow,
}

/// Why a hidden set with worlds isn't shown to protect every primary cell.
#[derive(Clone, Copy, Debug, PartialEq, Eq)]
pub enum ProtectFault {
    /// This primary cell is shown.
    PrimaryShown(u32),
    /// This fixed cell is hidden.
    FixedHidden(u32),
    /// There aren't two worlds for each primary cell.
    Count,
    /// The world with this number, from 0, has a fault.
    World(u32, WorldFault),
    /// The world for this cell and side doesn't move it by its level.
    NotReached(u32, Side),
}
