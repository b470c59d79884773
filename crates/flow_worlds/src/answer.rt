use worlds::{Multipliers, World};

/// How far a hidden cell can go in whole worlds.
#[derive(Drop)]
pub enum FlowAnswer {
    /// In this world, whose denominator is 1, the cell lies exactly at the target.
    Reaches(World),
    /// No world takes the cell as far as the target.
    Stops {
        /// How far it can be taken, in units.
        best: i128,
        /// A world that takes it so far, whose denominator is 1.
        world: World,
        /// Multipliers that show that none takes it further: 1 or -1 for each relation, with the denominator 1.
        multipliers: Multipliers,
    },
}
