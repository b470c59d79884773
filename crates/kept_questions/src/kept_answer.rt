use worlds::{Multipliers, World};

/// The answer of a kept question.
#[derive(Drop)]
pub enum KeptAnswer {
    /// In this world the cell lies exactly at the target.
    Reaches(World),
    /// No world takes the cell as far as the target, and these are the multipliers of the question's answer.
    Stops(Multipliers),
}
