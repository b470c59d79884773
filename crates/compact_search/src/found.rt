// What a question comes to.
use crate::lists::MoveLists;
use sdc_base::Fraction;
use worlds::{Multipliers, World};

/// Where a blocked table stops: nothing takes the asked cell further to its side.
#[derive(Drop)]
pub struct Stop {
    /// How far the cell is moved to its side.
    pub best: Fraction,
    /// The world that takes it there.
    pub world: World,
    /// The multipliers of the system's relations that say that no world takes it further.
    pub multipliers: Multipliers,
    /// The lists of the cells' moves and the relations' weights that show it, unless the search is for ends alone.
    pub lists: Option<MoveLists>,
}

/// What a search finds, unchecked.
#[derive(Drop)]
pub enum Found {
    /// A world that takes the asked cell to the target, exactly there where the target is above 0.
    Reaches(World),
    /// The furthest world, short of the target.
    Stops(Stop),
}
