use sdc_base::Items;

/// Whole numbers by which the forms of relations are added up against a cell.
#[derive(Drop)]
pub struct Multipliers {
    /// How many times the cell itself counts.
    pub den: i128,
    /// The number of a relation with its multiplier, ascending by relations and none of 0; a relation without one has
    /// 0.
    pub by_relation: Items<(u32, i128)>,
}
