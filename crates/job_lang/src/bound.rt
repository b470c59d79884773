use sdc_base::{Dimensions, Items, Place};

/// A job's variables, looked up in the metadata.
#[derive(Drop)]
pub struct Bound {
    /// The variables that span the tables, as places in the metadata, ascending; at most 8.
    pub spanning: Place,
    /// For each table its variables in their order, as places in `spanning`, each with the depth to which the table
    /// takes its tree: 9, which no tree exceeds, where the job says none.
    pub tables: Items<Dimensions>,
    /// The response, as a place in the metadata.
    pub response: u32,
    /// The weight, as a place in the metadata, where records have weights.
    pub weight: Option<u32>,
    /// The digits behind the point of a unit: those of the response and, where records have weights, of the weight.
    pub decimals: u8,
    /// The steps of weight 1: 10 to the weight's digits behind the point, and 1 where records have no weights.
    pub scale: u32,
}
