use code_trees::CodeTree;
use sdc_base::{Items, Row};

/// The records of microdata, with a code tree for each spanning variable.
#[derive(Drop)]
pub struct Records {
    /// The trees of the spanning variables, in metadata order.
    pub trees: Items<CodeTree>,
    /// The records that weren't skipped, in their order, each with the places of its codes in these trees.
    pub rows: Items<Row>,
    /// How many records were skipped, since they have no response.
    pub skipped: u64,
}
