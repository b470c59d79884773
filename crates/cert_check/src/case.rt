use linked_tables::Book;
use sdc_base::{Cell, Items, Method, System, Text, Trail};

/// What a release and its certificate are judged by.
#[derive(Clone, Copy)]
pub struct Case<'a> {
    /// The tables, each mark with its cell's truth.
    pub book: &'a Book,
    /// The relations of the tables' cells.
    pub system: &'a System,
    /// The cells, in the order of their numbers.
    pub cells: &'a [Cell],
    /// The trail that the method makes; unused where it rounds.
    pub trail: &'a Trail,
    /// The method of the job.
    pub method: Method,
    /// The base in units; unused where the method doesn't round.
    pub base: i128,
    /// For each table the names of its variables and of the response.
    pub names: &'a [Items<Text>],
    /// The decimals of a unit, at most 13.
    pub decimals: u8,
}
