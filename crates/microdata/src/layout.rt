use code_trees::CodeTree;
use sdc_base::{Items, Text};

/// Where the fields of a record stand, and what their bytes mean. Positions count from 1, in bytes.
#[derive(Drop)]
pub struct Layout {
    /// The spanning variables in metadata order, at most eight.
    pub spanning: Items<Field>,
    /// The response.
    pub response: NumberField,
    /// The weight, where records have one.
    pub weight: Option<NumberField>,
    /// How many bytes a record must have, at most 1,000: as many as the greatest last position of these fields.
    pub needed: u32,
}

/// The field of a spanning variable.
#[derive(Drop)]
pub struct Field {
    /// The position of its first byte, from 1.
    pub first: u32,
    /// How many bytes it has, from 1.
    pub width: u32,
    /// Where its codes come from.
    pub source: Source,
}

/// Where the codes of a spanning variable come from.
#[derive(Drop)]
pub enum Source {
    /// A tree that was read has them all.
    Listed(CodeTree),
    /// The records bring them, and their levels are in their digits: 1 to 9 widths, each above 0.
    Levels { widths: Items<u8>, total: Text },
    /// A list has the first of them, distinct, at most 5,000 and none of them the total; the records bring
    /// further ones.
    Flat { codes: Items<Text>, total: Text },
}

/// The field of a number.
#[derive(Drop)]
pub struct NumberField {
    /// The position of its first byte, from 1.
    pub first: u32,
    /// How many bytes it has, from 1.
    pub width: u32,
    /// How many digits stand after the point at most: 9 for a response, 4 for a weight.
    pub decimals: u8,
    /// The codes that say that a record has no response, without blanks at their ends.
    pub missing: Items<Text>,
}

/// What the numbers of a record are read by.
#[derive(Drop)]
pub(crate) struct Measures {
    pub response: NumberField,
    pub weight: Option<NumberField>,
    pub needed: u32,
}
