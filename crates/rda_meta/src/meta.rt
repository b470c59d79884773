use sdc_base::{Items, Text};

/// The metadata of a microdata file.
#[derive(Drop)]
pub struct Meta {
    /// The variables in the order of their lines, at most 64, each with a name of its own.
    pub variables: Items<Variable>,
    /// How many keyword lines were read and passed over: `<REQUEST>`, `<HOLDING>` and `<DISTANCE>`.
    pub passed_over: u32,
}

/// A variable of the microdata: where its field stands in a record, and what its bytes mean.
#[derive(Drop)]
pub struct Variable {
    /// 1 to 64 bytes.
    pub name: Text,
    /// The position of the field's first byte in a record, from 1.
    pub first: u32,
    /// The bytes of the field, 1 to 255. Its last one stands at position 1,000 at most.
    pub width: u32,
    /// The codes that say that a record has no answer, at most two, without blanks at their ends.
    pub missing: Items<Text>,
    /// Whether the field is a number; a weight is one.
    pub numeric: bool,
    /// Whether it is the weight of a record. At most one variable is.
    pub weight: bool,
    /// The digits behind the point, 0 to 9; 0 where no line says so, and at most 4 for a weight.
    pub decimals: u8,
    /// The code of the total; `Total` where no line says so.
    pub total: Text,
    /// The file with the list of codes, where there is one.
    pub codes: Option<Text>,
    /// How the codes are arranged below the total.
    pub shape: Shape,
}

/// How the codes of a variable are arranged.
#[derive(Drop)]
pub enum Shape {
    /// Each code stands right below the total.
    Flat,
    /// The bytes of a code per level, from the front: 1 to 9 numbers from 1, which make up the width.
    Levels(Items<u8>),
    /// A hierarchy file has the codes, and `lead` at the front of a line takes it one level down;
    /// `@` where no line says so.
    Listed { file: Text, lead: Text },
}
