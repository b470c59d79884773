use sdc_base::{Items, Text};

/// The keywords of metadata.
#[derive(Clone, Copy, Debug, PartialEq, Eq)]
pub(crate) enum Keyword {
    Recodeable,
    Recodable,
    Numeric,
    Decimals,
    Weight,
    CodeList,
    Hierarchical,
    HierLevels,
    HierCodeList,
    HierLeadString,
    TotCode,
    Request,
    Holding,
    Distance,
}

/// What stands behind a keyword.
#[derive(Drop)]
pub(crate) enum Argument {
    Nothing,
    Number(u8),
    Word(Text),
    Levels(Items<u8>),
}

/// A keyword line: its keyword and what stands behind it.
#[derive(Drop)]
pub(crate) struct Setting {
    pub(crate) keyword: Keyword,
    pub(crate) argument: Argument,
}
