use crate::job::TableLine;
use cost_rule::CostKind;
use sdc_base::{Items, Method, Rules, Text};

/// The commands of a job.
#[derive(Clone, Copy, Debug, PartialEq, Eq)]
pub(crate) enum Keyword {
    OpenMicrodata,
    OpenMetadata,
    SpecifyTable,
    SafetyRule,
    ReadMicrodata,
    Apriori,
    Cost,
    Steps,
    Nodes,
    Suppress,
    WriteTable,
    Certificate,
    Contributors,
    Depth,
}

/// What a line of a job says. The number of a table is kept by its digits, without zeros in front, since it may be of
/// any size until the tables are counted.
#[derive(Drop)]
pub(crate) enum Instruction {
    Microdata(Text),
    Metadata(Text),
    Table {
        variables: Items<Text>,
        response: Text,
    },
    Safety(Rules),
    Read,
    Prior {
        file: Text,
        number: Text,
        separator: u8,
    },
    Cost(CostKind),
    Steps(u64),
    Nodes(u64),
    Suppress(Method),
    Output {
        number: Text,
        file: Text,
    },
    Certificate(Text),
    Contributors(Text),
    Depth {
        number: Text,
        variable: Text,
        depth: u32,
    },
}

/// What a line of a job says, with the line's number.
#[derive(Drop)]
pub(crate) struct Statement {
    pub(crate) line: u32,
    pub(crate) said: Instruction,
}

/// What the lines so far say: the tables, and all that isn't a table.
#[derive(Drop)]
pub(crate) struct Draft {
    pub(crate) tables: Items<TableLine>,
    pub(crate) said: Items<Statement>,
}
