use cost_rule::CostKind;
use sdc_base::{Items, Method, Rules, Text};

/// A job: which files are read, which tables are made and how, and which files are put.
#[derive(Drop)]
pub struct Job {
    /// The microdata file.
    pub micro: Text,
    /// The metadata file.
    pub meta: Text,
    /// The tables in the order of their lines, 1 to 8, all of one response.
    pub tables: Items<TableLine>,
    /// The primary rules.
    pub rules: Rules,
    /// The line of the rules, from 1.
    pub rules_line: u32,
    /// The a priori files in the order of their lines, at most one for each table.
    pub priors: Items<PriorLine>,
    /// What the cost of a cell goes by; its value where the job says nothing.
    pub cost: CostKind,
    /// The most steps of a question, 1 to 10^12; 100,000 where the job says nothing.
    pub steps: u64,
    /// The most nodes of a search for a rounding, 1 to 10^12; 1,000,000 where the job says nothing.
    pub nodes: u64,
    /// How the tables are protected.
    pub method: Method,
    /// The files of the tables, one for each in the order of the tables.
    pub outputs: Items<OutputLine>,
    /// The file of the certificate.
    pub certificate: Text,
    /// The line of the certificate, from 1.
    pub certificate_line: u32,
    /// The file of the extra cells against contributors, where they are wanted; a job that rounds has none.
    pub contributors: Option<OutputLine>,
    /// The depths of variables in tables, in the order of their lines, at most one for each variable of a table.
    pub depths: Items<DepthLine>,
}

/// A table as a line of the job specifies it.
#[derive(Drop)]
pub struct TableLine {
    /// The line, from 1.
    pub line: u32,
    /// The names of the variables that span the table, 1 to 6, none twice.
    pub variables: Items<Text>,
    /// The name of the variable that is summed.
    pub response: Text,
}

/// An a priori file of a table.
#[derive(Drop)]
pub struct PriorLine {
    /// The line, from 1.
    pub line: u32,
    /// The name of the file.
    pub file: Text,
    /// The number of the table, from 0.
    pub table: u32,
    /// The byte between the fields of the file.
    pub separator: u8,
}

/// A file to be put, as a line of the job names it.
#[derive(Drop)]
pub struct OutputLine {
    /// The line, from 1.
    pub line: u32,
    /// The name of the file.
    pub file: Text,
}

/// How far down a table takes the tree of one of its variables.
#[derive(Drop)]
pub struct DepthLine {
    /// The line, from 1.
    pub line: u32,
    /// The number of the table, from 0.
    pub table: u32,
    /// The name of the variable, which spans that table.
    pub variable: Text,
    /// The depth, 1 to 9: the steps from the total down to the last codes that the table has.
    pub depth: u32,
}
