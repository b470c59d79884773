ghost use Rattle.std.specs.Prelude.{◌≡◌, ◌≤◌, ◌<◌, ◌+◌, IfOk, find, length};
ghost use Rattle.std.specs.Option.{option_copied};
ghost use Rattle.job_lang.specs.Statements as statements;
ghost use Rattle.job_lang.specs.ClosingLooks as closing_looks;

use crate::job::{DepthLine, OutputLine, PriorLine};
use crate::lines::is_by;
use crate::statement::{Instruction, Keyword, Statement};
use cost_rule::CostKind;
use plain_text::number_in;
use sdc_base::{Items, Memory, Method, Rules, Text};
use std::alloc::Global;

/// The rules of a job with their line.
#[derive(Drop)]
pub(crate) struct RulesLine {
    pub(crate) line: u32,
    pub(crate) rules: Rules,
}

/// The statement by this command.
pub(crate) fn statement_by(keyword: Keyword, all: &[Statement]) -> Option<&Statement>
    ensures { option_copied result ≡ closing_looks.statement_by keyword all.now }
{
    'all: for statement in all {
        if is_by(keyword, &statement.said) {
            return Some(statement);
        }
    }
    None
}

// Whether it is an output of the table at this place, from 0.
fn is_output_at(place: usize, said: &Instruction) -> bool
    requires { place < 8 }
    ensures { result ≡ closing_looks.is_output_at place said.now }
{
    let number = place as u64 + 1;
    match said {
        Instruction::Output { number: digits, .. } => {
            number_in(number, number, digits.as_slice()).is_some()
        }
        _ => false,
    }
}

/// The statement of the output of the table at this place, from 0.
pub(crate) fn output_said(place: usize, all: &[Statement]) -> Option<&Statement>
    requires { place < 8 }
    ensures { option_copied result ≡ closing_looks.output_said place all.now }
{
    'all: for statement in all {
        if is_output_at(place, &statement.said) {
            return Some(statement);
        }
    }
    None
}

// The file of a command that names one alone, or of an output.
fn file_said(said: &Instruction) -> Option<&Text>
    ensures { option_copied result ≡ closing_looks.file_said said.now }
{
    match said {
        Instruction::Microdata(file) => Some(file),
        Instruction::Metadata(file) => Some(file),
        Instruction::Certificate(file) => Some(file),
        Instruction::Contributors(file) => Some(file),
        Instruction::Output { file, .. } => Some(file),
        _ => None,
    }
}

/// That file with its line.
pub(crate) fn file_line(
    alloc: Global,
    statement: Option<&Statement>,
) -> Result<Option<OutputLine>, Memory>
    ensures { IfOk result (λ line. line ≡ closing_looks.file_line (option_copied statement.entry)) }
{
    let Some(statement) = statement else {
        return Ok(None);
    };
    let Some(file) = file_said(&statement.said) else {
        return Ok(None);
    };
    let file = file.copy(alloc)?;
    Ok(Some(OutputLine {
        line: statement.line,
        file,
    }))
}

// A copy of rules, which takes no memory.
fn copy_rules(rules: &Rules) -> Rules
    ensures { result ≡ rules.now }
{
    Rules {
        list: rules.list.copy(),
        man: rules.man,
        weighted: rules.weighted,
    }
}

/// The rules with their line.
pub(crate) fn rules_line(statement: Option<&Statement>) -> Option<RulesLine>
    ensures { result ≡ closing_looks.rules_line (option_copied statement.entry) }
{
    let statement = statement?;
    match &statement.said {
        Instruction::Safety(rules) => Some(RulesLine {
            line: statement.line,
            rules: copy_rules(rules),
        }),
        _ => None,
    }
}

/// The method.
pub(crate) fn method_of(statement: Option<&Statement>) -> Option<Method>
    ensures { result ≡ closing_looks.method_of (option_copied statement.entry) }
{
    match &statement?.said {
        Instruction::Suppress(method) => Some(*method),
        _ => None,
    }
}

/// The kind of cost, its value where nothing else is said.
pub(crate) fn cost_of(statement: Option<&Statement>) -> CostKind
    ensures { result ≡ closing_looks.cost_of (option_copied statement.entry) }
{
    let Some(statement) = statement else {
        return CostKind::Value;
    };
    match &statement.said {
        Instruction::Cost(cost) => *cost,
        _ => CostKind::Value,
    }
}

/// The number of steps or nodes, or else this one.
pub(crate) fn work_of(other: u64, statement: Option<&Statement>) -> u64
    ensures { result ≡ closing_looks.work_of other (option_copied statement.entry) }
{
    let Some(statement) = statement else {
        return other;
    };
    match &statement.said {
        Instruction::Steps(steps) => *steps,
        Instruction::Nodes(nodes) => *nodes,
        _ => other,
    }
}

/// The place of the table with this number, from 0.
pub(crate) fn table_place(number: &Text) -> u32
    ensures { result ≡ closing_looks.table_place number.now }
{
    match number_in(1, 8, number.as_slice()) {
        Some(number) => number as u32 - 1,
        // As the definition has it: a number that isn't 1 to 8 counts as 1.
        None => 0,
    }
}

// An a priori file with its line.
fn prior_line(
    alloc: Global,
    line: u32,
    file: &Text,
    number: &Text,
    separator: u8,
) -> Result<PriorLine, Memory>
    ensures { IfOk result (λ prior. prior
        ≡ record {
          line = line;
          file = file.now;
          table = closing_looks.table_place number.now;
          separator = separator;
        }) }
{
    let file = file.copy(alloc)?;
    Ok(PriorLine {
        line,
        file,
        table: table_place(number),
        separator,
    })
}

/// The a priori files in the order of their lines.
pub(crate) fn priors_in(alloc: Global, all: &[Statement]) -> Result<Items<PriorLine>, Memory>
    ensures { IfOk result (λ lines. lines ≡ closing_looks.priors_in all.now) }
{
    let mut lines = Items::empty(alloc);
    'all: for statement in all {
        if let Instruction::Prior {
            file,
            number,
            separator,
        } = &statement.said
        {
            lines.push(prior_line(alloc, statement.line, file, number, *separator)?)?;
        }
    }
    Ok(lines)
}

// A depth with its line.
fn depth_line(
    alloc: Global,
    line: u32,
    number: &Text,
    variable: &Text,
    depth: u32,
) -> Result<DepthLine, Memory>
    ensures { IfOk result (λ one. one
        ≡ record {
          line = line;
          table = closing_looks.table_place number.now;
          variable = variable.now;
          depth = depth;
        }) }
{
    let variable = variable.copy(alloc)?;
    Ok(DepthLine {
        line,
        table: table_place(number),
        variable,
        depth,
    })
}

/// The depths in the order of their lines.
pub(crate) fn depths_in(alloc: Global, all: &[Statement]) -> Result<Items<DepthLine>, Memory>
    ensures { IfOk result (λ lines. lines ≡ closing_looks.depths_in all.now) }
{
    let mut lines = Items::empty(alloc);
    'all: for statement in all {
        if let Instruction::Depth {
            number,
            variable,
            depth,
        } = &statement.said
        {
            lines.push(depth_line(alloc, statement.line, number, variable, *depth)?)?;
        }
    }
    Ok(lines)
}
