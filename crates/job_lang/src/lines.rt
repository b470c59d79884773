ghost use Rattle.std.specs.Prelude.{◌≡◌, ◌<◌, ◌^◌, length, IfOk, OnOk};
ghost use Rattle.std.specs.List.{list_any};
ghost use Rattle.sdc_base.specs.Answers.{Gives};
ghost use Rattle.sdc_base.specs.Blanks as blanks_specs;
ghost use Rattle.sdc_base.specs.Lines as lines_specs;
ghost use Rattle.plain_text.specs.Stops.{why_of};
ghost use Rattle.job_lang.specs.Faults.{job_fault_of, at_line};
ghost use Rattle.job_lang.specs.Statements.{lines_say, empty_draft};
ghost use Rattle.job_lang.specs.Statements as statements;

use crate::arguments::argument_of;
use crate::faults::{JobError, JobWhy, error_at};
use crate::job::TableLine;
use crate::keywords::{keyword_of, word_in};
use crate::statement::{Draft, Instruction, Keyword, Statement};
use crate::texts::{add_texts, distinct_count};
use plain_text::{Stop, lines, trim};
use sdc_base::{Items, Memory, Text};
use std::alloc::Global;

// The most tables of a job, and the most different variables that span them.
const MOST_TABLES: usize = 8;

const MOST_VARIABLES: usize = 8;

/// What all lines say.
pub(crate) fn read_lines(alloc: Global, bytes: &[u8]) -> Result<Draft, JobError>
    requires { length bytes.now < 2 ^ 32 }
    ensures { Gives job_fault_of (λ draft. draft) result (lines_say 0 empty_draft (lines_specs.lines bytes.now)) }
{
    let mut reader = lines(bytes);
    let mut draft = Draft {
        tables: Items::empty(alloc),
        said: Items::empty(alloc),
    };
    'each: while let Some(line) = reader.next_line() {
        read_line(alloc, line.number as u32, line.text, &mut draft)?;
    }
    Ok(draft)
}

// Takes in what the line with this number says.
#[tactic(auto, using(crate::proofs::LineSteps::fails_at))]
fn read_line(alloc: Global, line: u32, text: &[u8], draft: &mut Draft) -> Result<(), JobError>
    ensures { Gives job_fault_of (λ _. draft.new) result
        (at_line line (statements.text_says line draft.old (blanks_specs.trim text.now))) }
{
    match text_says(alloc, line, trim(text), draft) {
        Ok(()) => Ok(()),
        Err(error) => Err(error_at(line, error)),
    }
}

// What the bytes of a line say, without blanks at their ends.
#[tactic(auto, unfolding(crate::specs::Statements::text_says))]
fn text_says(alloc: Global, line: u32, text: &[u8], draft: &mut Draft) -> Result<(), Stop<JobWhy>>
    ensures { Gives why_of (λ _. draft.new) result (statements.text_says line draft.old text.now) }
{
    if is_passed_over(text) {
        return Ok(());
    }
    command_line(alloc, line, text, draft)
}

// Whether it is a blank line, or one that begins with two slashes.
fn is_passed_over(text: &[u8]) -> bool
    ensures { result ≡ statements.is_passed_over text.now }
{
    if text.is_empty() {
        return true;
    }
    if text.len() < 2 {
        return false;
    }
    text[0] == b'/' && text[1] == b'/'
}

// A command and its argument.
#[tactic(auto, unfolding(crate::specs::Statements::command_line))]
fn command_line(
    alloc: Global,
    line: u32,
    text: &[u8],
    draft: &mut Draft,
) -> Result<(), Stop<JobWhy>>
    ensures { Gives why_of (λ _. draft.new) result (statements.command_line line draft.old text.now) }
{
    let (word, rest) = word_in(text).map_err(Stop::Fault)?;
    let Some(keyword) = keyword_of(word) else {
        return Err(Stop::Fault(JobWhy::UnknownCommand));
    };
    let said = argument_of(alloc, keyword, rest)?;
    take_said(alloc, line, draft, said)
}

// What is said goes to the tables, or to the rest.
#[tactic(auto, unfolding(crate::specs::Statements::with_said))]
fn take_said(
    alloc: Global,
    line: u32,
    draft: &mut Draft,
    said: Instruction,
) -> Result<(), Stop<JobWhy>>
    ensures { Gives why_of (λ _. draft.new) result (statements.with_said line draft.old said) }
{
    match said {
        Instruction::Table {
            variables,
            response,
        } => take_table(alloc, line, draft, variables, response),
        other => take_statement(line, draft, other),
    }
}

// One table more.
#[tactic(auto, unfolding(crate::specs::Statements::with_table))]
fn take_table(
    alloc: Global,
    line: u32,
    draft: &mut Draft,
    variables: Items<Text>,
    response: Text,
) -> Result<(), Stop<JobWhy>>
    ensures { Gives why_of (λ _. draft.new) result (statements.with_table line draft.old variables response) }
{
    if is_past_room(alloc, variables.as_slice(), draft.tables.as_slice())? {
        return Err(Stop::Fault(JobWhy::TooMany));
    }
    if is_other_response(&response, draft.tables.as_slice()) {
        return Err(Stop::Fault(JobWhy::OtherResponse));
    }
    draft.tables.push(TableLine {
        line,
        variables,
        response,
    })?;
    Ok(())
}

// The names of all variables of tables.
fn names_in(alloc: Global, tables: &[TableLine]) -> Result<Items<Text>, Memory>
    ensures { IfOk result (λ names. names ≡ statements.names_in tables.now) }
{
    let mut names = Items::empty(alloc);
    for table in tables {
        add_texts(alloc, &mut names, table.variables.as_slice())?;
    }
    Ok(names)
}

// Whether this table is one too many, or its variables are.
fn is_past_room(alloc: Global, variables: &[Text], tables: &[TableLine]) -> Result<bool, Memory>
    ensures { IfOk result (λ past. past ≡ statements.is_past_room variables.now tables.now) }
{
    if tables.len() >= MOST_TABLES {
        return Ok(true);
    }
    let mut names = names_in(alloc, tables)?;
    add_texts(alloc, &mut names, variables)?;
    Ok(distinct_count(names.as_slice()) > MOST_VARIABLES)
}

// Whether the first table has another response.
fn is_other_response(response: &Text, tables: &[TableLine]) -> bool
    ensures { result ≡ statements.is_other_response response.now tables.now }
{
    let Some(first) = tables.first() else {
        return false;
    };
    !first.response.equals(response)
}

// One statement more.
#[tactic(auto, unfolding(crate::specs::Statements::with_statement))]
fn take_statement(line: u32, draft: &mut Draft, said: Instruction) -> Result<(), Stop<JobWhy>>
    ensures { Gives why_of (λ _. draft.new) result (statements.with_statement line draft.old said) }
{
    if is_again(&said, draft.said.as_slice()) {
        return Err(Stop::Fault(JobWhy::Twice));
    }
    draft.said.push(Statement { line, said })?;
    Ok(())
}

// The command by which it is said.
fn command_of(said: &Instruction) -> Keyword
    ensures { result ≡ statements.command_of said.now }
{
    match said {
        Instruction::Microdata(_) => Keyword::OpenMicrodata,
        Instruction::Metadata(_) => Keyword::OpenMetadata,
        Instruction::Table { .. } => Keyword::SpecifyTable,
        Instruction::Safety(_) => Keyword::SafetyRule,
        Instruction::Read => Keyword::ReadMicrodata,
        Instruction::Prior { .. } => Keyword::Apriori,
        Instruction::Cost(_) => Keyword::Cost,
        Instruction::Steps(_) => Keyword::Steps,
        Instruction::Nodes(_) => Keyword::Nodes,
        Instruction::Suppress(_) => Keyword::Suppress,
        Instruction::Output { .. } => Keyword::WriteTable,
        Instruction::Certificate(_) => Keyword::Certificate,
        Instruction::Contributors(_) => Keyword::Contributors,
        Instruction::Depth { .. } => Keyword::Depth,
    }
}

/// Whether it is said by this command.
pub(crate) fn is_by(keyword: Keyword, said: &Instruction) -> bool
    ensures { result ≡ statements.is_by keyword said.now }
{
    command_of(said) == keyword
}

// Whether it is an a priori file of the table with these digits.
fn is_prior_of(number: &Text, said: &Instruction) -> bool
    ensures { result ≡ statements.is_prior_of number.now said.now }
{
    match said {
        Instruction::Prior { number: other, .. } => other.equals(number),
        _ => false,
    }
}

// Whether it is an output of the table with these digits.
fn is_output_of(number: &Text, said: &Instruction) -> bool
    ensures { result ≡ statements.is_output_of number.now said.now }
{
    match said {
        Instruction::Output { number: other, .. } => other.equals(number),
        _ => false,
    }
}

// Whether it is a depth of this variable in the table with these digits.
fn is_depth_of(number: &Text, variable: &Text, said: &Instruction) -> bool
    ensures { result ≡ statements.is_depth_of number.now variable.now said.now }
{
    match said {
        Instruction::Depth {
            number: other,
            variable: name,
            ..
        } => other.equals(number) && name.equals(variable),
        _ => false,
    }
}

// Whether the table with these digits has an a priori file.
fn has_prior(number: &Text, before: &[Statement]) -> bool
    ensures { result ≡ list_any (λ s. statements.is_prior_of number.now s.said) before.now }
{
    before.iter().any(|s| is_prior_of(number, &s.said))
}

// Whether the table with these digits has an output.
fn has_output(number: &Text, before: &[Statement]) -> bool
    ensures { result ≡ list_any (λ s. statements.is_output_of number.now s.said) before.now }
{
    before.iter().any(|s| is_output_of(number, &s.said))
}

// Whether this variable has a depth in the table with these digits.
fn has_depth(number: &Text, variable: &Text, before: &[Statement]) -> bool
    ensures { result ≡ list_any (λ s. statements.is_depth_of number.now variable.now s.said) before.now }
{
    before
        .iter()
        .any(|s| is_depth_of(number, variable, &s.said))
}

// Whether something is said by this command.
fn has_command(keyword: Keyword, before: &[Statement]) -> bool
    ensures { result ≡ list_any (λ s. statements.is_by keyword s.said) before.now }
{
    before.iter().any(|s| is_by(keyword, &s.said))
}

// Whether it is said before.
fn is_again(said: &Instruction, before: &[Statement]) -> bool
    ensures { result ≡ statements.is_again said.now before.now }
{
    match said {
        Instruction::Table { .. } => false,
        Instruction::Prior { number, .. } => has_prior(number, before),
        Instruction::Output { number, .. } => has_output(number, before),
        Instruction::Depth {
            number,
            variable,
            ..
        } => has_depth(number, variable, before),
        _ => has_command(command_of(said), before),
    }
}
