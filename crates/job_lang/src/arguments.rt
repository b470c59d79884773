ghost use Rattle.std.specs.Prelude.{◌≡◌, ◌≤◌, ◌<◌, ◌^◌, IfOk};
ghost use Rattle.std.specs.List.{list_any};
ghost use Rattle.sdc_base.specs.Answers.{Gives};
ghost use Rattle.plain_text.specs.Stops.{why_of};
ghost use Rattle.job_lang.specs.Faults.{fault_itself};
ghost use Rattle.job_lang.specs.Arguments as spec;
ghost use Rattle.job_lang.specs.MethodTexts as method_texts;

use crate::cursor::{Cursor, at_front};
use crate::faults::JobWhy;
use crate::keywords::spells;
use crate::rule_texts::one_number;
use crate::rules::rules_in;
use crate::statement::{Instruction, Keyword};
use crate::table_texts::table_argument;
use cost_rule::CostKind;
use plain_text::{Stop, is_blank_byte, is_file_name};
use sdc_base::{Method, Text};
use std::alloc::Global;

// The greatest number of steps or nodes.
const MOST_WORK: u64 = 1_000_000_000_000;
// The greatest depth; no code of a tree is deeper.
const MOST_DEPTH: u64 = 9;

/// What the text behind a command says.
#[tactic(auto, unfolding(crate::specs::Arguments::argument_of))]
pub(crate) fn argument_of(
    alloc: Global,
    keyword: Keyword,
    text: &[u8],
) -> Result<Instruction, Stop<JobWhy>>
    ensures { Gives why_of (λ said. said) result (spec.argument_of keyword text.now) }
{
    match keyword {
        Keyword::OpenMicrodata => Ok(Instruction::Microdata(only_file(alloc, text)?)),
        Keyword::OpenMetadata => Ok(Instruction::Metadata(only_file(alloc, text)?)),
        Keyword::SpecifyTable => table_argument(alloc, text),
        Keyword::SafetyRule => Ok(Instruction::Safety(rules_in(alloc, text)?)),
        Keyword::ReadMicrodata => nothing_more(text),
        Keyword::Apriori => prior_argument(alloc, text),
        Keyword::Cost => Ok(Instruction::Cost(cost_argument(text).map_err(Stop::Fault)?)),
        Keyword::Steps => Ok(Instruction::Steps(work_argument(text).map_err(Stop::Fault)?)),
        Keyword::Nodes => Ok(Instruction::Nodes(work_argument(text).map_err(Stop::Fault)?)),
        Keyword::Suppress => Ok(Instruction::Suppress(method_argument(text).map_err(Stop::Fault)?)),
        Keyword::WriteTable => output_argument(alloc, text),
        Keyword::Certificate => Ok(Instruction::Certificate(only_file(alloc, text)?)),
        Keyword::Contributors => Ok(Instruction::Contributors(only_file(alloc, text)?)),
        Keyword::Depth => depth_argument(alloc, text),
    }
}

// No token at all.
#[tactic(auto, unfolding(crate::specs::Arguments::argument_of))]
fn nothing_more(text: &[u8]) -> Result<Instruction, Stop<JobWhy>>
    ensures { Gives why_of (λ said. said) result (spec.argument_of Keyword.ReadMicrodata text.now) }
{
    at_front(text).end().map_err(Stop::Fault)?;
    Ok(Instruction::Read)
}

// The next token, which must be a file name in quotes.
#[tactic(auto, unfolding(crate::specs::Arguments::file_at))]
fn file_at<'a>(cursor: &mut Cursor<'a>) -> Result<&'a [u8], JobWhy>
    ensures { Gives fault_itself (λ file. (file.now, cursor.new)) result (spec.file_at cursor.old) }
{
    let name = cursor.quoted_word()?;
    if !is_file_name(name) {
        return Err(JobWhy::BadValue);
    }
    Ok(name)
}

// A file name in quotes, and nothing behind it.
#[tactic(auto, unfolding(crate::specs::Arguments::only_file))]
fn only_file(alloc: Global, text: &[u8]) -> Result<Text, Stop<JobWhy>>
    ensures { Gives why_of (λ file. file) result (spec.only_file text.now) }
{
    let mut cursor = at_front(text);
    let file = file_at(&mut cursor).map_err(Stop::Fault)?;
    cursor.end().map_err(Stop::Fault)?;
    Ok(Text::from_slice(alloc, file)?)
}

// No digit, point, quote, blank or CR.
fn may_separate(b: u8) -> bool
    ensures { result ≡ spec.may_separate b }
{
    !(b.is_ascii_digit() || b == b'.' || b == b'"' || is_blank_byte(b) || b == b'\r')
}

// One byte that may separate fields.
fn separator_of(word: &[u8]) -> Option<u8>
    ensures { result ≡ spec.separator_of word.now }
{
    if word.len() != 1 {
        return None;
    }
    let b = word[0];
    if may_separate(b) { Some(b) } else { None }
}

// A file, the number of its table and its separator.
#[tactic(auto, unfolding(crate::specs::Arguments::prior_argument))]
fn prior_argument(alloc: Global, text: &[u8]) -> Result<Instruction, Stop<JobWhy>>
    ensures { Gives why_of (λ said. said) result (spec.prior_argument text.now) }
{
    let mut cursor = at_front(text);
    let file = file_at(&mut cursor).map_err(Stop::Fault)?;
    cursor.mark(b',').map_err(Stop::Fault)?;
    let number = cursor.digits().map_err(Stop::Fault)?;
    cursor.mark(b',').map_err(Stop::Fault)?;
    let word = cursor.quoted_word().map_err(Stop::Fault)?;
    let Some(separator) = separator_of(word) else {
        return Err(Stop::Fault(JobWhy::BadValue));
    };
    cursor.end().map_err(Stop::Fault)?;
    let file = Text::from_slice(alloc, file)?;
    let number = Text::from_slice(alloc, number)?;
    Ok(Instruction::Prior {
        file,
        number,
        separator,
    })
}

// The number of a table and its file.
#[tactic(auto, unfolding(crate::specs::Arguments::output_argument))]
fn output_argument(alloc: Global, text: &[u8]) -> Result<Instruction, Stop<JobWhy>>
    ensures { Gives why_of (λ said. said) result (spec.output_argument text.now) }
{
    let mut cursor = at_front(text);
    cursor.mark(b'(').map_err(Stop::Fault)?;
    let number = cursor.digits().map_err(Stop::Fault)?;
    cursor.mark(b',').map_err(Stop::Fault)?;
    let file = file_at(&mut cursor).map_err(Stop::Fault)?;
    cursor.close().map_err(Stop::Fault)?;
    let number = Text::from_slice(alloc, number)?;
    let file = Text::from_slice(alloc, file)?;
    Ok(Instruction::Output { number, file })
}

// The number of a table, one of its variables and the depth of that.
#[tactic(auto, unfolding(crate::specs::Arguments::depth_argument))]
fn depth_argument(alloc: Global, text: &[u8]) -> Result<Instruction, Stop<JobWhy>>
    ensures { Gives why_of (λ said. said) result (spec.depth_argument text.now) }
{
    let mut cursor = at_front(text);
    cursor.mark(b'(').map_err(Stop::Fault)?;
    let number = cursor.digits().map_err(Stop::Fault)?;
    cursor.mark(b',').map_err(Stop::Fault)?;
    let variable = cursor.quoted_word().map_err(Stop::Fault)?;
    cursor.mark(b',').map_err(Stop::Fault)?;
    let depth = cursor.number(1, MOST_DEPTH).map_err(Stop::Fault)?;
    cursor.close().map_err(Stop::Fault)?;
    let number = Text::from_slice(alloc, number)?;
    let variable = Text::from_slice(alloc, variable)?;
    Ok(Instruction::Depth {
        number,
        variable,
        depth: depth as u32,
    })
}

// The kind of cost of a word, in letters of any case.
#[tactic(auto, unfolding(crate::specs::Arguments::cost_of))]
fn cost_of(word: &[u8]) -> Option<CostKind>
    ensures { result ≡ spec.cost_of word.now }
{
    if spells(word, b"VALUE") {
        return Some(CostKind::Value);
    }
    if spells(word, b"FREQ") {
        return Some(CostKind::Freq);
    }
    if spells(word, b"UNIT") {
        return Some(CostKind::One);
    }
    None
}

// A kind of cost, and nothing behind it.
#[tactic(auto, unfolding(crate::specs::Arguments::cost_argument))]
fn cost_argument(text: &[u8]) -> Result<CostKind, JobWhy>
    ensures { Gives fault_itself (λ one. one) result (spec.cost_argument text.now) }
{
    let mut cursor = at_front(text);
    let Some(cost) = cost_of(cursor.run()) else {
        return Err(JobWhy::BadValue);
    };
    cursor.end()?;
    Ok(cost)
}

// A number of steps or nodes, and nothing behind it.
#[tactic(auto, unfolding(crate::specs::Arguments::work_argument))]
fn work_argument(text: &[u8]) -> Result<u64, JobWhy>
    ensures { Gives fault_itself (λ number. number) result (spec.work_argument text.now) }
{
    let mut cursor = at_front(text);
    let number = cursor.number(1, MOST_WORK)?;
    cursor.end()?;
    Ok(number)
}

// The passes of GH.
#[tactic(auto, unfolding(crate::specs::MethodTexts::passes_method))]
fn passes_method(cursor: &mut Cursor) -> Result<Method, JobWhy>
    ensures { Gives fault_itself (λ one. one) result (method_texts.passes_method cursor.old) }
{
    let n = one_number(1, 8, cursor)?;
    Ok(Method::Gh(n as u32))
}

// The empty parentheses of MOD.
#[tactic(auto, unfolding(crate::specs::MethodTexts::modular_method))]
fn modular_method(cursor: &mut Cursor) -> Result<Method, JobWhy>
    ensures { Gives fault_itself (λ one. one) result (method_texts.modular_method cursor.old) }
{
    cursor.mark(b'(')?;
    cursor.close()?;
    Ok(Method::Modular)
}

// The base of RND.
#[tactic(auto, unfolding(crate::specs::MethodTexts::rounding_method))]
fn rounding_method(cursor: &mut Cursor) -> Result<Method, JobWhy>
    ensures { Gives fault_itself (λ one. one) result (method_texts.rounding_method cursor.old) }
{
    let base = one_number(1, 1_000_000_000, cursor)?;
    Ok(Method::Rnd(base as i128))
}

// How tables are protected, its word in letters of any case.
#[tactic(auto, unfolding(crate::specs::MethodTexts::method_argument))]
fn method_argument(text: &[u8]) -> Result<Method, JobWhy>
    ensures { Gives fault_itself (λ one. one) result (method_texts.method_argument text.now) }
{
    let mut cursor = at_front(text);
    let word = cursor.run();
    if spells(word, b"GH") {
        return passes_method(&mut cursor);
    }
    if spells(word, b"MOD") {
        return modular_method(&mut cursor);
    }
    if spells(word, b"RND") {
        return rounding_method(&mut cursor);
    }
    Err(JobWhy::BadValue)
}
