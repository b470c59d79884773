ghost use Rattle.std.specs.Prelude.{◌≡◌};
ghost use Rattle.std.specs.List.{list_all};
ghost use Rattle.sdc_base.specs.Answers.{Gives};
ghost use Rattle.plain_text.specs.Stops.{why_of};
ghost use Rattle.job_lang.specs.Faults.{fault_itself};
ghost use Rattle.job_lang.specs.Pieces.{pieces};
ghost use Rattle.job_lang.specs.TableTexts.{most_variables, names_up_to};
ghost use Rattle.job_lang.specs.TableTexts as spec;

use crate::cursor::{Cursor, at_front};
use crate::faults::JobWhy;
use crate::pieces::pieces_in;
use crate::statement::Instruction;
use crate::texts::is_twice;
use plain_text::{Stop, trim};
use sdc_base::{Items, Text};
use std::alloc::Global;

// The most variables of a table.
const MOST_VARIABLES: usize = 6;

/// The table that the text behind SPECIFYTABLE states.
#[tactic(auto, unfolding(crate::specs::TableTexts::table_argument))]
pub(crate) fn table_argument(alloc: Global, text: &[u8]) -> Result<Instruction, Stop<JobWhy>>
    ensures { Gives why_of (λ said. said) result (spec.table_argument text.now) }
{
    let mut cursor = at_front(text);
    let variables = variables_at(alloc, &mut cursor)?;
    if variables.as_slice().is_empty() {
        return Err(Stop::Fault(JobWhy::BadValue));
    }
    if is_twice(variables.as_slice()) {
        return Err(Stop::Fault(JobWhy::BadValue));
    }
    cursor.mark(b'|').map_err(Stop::Fault)?;
    let word = cursor.quoted_word().map_err(Stop::Fault)?;
    let rest = behind_again(word, cursor.rest());
    if !are_free_parts(rest) {
        return Err(Stop::Fault(JobWhy::BadValue));
    }
    let response = Text::from_slice(alloc, word)?;
    Ok(Instruction::Table {
        variables,
        response,
    })
}

// The words in quotes that stand next, at most six.
fn variables_at(alloc: Global, cursor: &mut Cursor) -> Result<Items<Text>, Stop<JobWhy>>
    ensures { Gives why_of (λ names. (names, cursor.new)) result (names_up_to most_variables cursor.old) }
{
    let mut names = Items::empty(alloc);
    for k in 0..MOST_VARIABLES {
        if !cursor.is_next(b'"') {
            return Ok(names);
        }
        let name = match cursor.quoted_word() {
            Ok(name) => name,
            Err(why) => return Err(Stop::Fault(why)),
        };
        names.push(Text::from_slice(alloc, name)?)?;
    }
    Ok(names)
}

// A bar and then a word in quotes; the word, and what stands behind it.
#[tactic(auto, unfolding(crate::specs::TableTexts::quoted_part))]
fn quoted_part(text: &[u8]) -> Result<(&[u8], &[u8]), JobWhy>
    ensures { Gives fault_itself (λ part. (part.0.now, part.1.now)) result (spec.quoted_part text.now) }
{
    let mut cursor = at_front(text);
    cursor.mark(b'|')?;
    let word = cursor.quoted_word()?;
    Ok((word, cursor.rest()))
}

// What stands behind the response where the first part has it again, else the text.
fn behind_again<'a>(response: &[u8], text: &'a [u8]) -> &'a [u8]
    ensures { result.now ≡ spec.behind_again response.now text.now (spec.quoted_part text.now) }
{
    let Ok(part) = quoted_part(text) else {
        return text;
    };
    if part.0 == response {
        return part.1;
    }
    text
}

// Whether the piece has no byte, or two quotes alone.
fn is_free_part(piece: &[u8]) -> bool
    ensures { result ≡ spec.is_free_part piece.now }
{
    let part = trim(piece);
    part.is_empty() || part == b"\"\"".as_slice()
}

// Whether all pieces of the text are such.
fn all_free(text: &[u8]) -> bool
    ensures { result ≡ list_all spec.is_free_part (pieces text.now) }
{
    let mut parts = pieces_in(text);
    'parts: while let Some(part) = parts.next_piece() {
        if !is_free_part(part) {
            return false;
        }
    }
    true
}

// Parts that say nothing, each behind a bar, or nothing at all.
fn are_free_parts(text: &[u8]) -> bool
    ensures { result ≡ spec.are_free_parts text.now }
{
    let cursor = at_front(text);
    if trim(text).is_empty() || cursor.is_next(b'|') {
        return all_free(text);
    }
    false
}
