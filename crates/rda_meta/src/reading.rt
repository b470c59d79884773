ghost use Rattle.std.specs.Prelude.{◌≡◌, ◌<◌, ◌^◌, length, map, IfOk};
ghost use Rattle.sdc_base.specs.Lines as lines_specs;
ghost use Rattle.sdc_base.specs.Answers.{Gives};
ghost use Rattle.rda_meta.specs.Faults.{meta_fault_of};
ghost use Rattle.rda_meta.specs.Limits.{IsMeta};
ghost use Rattle.rda_meta.specs.Metadata.{lines_say, no_lines, meta_of};
ghost use Rattle.rda_meta.specs.Metadata as metadata_specs;

use crate::entry::{Entry, ReaderProgress};
use crate::faults::{MetaError, MetaWhy};
use crate::line::read_line;
use crate::meta::{Meta, Variable};
use crate::said::{
    codes_of, decimals_of, has_keyword, is_clashing, is_numeric, shape_of, total_of,
};
use crate::setting::Keyword;
use plain_text::lines;
use sdc_base::{Items, Memory};
use std::alloc::Global;

/// The metadata that the bytes of a file state, or the first line with a fault and what is wrong
/// with it. Lines are looked at in their order; where none has a fault, the variables in their order
/// for what doesn't go together. Nothing is kept of metadata with a fault.
///
/// The grammar is that of tau-ARGUS metadata, the limits and the order of the faults are argus's own.
/// The caller sees to it that there are fewer than `2^32` bytes, so that a line's number fits. Want of
/// memory aside, the answer is the definition's.
///
/// What is read is within the limits of metadata: names, places, decimals, levels and file names.
///
/// The cost is a look at each byte a few times, and for each line one at what was said of the
/// variables before it, which are at most 64.
#[tactic(auto, using(crate::proofs::WithinLimits::limits_given))]
pub fn read_meta(alloc: Global, bytes: &[u8]) -> Result<Meta, MetaError>
    requires { length bytes.now < 2 ^ 32 }
    ensures exact { Gives meta_fault_of (λ meta. meta) result (meta_of bytes.now) }
    ensures within { IfOk result IsMeta }
{
    meta_in(alloc, bytes)
}

// The metadata that the bytes state.
#[tactic(auto, unfolding(crate::specs::Metadata::meta_of))]
fn meta_in(alloc: Global, bytes: &[u8]) -> Result<Meta, MetaError>
    requires { length bytes.now < 2 ^ 32 }
    ensures { Gives meta_fault_of (λ meta. meta) result (meta_of bytes.now) }
{
    let so_far = read_lines(alloc, bytes)?;
    no_clash(so_far.entries.as_slice())?;
    let passed_over = so_far.passed_over;
    let variables = variables_of(alloc, so_far.entries)?;
    Ok(Meta {
        variables,
        passed_over,
    })
}

// What all lines say.
fn read_lines(alloc: Global, bytes: &[u8]) -> Result<ReaderProgress, MetaError>
    requires { length bytes.now < 2 ^ 32 }
    ensures { Gives meta_fault_of (λ so_far. so_far) result (lines_say 0 no_lines (lines_specs.lines bytes.now)) }
{
    let mut reader = lines(bytes);
    let mut so_far = ReaderProgress {
        entries: Items::empty(alloc),
        passed_over: 0,
    };
    'each: while let Some(line) = reader.next_line() {
        read_line(alloc, line.number as u32, line.text, &mut so_far)?;
    }
    Ok(so_far)
}

// The first variable of which the lines say what doesn't go together is a fault of its line.
#[tactic(auto, unfolding(crate::specs::Metadata::no_clash))]
fn no_clash(entries: &[Entry]) -> Result<(), MetaError>
    ensures { Gives meta_fault_of (λ fine. fine) result (metadata_specs.no_clash entries.now) }
{
    'entries: for entry in entries {
        if is_clashing(entry.said.as_slice()) {
            return Err(MetaError::At {
                line: entry.line,
                why: MetaWhy::Clash,
            });
        }
    }
    Ok(())
}

// The variable of each entry.
fn variables_of(alloc: Global, entries: Items<Entry>) -> Result<Items<Variable>, Memory>
    ensures { IfOk result (λ variables. variables ≡ map metadata_specs.variable_of entries) }
{
    let mut variables = Items::empty(alloc);
    'entries: for entry in entries.into_vec() {
        variables.push(variable_of(alloc, entry)?)?;
    }
    Ok(variables)
}

// The variable of an entry, with its defaults.
#[tactic(auto, unfolding(crate::specs::Metadata::variable_of))]
fn variable_of(alloc: Global, entry: Entry) -> Result<Variable, Memory>
    ensures { IfOk result (λ variable. variable ≡ metadata_specs.variable_of entry) }
{
    let said = entry.said.as_slice();
    let numeric = is_numeric(said);
    let weight = has_keyword(said, Keyword::Weight);
    let decimals = decimals_of(said);
    let total = total_of(alloc, said)?;
    let codes = codes_of(alloc, said)?;
    let shape = shape_of(alloc, said)?;
    Ok(Variable {
        name: entry.name,
        first: entry.first,
        width: entry.width,
        missing: entry.missing,
        numeric,
        weight,
        decimals,
        total,
        codes,
        shape,
    })
}
