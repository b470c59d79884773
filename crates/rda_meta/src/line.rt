ghost use Rattle.std.specs.Prelude.{◌≡◌, ◌≤◌, ◌+◌, ◌<◌, ◌^◌, OnOk};
ghost use Rattle.sdc_base.specs.Answers.{Gives};
ghost use Rattle.sdc_base.specs.Blanks as blanks_specs;
ghost use Rattle.plain_text.specs.Stops.{why_of};
ghost use Rattle.rda_meta.specs.Faults.{meta_fault_of, at_line};
ghost use Rattle.rda_meta.specs.Metadata.{after_setting};
ghost use Rattle.rda_meta.specs.Metadata as metadata;

use crate::entry::ReaderProgress;
use crate::faults::{MetaError, MetaWhy, error_at};
use crate::keyword_lines::{add_setting, setting_in};
use crate::keywords::is_passed;
use crate::setting::Setting;
use crate::variable_lines::variable_at;
use crate::words::words_in;
use plain_text::{Stop, trim};
use sdc_base::Memory;
use std::alloc::Global;

/// Takes in what the line with this number says. After an error what was lent may have lost its last
/// entry, and is to be let go.
#[tactic(auto, using(crate::proofs::LineSteps::fails_at))]
pub(crate) fn read_line(
    alloc: Global,
    line: u32,
    text: &[u8],
    so_far: &mut ReaderProgress,
) -> Result<(), MetaError>
    requires { so_far.old.passed_over + 1 < 2 ^ 32 }
    ensures said { Gives meta_fault_of (λ _. so_far.new) result
        (at_line line (metadata.text_says line so_far.old (blanks_specs.trim text.now))) }
    ensures passed { OnOk result (so_far.new.passed_over ≤ so_far.old.passed_over + 1) }
{
    match text_says(alloc, line, trim(text), so_far) {
        Ok(()) => Ok(()),
        Err(error) => Err(error_at(line, error)),
    }
}

// What the bytes of a line say, without blanks at their ends.
#[tactic(auto, unfolding(crate::specs::Metadata::text_says))]
fn text_says(
    alloc: Global,
    line: u32,
    text: &[u8],
    so_far: &mut ReaderProgress,
) -> Result<(), Stop<MetaWhy>>
    requires { so_far.old.passed_over + 1 < 2 ^ 32 }
    ensures said { Gives why_of (λ _. so_far.new) result (metadata.text_says line so_far.old text.now) }
    ensures passed { OnOk result (so_far.new.passed_over ≤ so_far.old.passed_over + 1) }
{
    if text.is_empty() {
        return Ok(());
    }
    if text[0] == b'<' {
        return keyword_line(alloc, &text[1..], so_far);
    }
    variable_line(alloc, line, text, so_far)
}

// One variable more.
#[tactic(auto, unfolding(crate::specs::Metadata::variable_line))]
fn variable_line(
    alloc: Global,
    line: u32,
    text: &[u8],
    so_far: &mut ReaderProgress,
) -> Result<(), Stop<MetaWhy>>
    ensures said { Gives why_of (λ _. so_far.new) result (metadata.variable_line line so_far.old text.now) }
    ensures passed { OnOk result (so_far.new.passed_over ≤ so_far.old.passed_over + 1) }
{
    let mut words = words_in(text);
    let entry = variable_at(alloc, line, so_far.entries.as_slice(), &mut words)?;
    so_far.entries.push(entry)?;
    Ok(())
}

// One setting more of the last variable, or one line more that is passed over; the text is that behind
// the `<`.
#[tactic(auto, unfolding(crate::specs::Metadata::keyword_line))]
fn keyword_line(
    alloc: Global,
    text: &[u8],
    so_far: &mut ReaderProgress,
) -> Result<(), Stop<MetaWhy>>
    requires { so_far.old.passed_over + 1 < 2 ^ 32 }
    ensures said { Gives why_of (λ _. so_far.new) result (metadata.keyword_line so_far.old text.now) }
    ensures passed { OnOk result (so_far.new.passed_over ≤ so_far.old.passed_over + 1) }
{
    let setting = setting_in(alloc, so_far.entries.as_slice(), text)?;
    take_setting(so_far, setting)?;
    Ok(())
}

// The setting is counted where it is passed over, and else kept.
fn take_setting(so_far: &mut ReaderProgress, setting: Setting) -> Result<(), Memory>
    requires { so_far.old.passed_over + 1 < 2 ^ 32 }
    ensures said { OnOk result (so_far.new ≡ after_setting so_far.old setting) }
    ensures passed { OnOk result (so_far.new.passed_over ≤ so_far.old.passed_over + 1) }
{
    if is_passed(setting.keyword) {
        so_far.passed_over += 1;
        return Ok(());
    }
    add_setting(&mut so_far.entries, setting)?;
    Ok(())
}
