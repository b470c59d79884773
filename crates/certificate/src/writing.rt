ghost use Rattle.std.specs.Prelude.{◌≡◌, ◌++◌, ◌∷◌, [], OnOk, IfOk, IsOk, Ok, true, codes, flat_map};
ghost use Rattle.std.specs.List.{AllByRecursion};
ghost use Rattle.sdc_base.specs.Sides as sides;
ghost use Rattle.certificate.specs.declared.version.Version.TheVariants.{Two};
ghost use Rattle.certificate.specs.Texts.{method_tokens, head_tokens, hidden_tokens, step_tokens, refutation_tokens, world_tokens, line_text, text_of};
ghost use Rattle.certificate.specs.Certificates.{certificate_of};
ghost use Rattle.certificate.specs.Spelling.{IsSpellable, IsStepSpellable, FitsIn32Bits, IsMethodWithinTypes, IsStepWithinTypes, IsRefutationWithinTypes, IsWorldWithinTypes, IsWithinTypes};

use crate::appending::{add, add_all_with_mark, add_integer, add_list, add_moves, add_pairs};
use crate::certificate::{Certificate, WorldLine};
use sdc_base::{Items, Memory, Method, PlanStep, Side};
use std::alloc::Global;
use worlds::Refuted;

/// The text of a certificate that has one, in the second version.
///
/// It has one where the lists in its lines are as the format says: hidden cells, corners and relations ascend, a step
/// has 1 to 8 parents and at least one corner, denominators are 1 or more, no multiplier is 0, and the moves of a
/// complete table ascend by their cells and aren't 0. Cells, relations and places are numbered from 0, in the
/// text tables from 1; the base of a method is the number that the job names, before it is brought to units of 10^-d.
///
/// `Memory` is the only refusal, and the certificate stays. The cost is the length of the text. The format is argus's
/// own.
pub fn write_certificate(alloc: Global, certificate: &Certificate) -> Result<Vec<u8>, Memory>
    requires { IsSpellable certificate.now }
    ensures text { IfOk result (λ bytes. bytes.items ≡ text_of certificate.now) }
    ensures within { IsOk result → IsWithinTypes certificate.now }
    ensures read_back { IfOk result (λ bytes. certificate_of bytes.items ≡ Ok certificate.now) }
{
    let mut text = Items::empty(alloc);
    add_head(
        alloc,
        &mut text,
        certificate.method,
        certificate.cells,
        certificate.relations,
    )?;
    add_hidden(alloc, &mut text, certificate.hidden.as_slice())?;
    add_steps(alloc, &mut text, certificate.steps.as_slice())?;
    add_refutations(alloc, &mut text, b"repair", certificate.repairs.as_slice())?;
    add_refutations(alloc, &mut text, b"need", certificate.needs.as_slice())?;
    add_worlds(alloc, &mut text, b"world", certificate.worlds.as_slice())?;
    add(&mut text, b"end\n")?;
    Ok(text.into_vec())
}

// The line of a method.
fn add_method(alloc: Global, text: &mut Items<u8>, method: Method) -> Result<(), Memory>
    ensures text { OnOk result (text.new ≡ text.old ++ line_text (method_tokens method)) }
    ensures wide { OnOk result (IsMethodWithinTypes method) }
{
    let line = match method {
        Method::Modular => String::from_str(alloc, "method MOD\n")?,
        Method::Gh(passes) => format!(in alloc; "method GH {passes}\n")?,
        Method::Rnd(base) => format!(in alloc; "method RND {base}\n")?,
    };
    add(text, line.as_bytes())?;
    Ok(())
}

// The first four lines.
fn add_head(
    alloc: Global,
    text: &mut Items<u8>,
    method: Method,
    cells: u32,
    relations: u32,
) -> Result<(), Memory>
    ensures text { OnOk result (text.new ≡ text.old ++ flat_map line_text (head_tokens Two method cells relations)) }
    ensures wide { OnOk result (IsMethodWithinTypes method) }
    ensures cells { OnOk result (FitsIn32Bits cells) }
    ensures relations { OnOk result (FitsIn32Bits relations) }
{
    add(text, b"argus certificate 2\n")?;
    add_method(alloc, text, method)?;
    let counts = format!(in alloc; "cells {cells}\nrelations {relations}\n")?;
    add(text, counts.as_bytes())?;
    Ok(())
}

// The line of the hidden cells, where there are any.
fn add_hidden(alloc: Global, text: &mut Items<u8>, hidden: &[u32]) -> Result<(), Memory>
    ensures text { OnOk result (text.new ≡ text.old ++ flat_map line_text (hidden_tokens hidden.now)) }
    ensures short { OnOk result (AllByRecursion FitsIn32Bits hidden.now) }
{
    if hidden.is_empty() {
        return Ok(());
    }
    add(text, b"hidden")?;
    add_all_with_mark(alloc, text, b' ', hidden)?;
    add(text, b"\n")?;
    Ok(())
}

// The line of a step.
fn add_step(alloc: Global, text: &mut Items<u8>, step: &PlanStep) -> Result<(), Memory>
    requires { IsStepSpellable step.now }
    ensures text { OnOk result (text.new ≡ text.old ++ line_text (step_tokens step.now)) }
    ensures wide { OnOk result (IsStepWithinTypes step.now) }
{
    let table = u64::from(step.table) + 1;
    let head = format!(in alloc; "step {table} ")?;
    add(text, head.as_bytes())?;
    add_list(alloc, text, step.parents.as_slice())?;
    let cell = step.cell;
    let middle = format!(in alloc; " {cell} ")?;
    add(text, middle.as_bytes())?;
    add_list(alloc, text, step.corners.as_slice())?;
    add(text, b"\n")?;
    Ok(())
}

// The lines of steps.
fn add_steps(alloc: Global, text: &mut Items<u8>, steps: &[PlanStep]) -> Result<(), Memory>
    requires { AllByRecursion IsStepSpellable steps.now }
    ensures text { OnOk result (text.new ≡ text.old ++ flat_map (λ step. line_text (step_tokens step)) steps.now) }
    ensures wide { OnOk result (AllByRecursion IsStepWithinTypes steps.now) }
{
    'steps: for step in steps {
        add_step(alloc, text, step)?;
    }
    Ok(())
}

/// The word of a side.
pub(crate) fn side_word(side: Side) -> &'static [u8]
    ensures { result.now ≡ sides.side_word side }
{
    side.word().as_bytes()
}

// The line of a refutation, behind its word.
fn add_refutation(
    alloc: Global,
    text: &mut Items<u8>,
    word: &[u8],
    refuted: &Refuted,
) -> Result<(), Memory>
    ensures text { OnOk result (text.new ≡ text.old ++ line_text (refutation_tokens word.now refuted.now)) }
    ensures wide { OnOk result (IsRefutationWithinTypes refuted.now) }
{
    let subject = refuted.subject;
    let cell = refuted.cell;
    add(text, word)?;
    let cells = format!(in alloc; " {subject} {cell} ")?;
    add(text, cells.as_bytes())?;
    add(text, side_word(refuted.side))?;
    add_integer(alloc, text, &refuted.multipliers.den)?;
    add_pairs(alloc, text, refuted.multipliers.by_relation.as_slice())?;
    add(text, b"\n")?;
    Ok(())
}

// The lines of refutations, behind a word.
fn add_refutations(
    alloc: Global,
    text: &mut Items<u8>,
    word: &[u8],
    all: &[Refuted],
) -> Result<(), Memory>
    ensures text { OnOk result (text.new
        ≡ text.old ++ flat_map (λ refuted. line_text (refutation_tokens word.now refuted)) all.now) }
    ensures wide { OnOk result (AllByRecursion IsRefutationWithinTypes all.now) }
{
    'all: for refuted in all {
        add_refutation(alloc, text, word, refuted)?;
    }
    Ok(())
}

// The line of a complete table, behind its word, whatever cells are hidden.
fn add_world(
    alloc: Global,
    text: &mut Items<u8>,
    word: &[u8],
    line: &WorldLine,
) -> Result<(), Memory>
    ensures text { OnOk result (text.new ≡ text.old ++ line_text (world_tokens word.now Two [] line.now)) }
    ensures wide { OnOk result (IsWorldWithinTypes line.now) }
{
    let cell = line.cell;
    add(text, word)?;
    let head = format!(in alloc; " {cell} ")?;
    add(text, head.as_bytes())?;
    add(text, side_word(line.side))?;
    add_integer(alloc, text, &line.world.den)?;
    add_moves(alloc, text, line.world.moves.as_slice())?;
    add(text, b"\n")?;
    Ok(())
}

/// The lines of complete tables, behind a word.
pub(crate) fn add_worlds(
    alloc: Global,
    text: &mut Items<u8>,
    word: &[u8],
    worlds: &[WorldLine],
) -> Result<(), Memory>
    ensures text { OnOk result (text.new
        ≡ text.old ++ flat_map (λ line. line_text (world_tokens word.now Two [] line)) worlds.now) }
    ensures wide { OnOk result (AllByRecursion IsWorldWithinTypes worlds.now) }
{
    'worlds: for line in worlds {
        add_world(alloc, text, word, line)?;
    }
    Ok(())
}
