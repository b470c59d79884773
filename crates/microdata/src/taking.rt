ghost use Rattle.std.specs.Prelude.{◌≡◌, ℕ, List, ◌<◌, ◌≤◌, ◌^◌, drop, length, sum, false, position, IfOk, OnOk};
ghost use Rattle.std.specs.List.{list_any};
ghost use Rattle.std.specs.Str.{bytes_eq};
ghost use Rattle.sdc_base.specs.Answers.{Gives};
ghost use Rattle.plain_text.specs.Stops.{why_of};
ghost use Rattle.microdata.specs.SeenCodes.{with_code, known_or_new, with_level_code, with_flat_code};
ghost use Rattle.microdata.specs.SeenCodes as spec;
ghost use Rattle.microdata.specs.Keeping.{AreSeen, AreLevelCodes, AreFlatCodes};
ghost use Rattle.microdata.specs.Layouts.{IsSource};

use crate::codes::Codes;
use crate::faults::RowWhy;
use crate::layout::Source;
use code_trees::{CodeSet, CodeTree, add_prefixes, begins_with_total, has_blank};
use plain_text::Stop;
use std::alloc::Global;

// The most codes of a variable besides the total.
const MOST_CODES: usize = 5000;

/// The codes of a variable so far: the distinct ones in the order of their first records, behind those of a
/// list; and in ascending order of bytes, by levels these with their prefixes, else the further ones. A listed
/// tree needs neither.
#[derive(Drop)]
pub(crate) struct Seen {
    pub codes: Codes,
    pub nodes: CodeSet,
}

/// Takes in the code of one more record, and says where it stands: its place in a listed tree, else its number
/// among the distinct codes. It takes one look-up; a new code by levels takes one for each of its prefixes more.
#[tactic(auto, unfolding(crate::specs::SeenCodes::with_code))]
pub(crate) fn take_code(
    alloc: Global,
    source: &Source,
    seen: &mut Seen,
    code: &[u8],
) -> Result<u32, Stop<RowWhy>>
    requires source { IsSource source.now }
    requires seen { AreSeen source.now seen.old }
    ensures said { Gives why_of (λ place. (seen.new, place)) result (with_code source.now seen.old code.now) }
    ensures seen { OnOk result (AreSeen source.now seen.new) }
{
    match source {
        Source::Listed(tree) => listed_place(tree, code),
        Source::Levels { widths, total } => {
            take_level_code(alloc, widths.as_slice(), total.as_slice(), seen, code)
        }
        Source::Flat { codes: _, total } => { take_flat_code(alloc, total.as_slice(), seen, code) }
    }
}

// The place of a code in a listed tree, where nothing stands below it.
#[tactic(auto, unfolding(crate::specs::SeenCodes::listed_place))]
fn listed_place(tree: &CodeTree, code: &[u8]) -> Result<u32, Stop<RowWhy>>
    ensures { Gives why_of (λ place. place) result (spec.listed_place tree.now code.now) }
{
    let Some(place) = tree.find(code) else {
        return Err(Stop::Fault(RowWhy::UnknownCode));
    };
    if place == 0 || tree.first_child(place).is_some() {
        return Err(Stop::Fault(RowWhy::NotLeaf));
    }
    Ok(place)
}

// Takes in a code by levels.
fn take_level_code(
    alloc: Global,
    widths: &[u8],
    total: &[u8],
    seen: &mut Seen,
    code: &[u8],
) -> Result<u32, Stop<RowWhy>>
    requires at_most_9 { length widths.now ≤ 9 }
    requires sound { AreLevelCodes widths.now total.now seen.old }
    ensures said { Gives why_of (λ place. (seen.new, place)) result
        (known_or_new seen.old (position (bytes_eq code.now) seen.old.codes)
        (with_level_code widths.now total.now seen.old code.now)) }
    ensures seen { OnOk result (AreLevelCodes widths.now total.now seen.new) }
{
    let count = seen.codes.len();
    if let Some(place) = seen.codes.code_number(code) {
        return Ok(place as u32);
    }
    add_level_code(alloc, widths, total, seen, code)?;
    Ok(count as u32)
}

// One new code by levels more, with its prefixes.
#[tactic(auto, unfolding(crate::specs::SeenCodes::with_level_code))]
fn add_level_code(
    alloc: Global,
    widths: &[u8],
    total: &[u8],
    seen: &mut Seen,
    code: &[u8],
) -> Result<(), Stop<RowWhy>>
    requires at_most_9 { length widths.now ≤ 9 }
    requires new { list_any (bytes_eq code.now) seen.old.codes ≡ false }
    ensures said { Gives why_of (λ _. seen.new) result (with_level_code widths.now total.now seen.old code.now) }
{
    if has_blank(code) {
        return Err(Stop::Fault(RowWhy::UnknownCode));
    }
    if sum_of(widths) < code.len() {
        return Err(Stop::Fault(RowWhy::UnknownCode));
    }
    if code == total {
        return Err(Stop::Fault(RowWhy::NotLeaf));
    }
    if begins_with_total(total, widths, code) {
        return Err(Stop::Fault(RowWhy::UnknownCode));
    }
    add_prefixes(alloc, &mut seen.nodes, widths, code)?;
    if seen.nodes.len() > MOST_CODES {
        return Err(Stop::Fault(RowWhy::TooManyCodes));
    }
    seen.codes.push(alloc, code)?;
    Ok(())
}

// The widths together.
fn sum_of(widths: &[u8]) -> usize
    requires { length widths.now ≤ 9 }
    ensures { result ≡ sum widths.now }
{
    let mut sum: usize = 0;
    'widths: for width in widths {
        sum += *width as usize;
    }
    sum
}

// Takes in a code without levels.
fn take_flat_code(
    alloc: Global,
    total: &[u8],
    seen: &mut Seen,
    code: &[u8],
) -> Result<u32, Stop<RowWhy>>
    requires { length seen.old.codes ≤ 5000 }
    ensures said { Gives why_of (λ place. (seen.new, place)) result
        (known_or_new seen.old (position (bytes_eq code.now) seen.old.codes)
        (with_flat_code total.now seen.old code.now)) }
    ensures seen { (codes : List (List ℕ)) → AreFlatCodes codes total.now seen.old
        → OnOk result (AreFlatCodes codes total.now seen.new) }
{
    let count = seen.codes.len();
    if let Some(place) = seen.codes.code_number(code) {
        return Ok(place as u32);
    }
    add_flat_code(alloc, total, seen, code)?;
    Ok(count as u32)
}

// One new code without levels more.
#[tactic(auto, unfolding(crate::specs::SeenCodes::with_flat_code))]
fn add_flat_code(
    alloc: Global,
    total: &[u8],
    seen: &mut Seen,
    code: &[u8],
) -> Result<(), Stop<RowWhy>>
    requires new { list_any (bytes_eq code.now) seen.old.codes ≡ false }
    ensures said { Gives why_of (λ _. seen.new) result (with_flat_code total.now seen.old code.now) }
{
    if code == total {
        return Err(Stop::Fault(RowWhy::NotLeaf));
    }
    if seen.codes.len() >= MOST_CODES {
        return Err(Stop::Fault(RowWhy::TooManyCodes));
    }
    seen.nodes.insert(alloc, code)?;
    seen.codes.push(alloc, code)?;
    Ok(())
}
