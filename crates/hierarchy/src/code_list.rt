ghost use Rattle.std.specs.Prelude.{◌≡◌, ◌+◌, ◌-◌, ◌<◌, ◌≤◌, ◌^◌, ◌∷◌, ◌++◌, [], List, ℕ, length, take, drop, IfErr, OnOk, IsTrue};
ghost use Rattle.std.specs.List.{before_first, position_or_len};
ghost use Rattle.sdc_base.specs.Trees.{codes};
ghost use Rattle.sdc_base.specs.Answers.{Fails, Gives};
ghost use Rattle.code_trees.specs.Faults.{tree_fault_of};
ghost use Rattle.hierarchy.specs.CodeList.{is_comma, is_quoted, text_without_quotes, code_of_line, codes_listed, codes_listed_from, codes_of, IsListFault, HoldsOfTotal, ListsFurtherCodes};

use code_trees::{Nodes, TreeFault};
use plain_text::{lines, trim};
use sdc_base::Text;
use std::alloc::{AllocError, Global};

// The most codes of a list.
const MOST: usize = 5000;

/// The codes of a code list, in the order of their first lines: what stands before the first comma of
/// a line, without blanks at both ends and then without one pair of double quotes. A line whose code is
/// empty, is the total or stood before is passed over.
///
/// There are fewer than `2^32` bytes, so that a line's number fits. Lines are numbered from 1. The one refusal
/// is `TooMany`, with the line of the 5,001st code that would be kept; want of memory is `Memory`. Either
/// leaves what was lent as it was. It takes two look-ups a line and reads each byte a few times. The form is
/// the manual's; commas in quotes and what is passed over are argus's own.
pub fn read_codes(alloc: Global, bytes: &[u8], total: &Text) -> Result<Vec<Text>, TreeFault>
    requires { length bytes.now < 2 ^ 32 }
    ensures exact { Gives tree_fault_of (λ codes. codes.items) result (codes_of total.now bytes.now) }
    ensures kind { IfErr result IsListFault }
{
    let mut known = Nodes::new(alloc);
    known.push(alloc, total.as_slice(), None)?;
    let mut kept = Vec::new(alloc);
    let mut reader = lines(bytes);
    'lines: while let Some(line) = reader.next_line() {
        keep(
            alloc,
            &mut known,
            &mut kept,
            listed_code(line.text),
            line.number as u32,
        )?;
    }
    Ok(kept)
}

// Keeps the code of a line, unless it is passed over.
fn keep(
    alloc: Global,
    known: &mut Nodes,
    kept: &mut Vec<Text>,
    code: &[u8],
    number: u32,
) -> Result<(), TreeFault>
    requires { (total : List ℕ) × (codes known.old ≡ total ∷ kept.old.items) }
    ensures known { OnOk result (HoldsOfTotal known.old kept.old.items
        (λ total. codes known.new ≡ total ∷ kept.new.items)) }
    ensures kind { IfErr result IsListFault }
    ensures ok { OnOk result (HoldsOfTotal known.old kept.old.items
        (λ total. ListsFurtherCodes total number kept.old.items code.now kept.new.items)) }
    ensures err { IfErr result (λ fault. HoldsOfTotal known.old kept.old.items (λ total. (lines : List (List ℕ))
        → Fails (tree_fault_of fault) (codes_listed_from total number kept.old.items code.now lines))) }
{
    if code.is_empty() {
        return Ok(());
    }
    if known.code_place(code).is_some() {
        return Ok(());
    }
    if kept.len() >= MOST {
        return Err(TreeFault::TooMany(number));
    }
    let text = Text::from_slice(alloc, code)?;
    known.push(alloc, code, None)?;
    kept.push(text)?;
    Ok(())
}

// The code of a line.
fn listed_code(line: &[u8]) -> &[u8]
    ensures { result.now ≡ code_of_line line.now }
{
    without_quotes(trim(before_comma(line)))
}

// What stands before the first comma, or the whole line where there is none.
fn before_comma(line: &[u8]) -> &[u8]
    ensures { result.now ≡ before_first is_comma line.now }
{
    &line[..comma_of(line)]
}

// The place of the first comma, or the length where there is none.
fn comma_of(line: &[u8]) -> usize
    ensures place { result ≡ position_or_len is_comma line.now }
    ensures within { result ≤ length line.now }
{
    for (i, b) in line.iter().enumerate() {
        if *b == b',' {
            return i;
        }
    }
    line.len()
}

// Without one pair of double quotes round it.
fn without_quotes(bytes: &[u8]) -> &[u8]
    ensures { result.now ≡ text_without_quotes bytes.now }
{
    if is_quoted(bytes) {
        return &bytes[1..bytes.len() - 1];
    }
    bytes
}

// Whether it begins and ends with a double quote, of which there are two.
fn is_quoted(bytes: &[u8]) -> bool
    ensures quoted { result ≡ is_quoted bytes.now }
    ensures long { IsTrue result → 2 ≤ length bytes.now }
{
    bytes.len() >= 2 && bytes[0] == b'"' && bytes[bytes.len() - 1] == b'"'
}
