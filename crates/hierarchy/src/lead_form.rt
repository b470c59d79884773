ghost use Rattle.std.specs.Prelude.{◌≡◌, ◌+◌, ◌-◌, ◌^◌, List, ◌<◌, ◌≤◌, ◌++◌, length, slice_index, IfErr, OnOk};
ghost use Rattle.sdc_base.specs.Blanks as spec;
ghost use Rattle.sdc_base.specs.Trees.{codes, IsCodeTree};
ghost use Rattle.sdc_base.specs.Answers.{Fails, Gives};
ghost use Rattle.code_trees.specs.Growing.{tree_with_node};
ghost use Rattle.code_trees.specs.Faults.{tree_fault_of, AnswersFault};
ghost use Rattle.hierarchy.specs.Lead.{leads_of, line_fault, lead_line, lead_of, LeadLine, IsLeadFault};
ghost use Rattle.code_trees.specs.Path.{IsPath, next_path};
ghost use Rattle.hierarchy.specs.LeadPath.{tree_with_lines};

use code_trees::{CodeTree, Nodes, TreeFault, add, total_alone};
use plain_text::{lines, trim};
use sdc_base::Text;
use std::alloc::{AllocError, Global};

// The most leads of a line.
const DEEPEST: usize = 9;

/// The tree of a hierarchy file: a code a line, after as many leads as the code is levels below the first.
/// The total isn't written. Blank lines are passed over, and blanks round a code are dropped after its leads.
///
/// There are fewer than `2^32` bytes, so that a line's number fits, and the lead has one or more. Lines are
/// numbered from 1. The first line with a fault is refused, with what comes first of: `NoCode` (a lead
/// without code), `Jump` (more than one level deeper than the line before, or a first line with a lead),
/// `TooDeep` (the tenth level), `IsTotal`, `Twice` (an earlier line has the code) and `TooMany` (the 5,001st code);
/// want of memory is `Memory`. Either leaves what was lent as it was. It takes two look-ups a code and reads
/// each byte a few times. The form is the manual's, blanks and the order of refusals are argus's own.
pub fn from_lead(
    alloc: Global,
    bytes: &[u8],
    lead: &Text,
    total: &Text,
) -> Result<CodeTree, TreeFault>
    requires fewer_than_2_32 { length bytes.now < 2 ^ 32 }
    requires lead { 0 < length lead.now }
    ensures exact { Gives tree_fault_of (λ tree. tree) result (lead_of lead.now total.now bytes.now) }
    ensures kind { IfErr result IsLeadFault }
{
    let mut nodes = total_alone(alloc, total.as_slice())?;
    let mut path = Vec::new(alloc);
    path.push(0)?;
    let mut reader = lines(bytes);
    'lines: while let Some(line) = reader.next_line() {
        read_line(
            alloc,
            &mut nodes,
            &mut path,
            lead.as_slice(),
            line.text,
            line.number as u32,
        )?;
    }
    let tree = CodeTree::of_nodes(alloc, nodes)?;
    Ok(tree)
}

// Reads a line, whose code goes below the node of the path that is one level higher.
fn read_line(
    alloc: Global,
    nodes: &mut Nodes,
    path: &mut Vec<u32>,
    lead: &[u8],
    line: &[u8],
    number: u32,
) -> Result<(), TreeFault>
    requires tree { IsCodeTree nodes.old }
    requires path { IsPath nodes.old path.old.items }
    requires lead { 0 < length lead.now }
    ensures ok { OnOk result ((lines : List LeadLine)
        → tree_with_lines nodes.old path.old.items (lead_line lead.now number line.now ++ lines)
        ≡ tree_with_lines nodes.new path.new.items lines) }
    ensures err { IfErr result (λ fault. (lines : List LeadLine)
        → Fails (tree_fault_of fault) (tree_with_lines nodes.old path.old.items
        (lead_line lead.now number line.now ++ lines))) }
    ensures kind { IfErr result IsLeadFault }
    ensures tree { OnOk result (IsCodeTree nodes.new) }
    ensures path { OnOk result (IsPath nodes.new path.new.items) }
{
    let (leads, rest) = split_leads(lead, line);
    let code = trim(rest);
    if leads == 0 && code.is_empty() {
        return Ok(());
    }
    add_line(alloc, nodes, path, leads, code, number)
}

// Adds the code of a line with so many leads.
fn add_line(
    alloc: Global,
    nodes: &mut Nodes,
    path: &mut Vec<u32>,
    leads: usize,
    code: &[u8],
    number: u32,
) -> Result<(), TreeFault>
    requires tree { IsCodeTree nodes.old }
    requires path { IsPath nodes.old path.old.items }
    ensures told { AnswersFault result (line_fault (length path.old.items - 1) (codes nodes.old)
        (record { number = number; leads = leads; code = code.now })) }
    ensures kind { IfErr result IsLeadFault }
    ensures grows { OnOk result (nodes.new ≡ tree_with_node nodes.old code.now (slice_index path.old.items leads)) }
    ensures next { OnOk result (path.new.items ≡ next_path path.old.items leads (length nodes.old)) }
    ensures tree { OnOk result (IsCodeTree nodes.new) }
    ensures path { OnOk result (IsPath nodes.new path.new.items) }
{
    if code.is_empty() {
        return Err(TreeFault::NoCode(number));
    }
    if leads >= path.len() {
        return Err(TreeFault::Jump(number));
    }
    if leads >= DEEPEST {
        return Err(TreeFault::TooDeep(number));
    }
    let place = nodes.len() as u32;
    add(alloc, nodes, code, path[leads], number)?;
    path.truncate(leads + 1);
    path.push(place)?;
    Ok(())
}

// How many leads stand at the front, and what follows them.
fn split_leads<'a>(lead: &[u8], line: &'a [u8]) -> (usize, &'a [u8])
    requires { 0 < length lead.now }
    ensures leads { result.0 ≡ (leads_of lead.now line.now).0 }
    ensures rest { result.1.now ≡ (leads_of lead.now line.now).1 }
{
    let mut leads = 0;
    let mut rest = line;
    'leads: while let Some(after) = rest.strip_prefix(lead) {
        rest = after;
        leads += 1;
    }
    (leads, rest)
}
