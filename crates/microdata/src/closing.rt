ghost use Rattle.std.specs.Prelude.{◌≡◌, ◌≤◌, ◌<◌, ◌+◌, ◌++◌, ◌∷◌, [], All, map, length, sum, None, IfOk};
ghost use Rattle.std.specs.List.{AllByRecursion, IsDistinct};
ghost use Rattle.std.specs.Str.{bytes_eq};
ghost use Rattle.sdc_base.specs.Trees.{IsCodeTree};
ghost use Rattle.sdc_base.specs.Trees as trees_specs;
ghost use Rattle.code_trees.specs.Levels.{boundaries, tree_of_codes, codes_with_prefixes, first_level_fault};
ghost use Rattle.sdc_base.specs.Answers.{Gives};
ghost use Rattle.microdata.specs.Closing.{closed_of, tree_of, places_in};
ghost use Rattle.microdata.specs.Closing as closing;
ghost use Rattle.plain_text.specs.Stops.{why_of};
ghost use Rattle.microdata.specs.Faults.{row_fault_of, at_record};
ghost use Rattle.microdata.specs.Keeping.{AreSeen, AreSoundRecords, IsVariable};
ghost use Rattle.microdata.specs.KeptRows.{kept_of};
ghost use Rattle.microdata.specs.Layouts.{IsSource};
ghost use Rattle.microdata.specs.Microdata.{closed_records};

use crate::faults::{RowError, RowWhy, error_at};
use crate::kept_rows::KeptRows;
use crate::layout::Source;
use crate::record::{ReaderProgress, Variable, Variables};
use crate::records::Records;
use crate::taking::Seen;
use arrayvec::ArrayVec;
use code_trees::{CodeSet, CodeTree, TreeFault, flat, from_levels};
use plain_text::Stop;
use sdc_base::{Few, Items, Memory, Place, Row, Text};
use std::alloc::Global;

/// A spanning variable behind the last record: its tree, and the places in it of its codes in the order of their
/// first records. A listed tree needs no such places, since the records have them already.
#[derive(Drop)]
pub(crate) struct ClosedVariable {
    pub tree: CodeTree,
    pub places: Items<u32>,
}

/// The records with the places of their codes, or the first one with a code that has others below it. It takes one
/// pass over the records, and a look-up for each code that they brought.
#[tactic(auto, unfolding(crate::specs::Microdata::closed_records))]
pub(crate) fn close(alloc: Global, so_far: ReaderProgress) -> Result<Records, RowError>
    requires variables { All (λ variable. IsSource variable.field.source) so_far.variables }
    requires seen { All (λ variable. AreSeen variable.field.source variable.seen) so_far.variables }
    requires at_most_8 { length so_far.variables ≤ 8 }
    ensures exact { Gives row_fault_of (λ records. records) result (closed_records so_far) }
    ensures trees { IfOk result (λ records. AllByRecursion IsCodeTree records.trees) }
{
    let closed = closed_variables(alloc, so_far.variables)?;
    let rows = rows_of(closed.as_slice(), so_far.rows)?;
    let trees = trees_of(alloc, closed)?;
    Ok(Records {
        trees,
        rows,
        skipped: so_far.skipped,
    })
}

// The variables with their trees.
fn closed_variables(alloc: Global, variables: Variables) -> Result<Items<ClosedVariable>, Memory>
    requires variables { All (λ variable. IsSource variable.field.source) variables }
    requires seen { All (λ variable. AreSeen variable.field.source variable.seen) variables }
    ensures { IfOk result (λ closed. closed ≡ map closed_of variables) }
{
    let mut closed = Items::empty(alloc);
    'variables: for variable in variables.into_vec() {
        closed.push(closed_variable(alloc, variable)?)?;
    }
    Ok(closed)
}

// A variable with its tree.
fn closed_variable(alloc: Global, variable: Variable) -> Result<ClosedVariable, Memory>
    requires source { IsSource variable.field.source }
    requires seen { AreSeen variable.field.source variable.seen }
    ensures { IfOk result (λ closed. closed ≡ closed_of variable) }
{
    let Seen { codes, nodes } = variable.seen;
    let texts = codes.texts(alloc)?;
    let tree = tree_of_source(alloc, variable.field.source, texts.as_slice(), nodes)?;
    let places = places_in_tree(alloc, &tree, texts.as_slice())?;
    Ok(ClosedVariable { tree, places })
}

// The tree of a variable.
fn tree_of_source(
    alloc: Global,
    source: Source,
    codes: &[Text],
    nodes: CodeSet,
) -> Result<CodeTree, Memory>
    requires source { IsSource source }
    requires seen { AreSeen source (record { codes = codes.now; nodes = nodes }) }
    ensures { IfOk result (λ tree. tree ≡ tree_of source (record { codes = codes.now; nodes = nodes })) }
{
    match source {
        Source::Listed(tree) => Ok(tree),
        Source::Levels { widths, total } => level_tree(alloc, codes, widths.as_slice(), &total),
        Source::Flat {
            codes: listed,
            total,
        } => flat_tree(alloc, listed, nodes, &total),
    }
}

// The tree as it is, of which this says that it is a code tree.
fn code_tree(tree: CodeTree) -> CodeTree
    ensures same { result ≡ tree }
    ensures tree { IsCodeTree result }
{
    // for the proof: a tree that tells its length says that it is a code tree
    tree.len();
    tree
}

// The places of codes in a tree.
fn places_in_tree(alloc: Global, tree: &CodeTree, codes: &[Text]) -> Result<Items<u32>, Memory>
    ensures { IfOk result (λ places. places ≡ places_in tree.now codes.now) }
{
    let mut places = Items::empty(alloc);
    'codes: for code in codes {
        places.push(tree.find(code.as_slice()).unwrap_or(0))?;
    }
    Ok(places)
}

// The trees alone.
fn trees_of(alloc: Global, closed: Items<ClosedVariable>) -> Result<Items<CodeTree>, Memory>
    ensures trees { IfOk result (λ trees. trees ≡ map (λ one. one.tree) closed) }
    ensures made { IfOk result (λ trees. AllByRecursion IsCodeTree trees) }
{
    let mut trees = Items::empty(alloc);
    'closed: for one in closed.into_vec() {
        trees.push(code_tree(one.tree))?;
    }
    Ok(trees)
}

// The rows with the places of their codes, which are written where their numbers stood, or the first one with a code
// that has others below it.
fn rows_of(closed: &[ClosedVariable], kept: KeptRows) -> Result<Items<Row>, RowError>
    requires at_most_8 { length closed.now ≤ 8 }
    ensures { Gives row_fault_of (λ rows. rows) result (closing.rows_of closed.now kept) }
{
    let (numbers, mut rows) = kept.into_parts();
    let mut k = 0;
    'rows: while k < rows.len() {
        place_codes(closed, numbers[k], &mut rows[k])?;
        k += 1;
    }
    Ok(Items::new(rows))
}

// Writes the places of a row's codes where their numbers stand, or gives its fault with the number of its record.
#[tactic(auto, unfolding(crate::specs::Closing::row_of), using(crate::proofs::RowsPlaced::fails_placed))]
fn place_codes(closed: &[ClosedVariable], number: u32, row: &mut Row) -> Result<(), RowError>
    requires at_most_8 { length closed.now ≤ 8 }
    ensures { Gives row_fault_of (λ _. row.new) result
        (at_record number (closing.row_of closed.now (kept_of number row.old))) }
{
    match leaves_of(closed, row.codes.as_slice()) {
        Ok(places) => {
            row.codes = places;
            Ok(())
        }
        Err(error) => Err(error_at(u64::from(number), error)),
    }
}

// The places of a record's codes, where no others stand below them.
#[tactic(auto, unfolding(crate::specs::Closing::leaves_of))]
fn leaves_of(closed: &[ClosedVariable], numbers: &[u32]) -> Result<Place, Stop<RowWhy>>
    requires at_most_8 { length closed.now ≤ 8 }
    ensures { Gives why_of (λ places. places) result (closing.leaves_of closed.now numbers.now) }
{
    let mut places = ArrayVec::new();
    for (k, one) in closed.iter().enumerate() {
        if k >= numbers.len() {
            return Ok(Few::new(places));
        }
        let place = leaf_of(one, numbers[k])?;
        places.push(place);
    }
    Ok(Few::new(places))
}

// The place of a code, where no others stand below it.
fn leaf_of(closed: &ClosedVariable, number: u32) -> Result<u32, Stop<RowWhy>>
    ensures { Gives why_of (λ place. place) result (closing.leaf_of closed.now number) }
{
    let place = tree_place(closed, number);
    if closed.tree.first_child(place).is_some() {
        return Err(Stop::Fault(RowWhy::NotLeaf));
    }
    Ok(place)
}

// The place in the tree of the code with this number.
fn tree_place(closed: &ClosedVariable, number: u32) -> u32
    ensures { result ≡ closing.tree_place closed.now number }
{
    match closed.places.as_slice().get(number as usize) {
        Some(place) => *place,
        None => number,
    }
}

// The tree of codes by levels.
fn level_tree(
    alloc: Global,
    codes: &[Text],
    widths: &[u8],
    total: &Text,
) -> Result<CodeTree, Memory>
    requires at_least_one_width { 0 < length widths.now }
    requires levels { length widths.now ≤ 9 }
    requires positive { All (λ width. 0 < width) widths.now }
    requires short { All (λ code. length code ≤ sum widths.now) codes.now }
    requires no_fault { first_level_fault total.now (boundaries 0 widths.now) 1 [] [] codes.now ≡ None }
    ensures { IfOk result (λ tree. tree ≡ tree_of_codes total.now (boundaries 0 widths.now) ((total.now, None) ∷ [])
        (codes_with_prefixes (boundaries 0 widths.now) [] codes.now)) }
{
    match from_levels(alloc, codes, widths, total) {
        Ok(tree) => Ok(tree),
        Err(fault) => Err(want_of(fault)),
    }
}

// The want of memory that a maker of trees answers; nothing else comes.
fn want_of(fault: TreeFault) -> Memory
    requires { fault ≡ TreeFault.Memory }
{
    let _ = fault;
    Memory
}

// The flat tree of the listed codes and the further ones.
fn flat_tree(
    alloc: Global,
    listed: Items<Text>,
    further: CodeSet,
    total: &Text,
) -> Result<CodeTree, Memory>
    requires distinct { IsDistinct bytes_eq (total.now ∷ (listed ++ further)) }
    requires at_most_5000 { length listed + length further ≤ 5000 }
    ensures { IfOk result (λ tree. tree ≡ trees_specs.flat_tree total.now (listed ++ further)) }
{
    let mut codes = listed.into_vec();
    let mut further = further.into_texts(alloc)?;
    codes.append(&mut further)?;
    match flat(alloc, &codes, total) {
        Ok(tree) => Ok(tree),
        Err(fault) => Err(want_of(fault)),
    }
}
