ghost use Rattle.std.specs.Prelude.{◌≡◌, ◌<◌, ◌≤◌, ◌+◌, ◌^◌, ◌*◌, ◌++◌, ◌∷◌, ◌==◌, [], if◌then◌else◌, length, slice_index_or, IfOk, OnOk};
ghost use Rattle.std.specs.List.{range_with_len};
ghost use Rattle.sdc_base.specs.CutTrees.{depth_in};
ghost use Rattle.sdc_base.specs.Subtables as spec;

use linked_tables::Book;
use sdc_base::{Dimensions, Memory, Subtable};
use std::alloc::Global;

// A summed depth that no place exceeds.
const MOST_DEPTH: u64 = 72;

/// These subtables, by the summed depth of their parents, those of one depth in their order.
pub(crate) fn in_order(
    alloc: Global,
    book: &Book,
    all: &[Subtable],
) -> Result<Vec<Subtable>, Memory>
    ensures { IfOk result (λ found. found.items
        ≡ spec.by_depths book.now.trees book.now.tables all.now (range_with_len 0 (spec.most_depth + 1))) }
{
    let mut found = Vec::new(alloc);
    'depths: for depth in 0..MOST_DEPTH + 1 {
        add_depth(book, all, depth, &mut found)?;
    }
    Ok(found)
}

// Adds those of one summed depth.
fn add_depth(
    book: &Book,
    all: &[Subtable],
    depth: u64,
    found: &mut Vec<Subtable>,
) -> Result<(), Memory>
    ensures { OnOk result (found.new.items
        ≡ found.old.items ++ spec.of_depth book.now.trees book.now.tables depth all.now) }
{
    for subtable in all {
        add_one(book, subtable, depth, found)?;
    }
    Ok(())
}

// Adds a subtable, where it has this summed depth.
fn add_one(
    book: &Book,
    subtable: &Subtable,
    depth: u64,
    found: &mut Vec<Subtable>,
) -> Result<(), Memory>
    ensures { OnOk result (found.new.items
        ≡ (if spec.depth_of book.now.trees book.now.tables subtable.now == depth
        then found.old.items ++ subtable.now ∷ [] else found.old.items)) }
{
    if depth_of(book, subtable) == depth {
        found.push(Subtable {
            table: subtable.table,
            parents: subtable.parents.copy(),
        })?;
    }
    Ok(())
}

// The summed depth of a subtable's parents.
fn depth_of(book: &Book, subtable: &Subtable) -> u64
    ensures { result ≡ spec.depth_of book.now.trees book.now.tables subtable.now }
{
    match book.spans(subtable.table) {
        Some(table) => summed_depth(book, table, subtable.parents.as_slice()),
        // As the definition has it: in a table behind the last one there are no depths to sum.
        None => 0,
    }
}

// The depths of a place's codes together.
fn summed_depth(book: &Book, table: &Dimensions, place: &[u32]) -> u64
    ensures { result ≡ spec.summed_depth book.now.trees table.now place.now }
{
    let mut sum: u64 = 0;
    let few = table.len();
    'variables: for k in 0..few {
        if k >= place.len() {
            return sum;
        }
        sum += depth_at(book, table.as_slice()[k].variable, place[k]);
    }
    sum
}

// The depth of a code of a variable.
fn depth_at(book: &Book, variable: u32, code: u32) -> u64
    ensures depth { result ≡ depth_in (slice_index_or book.now.trees variable []) code }
    ensures small { result < 2 ^ 32 }
{
    u64::from(book.depth(variable, code))
}
