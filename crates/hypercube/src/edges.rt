ghost use Rattle.std.specs.Prelude.{◌≡◌, ◌<◌, ◌≤◌, ◌++◌, ◌∷◌, ◌==◌, [], not, if◌then◌else◌, length, drop, slice_index, IfOk, OnOk};
ghost use Rattle.sdc_base.specs.Cells.{cut_tree};
ghost use Rattle.sdc_base.specs.Cubes as spec;
ghost use Rattle.hypercube.specs.Branches as branches;

use arrayvec::ArrayVec;
use linked_tables::Book;
use sdc_base::{Dimension, Dimensions, Edge, Few, Items, Memory, Place};
use std::alloc::Global;

/// The edges from the codes of a name, variable by variable of a table with these parents.
pub(crate) fn edges_at(
    alloc: Global,
    book: &Book,
    name: &Place,
    table: &Dimensions,
    parents: &Place,
) -> Result<Vec<Items<Edge>>, Memory>
    ensures edges { IfOk result (λ lists. lists.items ≡ spec.edges_at book.now.trees name.now table.now parents.now) }
    ensures at_most_8 { IfOk result (λ lists. length lists.items ≤ 8) }
{
    let mut lists = Vec::new(alloc);
    let above = parents.as_slice();
    let few = table.len();
    'variables: for k in 0..few {
        if k >= above.len() {
            return Ok(lists);
        }
        let dimension = table.as_slice()[k];
        let edges = edges_from(
            alloc,
            book,
            dimension,
            above[k],
            code_at(name.as_slice(), dimension.variable),
        )?;
        lists.push(edges)?;
    }
    Ok(lists)
}

/// The codes of a name, variable by variable of a table with these parents.
pub(crate) fn codes_at(name: &Place, table: &Dimensions, parents: &Place) -> Place
    ensures { result ≡ branches.codes_at name.now table.now parents.now }
{
    let mut codes: ArrayVec<u32, 8> = ArrayVec::new();
    let above = parents.as_slice();
    let few = table.len();
    'variables: for k in 0..few {
        if k >= above.len() {
            return Few::new(codes);
        }
        let dimension = table.as_slice()[k];
        let code = code_at(name.as_slice(), dimension.variable);
        codes.push(code);
    }
    Few::new(codes)
}

/// The codes behind the first so many.
pub(crate) fn codes_behind(codes: &[u32], k: usize) -> &[u32]
    ensures { result.now ≡ drop k codes.now }
{
    &codes[k.min(codes.len())..]
}

// The edges from a code of a variable, in a subtable with this parent of a table that spans it so.
fn edges_from(
    alloc: Global,
    book: &Book,
    dimension: Dimension,
    parent: u32,
    code: u32,
) -> Result<Items<Edge>, Memory>
    ensures { IfOk result (λ edges. edges ≡ spec.edges_from (cut_tree book.now.trees dimension) parent code) }
{
    let mut edges = Vec::new(alloc);
    add_edge(parent, code, parent, &mut edges)?;
    let mut met = book.first_child_within(dimension, parent);
    'children: while let Some(child) = met {
        add_edge(parent, code, child, &mut edges)?;
        met = book.next_sibling(dimension.variable, child);
    }
    Ok(Items::new(edges))
}

// Adds the edge to another code, unless it is the same.
fn add_edge(parent: u32, code: u32, other: u32, edges: &mut Vec<Edge>) -> Result<(), Memory>
    ensures { OnOk result (edges.new.items
        ≡ (if not (other == code) then edges.old.items ++ spec.edge_to parent code other ∷ [] else edges.old.items)) }
{
    if other != code {
        edges.push(Edge {
            code,
            other,
            equal: code == parent || other == parent,
        })?;
    }
    Ok(())
}

// The code of a name for a variable, and the total's where it has none.
fn code_at(name: &[u32], variable: u32) -> u32
    ensures { result ≡ slice_index name.now variable }
{
    let Some(code) = name.get(variable as usize) else {
        return 0;
    };
    *code
}
