ghost use Rattle.std.specs.Prelude.{◌≡◌, ◌<◌, ◌≤◌, ◌+◌, ◌++◌, ◌∷◌, ◌==◌, [], not, if◌then◌else◌, length, map, drop, slice_index_or, IfOk, OnOk};
ghost use Rattle.sdc_base.specs.CutTrees.{children_within};
ghost use Rattle.sdc_base.specs.Cells.{cut_tree, trees_of};
ghost use Rattle.sdc_base.specs.Subtables as spec;
ghost use Rattle.modular_plan.specs.Beginnings.{subtables_below};

use linked_tables::Book;
use sdc_base::{Dimension, Dimensions, Few, Items, Memory, Place, Subtable, with_code};
use std::alloc::Global;

/// The subtables of a book, by their tables and then by the places of their parents.
pub(crate) fn all_subtables(alloc: Global, book: &Book) -> Result<Vec<Subtable>, Memory>
    ensures { IfOk result (λ found. found.items ≡ spec.subtables_from book.now.trees 0 book.now.tables) }
{
    let mut found = Vec::new(alloc);
    'tables: for t in 0..book.tables() {
        add_table(alloc, book, t, &mut found)?;
    }
    Ok(found)
}

// Adds the subtables of table t.
fn add_table(alloc: Global, book: &Book, t: u32, found: &mut Vec<Subtable>) -> Result<(), Memory>
    requires { t < length book.now.tables }
    ensures { OnOk result (found.new.items
        ≡ found.old.items ++ spec.subtables_in t (trees_of book.now.trees (slice_index_or book.now.tables t []))) }
{
    let Some(table) = book.spans(t) else {
        return Ok(());
    };
    let lists = inner_lists(alloc, book, table)?;
    add_choices(t, lists.as_slice(), &Few::empty(), found)
}

// The codes that have children in a table, variable by variable of it.
fn inner_lists(alloc: Global, book: &Book, table: &Dimensions) -> Result<Vec<Items<u32>>, Memory>
    ensures lists { IfOk result (λ lists. lists.items ≡ map spec.inner_codes (trees_of book.now.trees table.now)) }
    ensures at_most_8 { IfOk result (λ lists. length lists.items ≤ 8) }
{
    let mut lists = Vec::new(alloc);
    let few = table.len();
    'variables: for k in 0..few {
        let codes = inner_codes(alloc, book, table.as_slice()[k])?;
        lists.push(codes)?;
    }
    Ok(lists)
}

// The codes of a variable that have children in a table that spans it so.
fn inner_codes(alloc: Global, book: &Book, dimension: Dimension) -> Result<Items<u32>, Memory>
    ensures { IfOk result (λ codes. codes ≡ spec.inner_codes (cut_tree book.now.trees dimension)) }
{
    let mut codes = Vec::new(alloc);
    let size = book.size(dimension.variable);
    'codes: for code in 0..size {
        add_inner(book, dimension, code as u32, &mut codes)?;
    }
    Ok(Items::new(codes))
}

// Adds a code, where it has children.
fn add_inner(
    book: &Book,
    dimension: Dimension,
    code: u32,
    codes: &mut Vec<u32>,
) -> Result<(), Memory>
    ensures { OnOk result (codes.new.items
        ≡ (if not (length (children_within (cut_tree book.now.trees dimension) code) == 0)
        then codes.old.items ++ code ∷ [] else codes.old.items)) }
{
    if has_children(book, dimension, code) {
        codes.push(code)?;
    }
    Ok(())
}

// Adds the subtables of table t whose parents begin so and go on with a code of each list that is left.
fn add_choices(
    t: u32,
    lists: &[Items<u32>],
    parents: &Place,
    found: &mut Vec<Subtable>,
) -> Result<(), Memory>
    requires at_most_8 { length lists.now ≤ 8 }
    ensures { OnOk result (found.new.items
        ≡ found.old.items ++ subtables_below t parents.now (drop (length parents.now) lists.now)) }
{
    let k = parents.len();
    if k >= lists.len() {
        found.push(Subtable {
            table: t,
            parents: parents.copy(),
        })?;
        return Ok(());
    }
    let list = &lists[k];
    'codes: for code in list.as_slice() {
        let longer = with_code(parents.as_slice(), *code);
        add_choices(t, lists, &longer, found)?;
    }
    Ok(())
}

// Whether a code of a variable has children in a table that spans it so.
fn has_children(book: &Book, dimension: Dimension, code: u32) -> bool
    ensures { result ≡ not (length (children_within (cut_tree book.now.trees dimension) code) == 0) }
{
    book.first_child_within(dimension, code).is_some()
}
