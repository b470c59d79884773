ghost use Rattle.std.specs.Prelude.{◌≡◌, ◌<◌, ◌≤◌, [], length, fold, drop, slice_get, slice_index_or, All, IfOk, OnOk};
ghost use Rattle.std.specs.Option.{option_map_or};
ghost use Rattle.sdc_base.specs.Cells.{cut_tree};
ghost use Rattle.sdc_base.specs.Cubes as spec;
ghost use Rattle.linked_tables.specs.BookCells.{cells};
ghost use Rattle.hypercube.specs.LeastCubes.{is_marked};
ghost use Rattle.modular_plan.specs.Plans as plans;
ghost use Rattle.modular_plan.specs.SubtablePlaces as subtable_places;

use linked_tables::Book;
use sdc_base::{Dimension, Dimensions, Few, Items, Memory, Place, Subtable, with_code};
use std::alloc::Global;
use std::collections::BTreeSet;

/// The hidden cells of a subtable, by their numbers upwards. It takes one look-up for each place of the subtable.
pub(crate) fn hidden_in(
    alloc: Global,
    book: &Book,
    subtable: &Subtable,
) -> Result<Items<u32>, Memory>
    ensures cells { IfOk result (λ found. found ≡ plans.hidden_in book.now (is_marked book.now) subtable.now) }
    ensures within { IfOk result (λ found. All (λ cell. cell < length (cells book.now)) found) }
{
    // for the proof: what holds of every book
    let _cells = book.cells();
    let lists = code_lists(alloc, book, subtable)?;
    let mut found = BTreeSet::new(alloc);
    add_places(
        book,
        subtable.table,
        lists.as_slice(),
        &Few::empty(),
        &mut found,
    )?;
    let numbers = numbers_in(alloc, found)?;
    Ok(Items::new(numbers))
}

// The numbers of a set, upwards.
fn numbers_in(alloc: Global, set: BTreeSet<u32>) -> Result<Vec<u32>, Memory>
    ensures { IfOk result (λ numbers. numbers.items ≡ set.keys) }
{
    let numbers = set.into_iter().collect(alloc)?;
    Ok(numbers)
}

// Adds the hidden cells at the places of table t that begin so and go on with a code of each list that is left. There
// are at most eight lists, one for each variable of a table, and so many codes a place can hold.
fn add_places(
    book: &Book,
    t: u32,
    lists: &[Items<u32>],
    begun: &Place,
    found: &mut BTreeSet<u32>,
) -> Result<(), Memory>
    requires at_most_8 { length lists.now ≤ 8 }
    ensures { OnOk result (found.new.keys ≡ fold (subtable_places.with_place book.now t) found.old.keys
        (subtable_places.places_below begun.now (drop (length begun.now) lists.now))) }
{
    let k = begun.len();
    if k >= lists.len() {
        return add_place(book, t, begun, found);
    }
    let list = &lists[k];
    'codes: for code in list.as_slice() {
        let longer = with_code(begun.as_slice(), *code);
        add_places(book, t, lists, &longer, found)?;
    }
    Ok(())
}

// Adds the cell at a place of table t, where one stands there and is hidden.
fn add_place(book: &Book, t: u32, place: &Place, found: &mut BTreeSet<u32>) -> Result<(), Memory>
    ensures { OnOk result (found.new.keys ≡ subtable_places.with_place book.now t found.old.keys place.now) }
{
    let Some(cell) = book.id(t, place.as_slice()) else {
        return Ok(());
    };
    if is_hidden(book, cell) {
        found.insert(cell)?;
    }
    Ok(())
}

/// Whether a cell is marked as hidden.
pub(crate) fn is_hidden(book: &Book, cell: u32) -> bool
    ensures { result ≡ is_marked book.now cell }
{
    match book.marks().get(cell as usize) {
        Some(mark) => mark.hidden,
        None => false,
    }
}

// The codes of a subtable, variable by variable of its table.
fn code_lists(alloc: Global, book: &Book, subtable: &Subtable) -> Result<Vec<Items<u32>>, Memory>
    ensures lists { IfOk result (λ lists. lists.items ≡ subtable_places.code_lists book.now.trees
        (slice_index_or book.now.tables subtable.now.table []) subtable.now.parents) }
    ensures at_most_8 { IfOk result (λ lists. length lists.items ≤ 8) }
{
    let mut lists = Vec::new(alloc);
    let table = table_of(book, subtable.table);
    let few = table.len();
    'variables: for k in 0..few {
        let dimension = table.as_slice()[k];
        let codes = codes_of(alloc, book, dimension, subtable.parents.as_slice(), k)?;
        lists.push(codes)?;
    }
    Ok(lists)
}

// The variables that a table spans, with their depths; none where there is no such table.
fn table_of(book: &Book, t: u32) -> Dimensions
    ensures { result ≡ slice_index_or book.now.tables t [] }
{
    match book.spans(t) {
        Some(table) => table.copy(),
        None => Few::empty(),
    }
}

// The codes of a variable that a table spans so, in a subtable whose parent for it stands at place k; none where there is
// no such parent.
fn codes_of(
    alloc: Global,
    book: &Book,
    dimension: Dimension,
    parents: &[u32],
    k: usize,
) -> Result<Items<u32>, Memory>
    ensures { IfOk result (λ codes. codes
        ≡ option_map_or (spec.codes_in (cut_tree book.now.trees dimension)) (slice_get parents.now k) []) }
{
    match parents.get(k) {
        Some(parent) => codes_in(alloc, book, dimension, *parent),
        None => Ok(Items::new(Vec::new(alloc))),
    }
}

// A code of a variable that a table spans so, and its children in the table.
fn codes_in(
    alloc: Global,
    book: &Book,
    dimension: Dimension,
    parent: u32,
) -> Result<Items<u32>, Memory>
    ensures { IfOk result (λ codes. codes ≡ spec.codes_in (cut_tree book.now.trees dimension) parent) }
{
    let mut codes = Vec::new(alloc);
    codes.push(parent)?;
    let mut met = book.first_child_within(dimension, parent);
    'children: while let Some(child) = met {
        codes.push(child)?;
        met = book.next_sibling(dimension.variable, child);
    }
    Ok(Items::new(codes))
}
