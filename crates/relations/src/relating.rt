ghost use Rattle.std.specs.Prelude.{◌≡◌, ◌<◌, ◌≤◌, ◌+◌, ◌++◌, ◌==◌, ◌&&◌, List, Some, true, not, length, map, slice_get, option_to_list, All, IfOk, OnOk};
ghost use Rattle.sdc_base.specs.AddingUp.{IsCoded};
ghost use Rattle.sdc_base.specs.Cells.{is_named};
ghost use Rattle.sdc_base.specs.Relations.{codes_below, relation_for, relations_among};
ghost use Rattle.sdc_base.specs.Relations as relations_specs;
ghost use Rattle.sdc_base.specs.Systems.{NamesCells};
ghost use Rattle.sdc_base.specs.declared.rows.Row.{Row as Record};
ghost use Rattle.linked_tables.specs.BookCells.{IsBook};
ghost use Rattle.linked_tables.specs.BookCells as book_cells;
ghost use Rattle.relations.specs.Holding.{AreTruths, HaveNoChildren, sum_in, HoldOnTruths, relations_of_cell};

use crate::below::{has_below, parts_of};
use crate::having::is_spanned;
use linked_tables::Book;
use sdc_base::{Items, Memory, Place, Relation, System};
use std::alloc::Global;

/// The relations between the cells of a book. For each pair of a cell and a variable there is one where some table
/// has the cell, spans the variable, and has codes right below the cell's: the cell is the sum of the cells that have
/// one of these in its place. They stand by cell and then by variable.
///
/// They hold on the truths of the marks where these are of records whose codes have no children. It takes one look-up
/// for each part of each relation, and for each pair of a cell and a variable a look at each code of the name for
/// each table; its one refusal is want of memory. That totals are sums of their parts, in all tables that have them, is
/// the handbook's (linked and hierarchical tables); the order is argus's own.
pub fn relations_of(alloc: Global, book: &Book) -> Result<System, Memory>
    ensures cells { IfOk result (λ system. system.cells ≡ length (book_cells.cells book.now)) }
    ensures exact { IfOk result (λ system. map sum_in system.relations ≡ relations_among book.now.trees book.now.tables) }
    ensures hold { (rows : List Record) → All (IsCoded book.now.trees) rows → HaveNoChildren book.now.trees rows
        → AreTruths book.now rows → IfOk result (λ system. HoldOnTruths book.now system) }
{
    let cells = book.cells();
    let mut relations = Vec::new(alloc);
    'numbers: for cell in 0..cells {
        add_cell(alloc, book, cell, &mut relations)?;
    }
    Ok(System {
        cells,
        relations: Items::new(relations),
    })
}

// Adds the relations of a cell, by variable.
fn add_cell(
    alloc: Global,
    book: &Book,
    cell: u32,
    relations: &mut Vec<Relation>,
) -> Result<(), Memory>
    requires book { IsBook book.now }
    requires known { cell < length book.now.marks }
    requires named { All (NamesCells (length book.now.marks)) relations.old.items }
    ensures added { OnOk result (map sum_in relations.new.items
        ≡ map sum_in relations.old.items
        ++ relations_of_cell book.now cell) }
    ensures within { OnOk result (All (NamesCells (length book.now.marks)) relations.new.items) }
    ensures at_most_8_more { OnOk result (length relations.new.items ≤ length relations.old.items + 8) }
{
    let Some(name) = book.name(cell) else {
        return Ok(());
    };
    'variables: for variable in 0..book.variables() {
        add_relation(alloc, book, cell, name, variable, relations)?;
    }
    Ok(())
}

// Adds the relation of a cell for a variable, where there is one.
fn add_relation(
    alloc: Global,
    book: &Book,
    cell: u32,
    name: &Place,
    variable: u32,
    relations: &mut Vec<Relation>,
) -> Result<(), Memory>
    requires book { IsBook book.now }
    requires at { slice_get (book_cells.cells book.now) cell ≡ Some name.now }
    requires known { variable < length book.now.trees }
    requires named { All (NamesCells (length book.now.marks)) relations.old.items }
    ensures added { OnOk result (map sum_in relations.new.items
        ≡ map sum_in relations.old.items
        ++ option_to_list (relation_for book.now.trees book.now.tables cell name.now variable)) }
    ensures within { OnOk result (All (NamesCells (length book.now.marks)) relations.new.items) }
    ensures at_most_1_more { OnOk result (length relations.new.items ≤ length relations.old.items + 1) }
{
    if has_relation(book, name, variable) {
        let parts = parts_of(alloc, book, name, variable)?;
        relations.push(Relation { total: cell, parts })?;
    }
    Ok(())
}

// Whether some table has the cell with this name, spans the variable, and has codes right below the cell's.
fn has_relation(book: &Book, name: &Place, variable: u32) -> bool
    requires book { IsBook book.now }
    requires cell { is_named (book_cells.cells book.now) name.now ≡ true }
    requires known { variable < length name.now }
    ensures { result ≡ (relations_specs.is_spanned book.now.trees book.now.tables name.now variable
        && not (length (codes_below book.now.trees name.now variable) == 0)) }
{
    is_spanned(book, name, variable) && has_below(book, name, variable)
}
