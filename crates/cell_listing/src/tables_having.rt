ghost use Rattle.std.specs.Prelude.{◌≡◌, ◌+◌, ◌++◌, ◌∷◌, [], if◌then◌else◌, decimal, length, take, drop, IfOk, OnOk};
ghost use Rattle.linked_tables.specs.Laws as laws;
ghost use Rattle.cell_listing.specs.Columns.{having_from};
ghost use Rattle.cell_listing.specs.Columns as spec;

use crate::amounts::add_number;
use crate::words::add_spaced;
use linked_tables::Book;
use sdc_base::{Dimension, Dimensions, Items, Memory, Text};
use std::alloc::Global;

/// Puts the numbers of the tables that have the cell of this name, from 1 and ascending, behind the fields that are there.
pub(crate) fn add_tables(
    alloc: Global,
    fields: &mut Items<Text>,
    book: &Book,
    tables: &[Dimensions],
    name: &[u32],
) -> Result<(), Memory>
    ensures { OnOk result (fields.new
        ≡ fields.old ++ spec.spaced (having_from book.now.trees 1 tables.now name.now) ∷ []) }
{
    let having = tables_having(alloc, book, tables, name)?;
    add_spaced(alloc, fields, having.as_slice())
}

// The numbers of the tables that have the cell of this name, from 1 and ascending.
fn tables_having(
    alloc: Global,
    book: &Book,
    tables: &[Dimensions],
    name: &[u32],
) -> Result<Items<Text>, Memory>
    ensures { IfOk result (λ words. words ≡ having_from book.now.trees 1 tables.now name.now) }
{
    let mut words = Items::empty(alloc);
    'tables: for (t, table) in tables.iter().enumerate() {
        let has = has_cell(book, table.as_slice(), name);
        add_table(alloc, t as u64 + 1, has, &mut words)?;
    }
    Ok(words)
}

// Adds the number of a table that has the cell.
fn add_table(alloc: Global, number: u64, has: bool, words: &mut Items<Text>) -> Result<(), Memory>
    ensures { OnOk result (words.new ≡ words.old ++ (if has then decimal number ∷ [] else [])) }
{
    if has {
        add_number(alloc, words, number)?;
    }
    Ok(())
}

// Whether a table has the cell of this name: each code of the name is one that the table's cells can have.
fn has_cell(book: &Book, table: &[Dimension], name: &[u32]) -> bool
    ensures { result ≡ spec.has_cell book.now.trees table.now name.now }
{
    'variables: for (variable, code) in name.iter().enumerate() {
        if !is_code(book, table, variable, *code) {
            return false;
        }
    }
    true
}

// Whether a code is one that the table's cells can have for the variable: where the table spans it one that is at most as
// deep as the table goes, and else the total's.
fn is_code(book: &Book, table: &[Dimension], variable: usize, code: u32) -> bool
    ensures { result ≡ laws.is_code book.now.trees table.now variable code }
{
    for dimension in table {
        if dimension.variable as usize == variable {
            return book.has_code(*dimension, code);
        }
    }
    code == 0
}
