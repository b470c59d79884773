//! Books whose cells have stated truths, for tests.

use code_trees::CodeTree;
use fixture_cells::set_truth;
use fixture_records::{places, tables};
use linked_tables::Book;
use sdc_base::Dimension;
use std::alloc::Global;
use std::test::Fail;

// Gives the first cells of a book these truths.
fn set_truths(book: &mut Book, truths: &[u32]) {
    for (cell, truth) in truths.iter().enumerate() {
        if cell < 100 {
            set_truth(book, cell as u32, *truth);
        }
    }
}

// The book of tables over these trees, whose cells have these truths.
pub(crate) fn book_of(
    alloc: Global,
    trees: Vec<CodeTree>,
    spanned: &[&[u32]],
    truths: &[u32],
) -> Result<Book, Fail> {
    let spanned = places(alloc, spanned)?;
    if trees.len() > 8 || spanned.len() > 100 {
        return Err(Fail::new("too many trees or tables for a book"));
    }
    let mut book = Book::new(alloc, trees, spanned)?;
    set_truths(&mut book, truths);
    Ok(book)
}

// The same of tables that take their variables to a depth.
pub(crate) fn book_with_depths(
    alloc: Global,
    trees: Vec<CodeTree>,
    spanned: &[&[Dimension]],
    truths: &[u32],
) -> Result<Book, Fail> {
    let spanned = tables(alloc, spanned)?;
    if trees.len() > 8 || spanned.len() > 100 {
        return Err(Fail::new("too many trees or tables for a book"));
    }
    let mut book = Book::with_depths(alloc, trees, spanned)?;
    set_truths(&mut book, truths);
    Ok(book)
}
