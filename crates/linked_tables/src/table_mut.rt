ghost use Rattle.std.specs.Prelude.{◌≡◌, ◌↔◌, ◌≤◌, length, is_some, IsNone, IfSome, slice_get};
ghost use Rattle.std.specs.Borrow.{sem};
ghost use Rattle.linked_tables.specs.BookCells.{cell_at, is_place_of};
ghost use Rattle.linked_tables.specs.Lending.{LendsMark, LendsCell, RestsWithTable};

use crate::book::Book;
use crate::mark::Mark;

/// A table of a book, to write the marks of its cells.
#[derive(Drop)]
pub struct TableMut<'a> {
    /// The book.
    pub book: &'a mut Book,
    /// The number of the table.
    pub number: u32,
}

impl Book {
    /// Table t, to write the marks of its cells, or none exactly where t isn't a table. It takes no memory.
    pub fn table(&mut self, t: u32) -> Option<TableMut<'_>>
        ensures* writes_back { sem 𝓛 (RestsWithTable self.entry result) }
        ensures none { IsNone result ↔ (length self.old.tables ≤ t) }
        ensures book { IfSome result (λ table. table.book.now ≡ self.old) }
        ensures number { IfSome result (λ table. table.number ≡ t) }
    {
        if self.tables() <= t {
            return None;
        }
        Some(TableMut {
            book: self,
            number: t,
        })
    }
}

impl<'a> TableMut<'a> {
    /// The mark of the cell at a place of the table, or none exactly where the place isn't in it. What is written is
    /// read through every table that has the cell, and no other mark, no tree and no table changes. It takes one
    /// look-up and no memory.
    pub fn cell_mut(&mut self, place: &[u32]) -> Option<&mut Mark>
        ensures* writes_back { sem 𝓛 (LendsCell self.entry place.now result) }
        ensures found { is_some result ≡ is_place_of self.old.book.now self.old.number place.now }
        ensures mark { IfSome result (λ mark. IfSome (cell_at self.old.book.now self.old.number place.now)
            (λ cell. slice_get self.old.book.now.marks cell ≡ Some mark.now)) }
    {
        let cell = self.book.id(self.number, place)?;
        let book = &mut *self.book;
        book.mark_mut(cell)
    }
}
