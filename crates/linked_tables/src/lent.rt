ghost use Rattle.std.specs.Prelude.{◌≡◌, ◌↔◌, ◌≤◌, length, IsNone, IfSome};
ghost use Rattle.std.specs.Borrow.{sem};
ghost use Rattle.linked_tables.specs.BookCells.{earlier_marks, own_marks};
ghost use Rattle.linked_tables.specs.Lending.{LendsOwn, RestsWithLent};

use crate::book::Book;
use crate::mark::Mark;

/// The marks of a table's cells: those of the cells that earlier tables name, to read, and beside them those of the
/// cells that it is the first to name, to write.
#[derive(Drop)]
pub struct Lent<'a> {
    /// The book.
    pub book: &'a mut Book,
    /// The number of the table.
    pub number: u32,
}

impl Book {
    /// The marks of table t's cells, or none exactly where t isn't a table. It takes no memory.
    pub fn lend(&mut self, t: u32) -> Option<Lent<'_>>
        ensures* writes_back { sem 𝓛 (RestsWithLent self.entry result) }
        ensures none { IsNone result ↔ (length self.old.tables ≤ t) }
        ensures book { IfSome result (λ lent. lent.book.now ≡ self.old) }
        ensures number { IfSome result (λ lent. lent.number ≡ t) }
    {
        if self.tables() <= t {
            return None;
        }
        Some(Lent {
            book: self,
            number: t,
        })
    }
}

impl<'a> Lent<'a> {
    /// The marks of the cells that tables before this one name.
    pub fn earlier(&self) -> &[Mark]
        ensures { result.now ≡ earlier_marks self.now.book.now self.now.number }
    {
        let book = &*self.book;
        let (earlier, _) = book.marks().split_at(book.start_of(self.number as usize));
        earlier
    }

    /// The marks of the cells that this table is the first to name. What is written stands there, and all other
    /// marks, the trees and the tables stay.
    pub fn own(&mut self) -> &mut [Mark]
        ensures* writes_back { sem 𝓛 (LendsOwn self.entry result) }
        ensures marks { result.now ≡ own_marks self.old.book.now self.old.number }
    {
        let t = self.number as usize;
        let from = self.book.start_of(t);
        let to = self.book.start_of(t + 1);
        let book = &mut *self.book;
        book.part_mut(from, to)
    }
}
