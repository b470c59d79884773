use linked_tables::Book;

/// Gives a cell of a book this truth; a cell that the book doesn't have is passed over.
pub fn set_truth(book: &mut Book, cell: u32, truth: u32) {
    if let Some(mark) = book.mark_mut(cell) {
        mark.facts.truth = i128::from(truth);
    }
}
