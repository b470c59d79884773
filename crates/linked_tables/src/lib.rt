//! Linked tables over shared cells: one mark for each cell, which every table that has the cell sees.
#![tactic(auto)]

mod book;
mod book_fault;
mod laws;
mod lent;
mod mark;
mod names;
mod numbering;
mod places;
mod questions;
mod table_mut;

pub use book::Book;
pub use book_fault::BookFault;
pub use laws::{
    cells_by_code, numbers_are_names, tables_apart_share_the_total, turned_tables_share_all_cells,
    written_marks_stand,
};
pub use lent::Lent;
pub use mark::Mark;
pub use table_mut::TableMut;
