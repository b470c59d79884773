ghost use Rattle.std.specs.Prelude.{◌≡◌, ◌↔◌, ◌≤◌, ◌<◌, ◌^◌, ◌+◌, ◌-◌, length, take, drop, slice_get, is_some, option_map, All, IsNone, IfSome, IfOk};
ghost use Rattle.std.specs.Option.{ForSome};
ghost use Rattle.sdc_base.specs.Answers.{Gives};
ghost use Rattle.linked_tables.specs.BlankMarks.{IsBlank};
ghost use Rattle.linked_tables.specs.Tables.{book_of, book_with_depths, book_fault_of};
ghost use Rattle.linked_tables.specs.BookCells.{cell_at, is_place_of, number_of, IsBook};
ghost use Rattle.linked_tables.specs.BookCells as spec;

use crate::book_fault::BookFault;
use crate::mark::Mark;
use crate::names::{Name, Names};
use crate::numbering::{Numbering, blank_marks, number_cells, whole_tables};
use crate::places::{is_place, know_trees, size_at};
use code_trees::CodeTree;
use sdc_base::{Dimension, Dimensions, Place, name_at};
use std::alloc::Global;
use std::marker::Model;

/// Linked tables over the trees of some variables, with one mark for each cell, which contracts see as the trees,
/// the tables and the marks. A table is the list of the variables that it spans, each with the depth to which the table
/// takes its tree.
///
/// A cell's name is one code for each variable, the total for those that a table doesn't span, and two tables share
/// a cell where the names are equal. Cells are numbered from 0 in the order in which the tables first name them, the
/// places of a table in lexicographic order. There are at most 8 variables and 60,000 cells.
#[derive(Drop)]
pub struct Book {
    pub(crate) trees: Vec<CodeTree>,
    tables: Vec<Dimensions>,
    names: Names,
    starts: Vec<u32>,
    guesses: Vec<usize>,
    bases: Vec<usize>,
    marks: Vec<Mark>,
}

impl Model for Book {
    ghost use Rattle.linked_tables.specs.BookViews.{BookView};
    ghost use Rattle.linked_tables.specs.BookKeeping.{IsKept};

    ghost Value = { BookView };

    ghost view = { λ s. record { trees = s.trees.items; tables = s.tables.items; marks = s.marks.items } };

    ghost invariant = { λ s. IsKept s.trees.items s.tables.items s.names s.starts.items s.marks.items };
}

impl Book {
    /// A book of these tables, each of which is the list of the variables that it spans, numbered from 0 in the order
    /// of these trees, with all codes of their trees. There is one mark for each cell; it has no records, keeps the two largest contributions at scale
    /// 1, and isn't hidden.
    ///
    /// There are at most 8 trees, and fewer than `2^32` tables; a table may span no variable, and there may be none.
    ///
    /// The first table that has a fault is refused by its number, with what comes first of: a variable that there
    /// isn't, a variable that stands twice in it, and more than 60,000 distinct cells in the tables up to it; want of
    /// memory is `Memory`. Each drops what was handed over. It takes one look-up for each place of each table, and
    /// stops at the first cell too many. Numbering is the manual's order of tables, the limit and the order of
    /// refusals are argus's own.
    pub fn new(alloc: Global, trees: Vec<CodeTree>, tables: Vec<Place>) -> Result<Book, BookFault>
        requires at_most_8 { length trees.items ≤ 8 }
        requires fewer { length tables.items < 2 ^ 32 }
        ensures exact { Gives book_fault_of (λ book. (book.trees, book.tables)) result
            (book_of trees.items tables.items) }
        ensures blank { IfOk result (λ book. All IsBlank book.marks) }
        ensures one_each { IfOk result (λ book. length book.marks ≡ length (spec.cells book)) }
    {
        let tables = whole_tables(alloc, &tables)?;
        Book::with_depths(alloc, trees, tables)
    }

    /// The same of tables that take the trees of their variables to a depth: such a table has those codes of a variable
    /// that are at most so many steps below the total. It shares each of its cells with the other tables that have a
    /// cell of that name, whatever their depths. A depth at or above that of a tree changes nothing.
    pub fn with_depths(
        alloc: Global,
        trees: Vec<CodeTree>,
        tables: Vec<Dimensions>,
    ) -> Result<Book, BookFault>
        requires at_most_8 { length trees.items ≤ 8 }
        requires fewer { length tables.items < 2 ^ 32 }
        ensures exact { Gives book_fault_of (λ book. (book.trees, book.tables)) result
            (book_with_depths trees.items tables.items) }
        ensures blank { IfOk result (λ book. All IsBlank book.marks) }
        ensures one_each { IfOk result (λ book. length book.marks ≡ length (spec.cells book)) }
    {
        know_trees(&trees);
        let Numbering {
            names,
            starts,
            guesses,
            bases,
        } = number_cells(alloc, &trees, &tables)?;
        let marks = blank_marks(alloc, names.len())?;
        Ok(Book {
            trees,
            tables,
            names,
            starts,
            guesses,
            bases,
            marks,
        })
    }

    /// The number of the cell at a place of table t, or none exactly where t is no table or the place isn't in it:
    /// a place is one code for each variable of the table, in the table's order, each a place in its variable's tree.
    /// It takes one look-up and no memory.
    pub fn id(&self, t: u32, place: &[u32]) -> Option<u32>
        ensures cell { result ≡ cell_at self.now t place.now }
        ensures found { is_some result ≡ is_place_of self.now t place.now }
        ensures name { IfSome result (λ cell. slice_get (spec.cells self.now) cell
            ≡ Some (spec.name_at self.now t place.now)) }
        ensures within { IfSome result (λ cell. cell < length self.now.marks) }
    {
        let table = self.spans(t)?;
        let number = self.number_in(t as usize, table.as_slice(), place)?;
        Some(number as u32)
    }

    /// The marks, in the order of the cells' numbers. It takes no memory.
    pub fn marks(&self) -> &[Mark]
        ensures { result.now ≡ self.now.marks }
    {
        self.marks.as_slice()
    }

    /// The name of a cell, or none behind the last cell: one code for each variable, the total's where the tables
    /// that have the cell don't span it.
    pub fn name(&self, cell: u32) -> Option<&Place>
        ensures { option_map (λ name. name.now) result ≡ slice_get (spec.cells self.now) cell }
    {
        self.names.get(cell as usize)
    }

    /// The number of the cell with this name, or none where no table has such a cell. It takes one look-up and no
    /// memory.
    pub fn number(&self, name: &Place) -> Option<u32>
        ensures number { result ≡ number_of self.now name.now }
        ensures within { IfSome result (λ cell. cell < length self.now.marks) }
    {
        let number = self.names.number_of(&Name::new(name.copy()))?;
        Some(number as u32)
    }

    /// The tree of a variable, or none behind the last one.
    pub fn tree(&self, variable: u32) -> Option<&CodeTree>
        ensures { option_map (λ tree. tree.now) result ≡ slice_get self.now.trees variable }
    {
        self.trees.get(variable as usize)
    }

    /// The variables that table t spans, each with the depth to which the table takes its tree, or none behind the last
    /// table.
    pub fn spans(&self, t: u32) -> Option<&Dimensions>
        ensures { option_map (λ table. table.now) result ≡ slice_get self.now.tables t }
    {
        self.tables.get(t as usize)
    }

    /// How many cells there are, and what holds of every book.
    pub fn cells(&self) -> u32
        ensures cells { result ≡ length (spec.cells self.now) }
        ensures marks { result ≡ length self.now.marks }
        ensures book { IsBook self.now }
    {
        self.marks.len() as u32
    }

    /// The number of the first cell that no table before t names: the cells that t is the first to name begin there,
    /// where there are any. It is the number of cells behind the last table.
    pub fn first_own(&self, t: u32) -> u32
        ensures { result ≡ spec.first_own self.now t }
    {
        self.start_of(t as usize) as u32
    }

    /// How many variables there are, each with its tree. They are numbered from 0.
    pub fn variables(&self) -> u32
        ensures { result ≡ length self.now.trees }
    {
        self.trees.len() as u32
    }

    /// How many tables there are.
    pub fn tables(&self) -> u32
        ensures { result ≡ length self.now.tables }
    {
        self.tables.len() as u32
    }
}

impl Book {
    ghost use Rattle.std.specs.Borrow.{sem};
    ghost use Rattle.std.specs.Prelude.{if◌then◌else◌, None, Some};
    ghost use Rattle.linked_tables.specs.Tables.{most_cells};
    ghost use Rattle.linked_tables.specs.BookCells.{is_in, name_in_table};
    ghost use Rattle.linked_tables.specs.Lending.{LendsMark, LendsPart};

    // The number of the cell at a place of a table that spans these variables: the guess, where its name is that of the
    // place, and else by a look-up.
    fn number_in(&self, t: usize, table: &[Dimension], place: &[u32]) -> Option<usize>
        ensures number { result ≡ (if is_in self.now table.now place.now
            then number_of self.now (name_in_table self.now table.now place.now) else None) }
        ensures within { IfSome result (λ number. number < length self.now.marks) }
        ensures within_most_cells { length self.now.marks ≤ most_cells }
    {
        if !is_place(&self.trees, table, place) {
            return None;
        }
        let name = Name::new(name_at(self.trees.len(), table, place));
        match self.guess(t, table, place, &name) {
            Some(number) => Some(number),
            None => self.names.number_of(&name),
        }
    }

    // The number that was noted for a place of table t, where its cell has this name.
    fn guess(&self, t: usize, table: &[Dimension], place: &[u32], name: &Name) -> Option<usize>
        ensures number { IfSome result (λ number. number_of self.now name.now ≡ Some number) }
        ensures within { IfSome result (λ number. number < length self.now.marks) }
    {
        let base = self.bases.get(t)?;
        let number = self
            .guesses
            .get(base.wrapping_add(rank_of(&self.trees, table, place)))?;
        let other = self.names.get(*number)?;
        if other.as_slice() != name.as_place().as_slice() {
            return None;
        }
        Some(*number)
    }

    /// How many cells the tables before t name, which is the number of the first cell of its own.
    pub(crate) fn start_of(&self, t: usize) -> usize
        ensures start { result ≡ spec.first_own self.now t }
        ensures within { result ≤ length self.now.marks }
        ensures within_most_cells { length self.now.marks ≤ most_cells }
    {
        match number_at(&self.starts, t) {
            Some(start) => start as usize,
            None => self.marks.len(),
        }
    }

    /// The mark of a cell, to write, or none behind the last cell. What is written is read through every table that
    /// has the cell, and no other mark, no tree and no table changes. It takes no memory.
    pub fn mark_mut(&mut self, cell: u32) -> Option<&mut Mark>
        ensures* writes_back { sem 𝓛 (LendsMark self.entry cell result) }
        ensures mark { option_map (λ mark. mark.now) result ≡ slice_get self.old.marks cell }
    {
        self.marks.get_mut(cell as usize)
    }

    /// Marks that stand side by side, to write.
    pub(crate) fn part_mut(&mut self, from: usize, to: usize) -> &mut [Mark]
        requires order { from ≤ to }
        requires within { to ≤ length self.old.marks }
        ensures* writes_back { sem 𝓛 (LendsPart self.entry from result) }
        ensures marks { result.now ≡ take (to - from) (drop from self.old.marks) }
    {
        self.marks.slice_mut(from..to)
    }
}

// How many places of a table stand before a place of it, where the table has all codes.
fn rank_of(trees: &[CodeTree], table: &[Dimension], place: &[u32]) -> usize {
    let mut rank: usize = 0;
    for (k, dimension) in table.iter().enumerate() {
        if k < place.len() {
            let size = size_at(trees, dimension.variable);
            rank = rank.wrapping_mul(size).wrapping_add(place[k] as usize);
        }
    }
    rank
}

// The number at a place.
fn number_at(numbers: &[u32], place: usize) -> Option<u32>
    ensures { result ≡ slice_get numbers.now place }
{
    let number = numbers.get(place)?;
    Some(*number)
}
