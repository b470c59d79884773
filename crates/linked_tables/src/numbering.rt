ghost use Rattle.std.specs.Prelude.{◌≡◌, ◌≤◌, ◌<◌, ◌^◌, ◌++◌, ◌∷◌, [], length, map, fold, All, None, Ok, IfOk, IfErr, OnOk};
ghost use Rattle.sdc_base.specs.Answers.{Fails};
ghost use Rattle.sdc_base.specs.Cells.{named_by, with_name};
ghost use Rattle.sdc_base.specs.Cells as cells;
ghost use Rattle.linked_tables.specs.BlankMarks.{IsBlank};
ghost use Rattle.linked_tables.specs.Tables.{book_with_depths, book_fault_of, first_table_fault, most_cells, unless_fault, variables_fault};
ghost use Rattle.linked_tables.specs.BookKeeping.{IsNumbered, names_within_limit, names_below};

use crate::book_fault::BookFault;
use crate::mark::Mark;
use crate::names::{Name, Names};
use crate::places::{is_within, size_at, spans_twice, spans_unknown};
use code_trees::CodeTree;
use sdc_base::{Dimension, Dimensions, Place, name_at, whole_table, with_code};
use std::alloc::{AllocError, Global};

// The most cells of a book.
const MOST_CELLS: usize = 60_000;

/// The names of cells in the order of their numbers, and how many of them the first t tables name, for each t.
#[derive(Drop)]
pub(crate) struct Numbering {
    pub(crate) names: Names,
    pub(crate) starts: Vec<u32>,
    /// The numbers of the cells at all places, table after table, as a guess.
    pub(crate) guesses: Vec<usize>,
    /// Where the guesses of each table begin.
    pub(crate) bases: Vec<usize>,
}

/// Tables that have all codes of the variables that these lists name.
pub(crate) fn whole_tables(alloc: Global, tables: &[Place]) -> Result<Vec<Dimensions>, AllocError>
    ensures { IfOk result (λ made. made.items ≡ map cells.whole_table tables.now) }
{
    let mut made = Vec::new(alloc);
    'tables: for table in tables {
        made.push(whole_table(table))?;
    }
    Ok(made)
}

/// Numbers the cells of tables.
pub(crate) fn number_cells(
    alloc: Global,
    trees: &[CodeTree],
    tables: &[Dimensions],
) -> Result<Numbering, BookFault>
    requires at_most_8 { length trees.now ≤ 8 }
    requires fewer { length tables.now < 2 ^ 32 }
    ensures none { OnOk result (first_table_fault trees.now [] tables.now ≡ None) }
    ensures fault { IfErr result (λ fault. Fails (book_fault_of fault) (book_with_depths trees.now tables.now)) }
    ensures numbered { IfOk result (λ made. IsNumbered trees.now tables.now made.names made.starts.items) }
{
    let mut names = Names::new(alloc);
    let mut starts = Vec::new(alloc);
    let mut guesses = Vec::new(alloc);
    let mut bases = Vec::new(alloc);
    starts.push(0)?;
    'tables: for (t, table) in tables.iter().enumerate() {
        check_variables(trees.len(), t as u32, table.as_slice())?;
        bases.push(guesses.len())?;
        name_below(trees, t as u32, table, &[], &mut names, &mut guesses)?;
        starts.push(names.len() as u32)?;
    }
    Ok(Numbering {
        names,
        starts,
        guesses,
        bases,
    })
}

// Refuses a table that spans a variable that there isn't, or one twice.
fn check_variables(variables: usize, t: u32, table: &[Dimension]) -> Result<(), BookFault>
    ensures none { OnOk result (variables_fault variables t table.now ≡ None) }
    ensures fault { IfErr result (λ fault. Fails (book_fault_of fault)
        (unless_fault (variables_fault variables t table.now) (tt {0}))) }
{
    if spans_unknown(variables, table) {
        return Err(BookFault::NoSuchVariable(t));
    }
    if spans_twice(table) {
        return Err(BookFault::TwiceInTable(t));
    }
    Ok(())
}

// Adds the names of the places of a table that begin with this one, and stops at the first that is too many.
fn name_below(
    trees: &[CodeTree],
    t: u32,
    table: &Dimensions,
    place: &[u32],
    names: &mut Names,
    guesses: &mut Vec<usize>,
) -> Result<(), BookFault>
    requires at_most_8 { length trees.now ≤ 8 }
    requires begun { length place.now ≤ length table.now }
    requires room { length names.old ≤ most_cells }
    ensures names { OnOk result (names_within_limit t
        (fold with_name names.old (names_below trees.now table.now place.now)) ≡ Ok names.new) }
    ensures fault { IfErr result (λ fault. Fails (book_fault_of fault)
        (names_within_limit t (fold with_name names.old (names_below trees.now table.now place.now)))) }
{
    if place.len() >= table.len() {
        let name = name_at(trees.len(), table.as_slice(), place);
        return add_name(t, Name::new(name), names, guesses);
    }
    let dimension = table.as_slice()[place.len()];
    let size = size_at(trees, dimension.variable);
    'codes: for code in 0..size {
        if !is_within(trees, dimension, code as u32) {
            continue 'codes;
        }
        let longer = with_code(place, code as u32);
        name_below(trees, t, table, longer.as_slice(), names, guesses)?;
    }
    Ok(())
}

// Adds a name, unless it is there already; refuses one that is too many.
fn add_name(
    t: u32,
    name: Name,
    names: &mut Names,
    guesses: &mut Vec<usize>,
) -> Result<(), BookFault>
    ensures names { OnOk result (names_within_limit t (with_name names.old name) ≡ Ok names.new) }
    ensures fault { IfErr result
        (λ fault. Fails (book_fault_of fault) (names_within_limit t (with_name names.old name))) }
{
    let number = match names.number_of(&name) {
        Some(number) => number,
        None => names.len(),
    };
    names.add(name)?;
    guesses.push(number)?;
    if names.len() > MOST_CELLS {
        return Err(BookFault::TooManyCells(t));
    }
    Ok(())
}

/// As many marks without records.
pub(crate) fn blank_marks(alloc: Global, cells: usize) -> Result<Vec<Mark>, AllocError>
    ensures len { IfOk result (λ marks. length marks.items ≡ cells) }
    ensures blank { IfOk result (λ marks. All IsBlank marks.items) }
{
    let mut marks = Vec::new(alloc);
    'marks: for _ in 0..cells {
        marks.push(Mark::blank())?;
    }
    Ok(marks)
}
