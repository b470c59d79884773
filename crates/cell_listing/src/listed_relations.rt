ghost use Rattle.std.specs.Prelude.{◌≡◌, ◌≢◌, ℕ, slice_index_or, IfOk, IfSome, OnOk};
ghost use Rattle.relations.specs.Holding.{sum_in};
ghost use Rattle.cell_listing.specs.ListedRelations.{AreRelationsOf, IsOneMore, IsSumFor};

use linked_tables::Book;
use relations::relations_of;
use sdc_base::{Items, Memory, Relation};
use std::alloc::Global;

/// A relation between cells: its number, its total, its parts, and the variable for which these lie right below the
/// total.
#[derive(Drop)]
pub(crate) struct ListedRelation {
    pub number: u64,
    pub total: u32,
    /// Its place among the variables that span the job's tables.
    pub variable: u32,
    pub parts: Items<u32>,
}

/// The relations between the cells of a book, in the order of their numbers, each with its variable.
pub(crate) fn listed_relations(alloc: Global, book: &Book) -> Result<Items<ListedRelation>, Memory>
    ensures { IfOk result (AreRelationsOf book.now.trees book.now.tables) }
{
    let system = relations_of(alloc, book)?;
    let mut listed = Items::empty(alloc);
    'relations: for relation in system.relations.into_vec() {
        add_relation(book, relation, &mut listed)?;
    }
    Ok(listed)
}

// Adds a relation, with its variable, under the next number.
fn add_relation(
    book: &Book,
    relation: Relation,
    listed: &mut Items<ListedRelation>,
) -> Result<(), Memory>
    requires { (variable : ℕ) × IsSumFor book.now.trees book.now.tables (sum_in relation) variable }
    ensures { OnOk result (IsOneMore book.now.trees book.now.tables (sum_in relation) listed.old listed.new) }
{
    // A relation is for some variable.
    let Some(variable) = variable_of(book, &relation) else {
        return Err(Memory);
    };
    let number = listed.as_slice().len() as u64;
    listed.push(ListedRelation {
        number,
        total: relation.total,
        variable,
        parts: relation.parts,
    })
}

// The variable that a relation is for: the one for which its first part has another code than its total.
fn variable_of(book: &Book, relation: &Relation) -> Option<u32>
    requires { (variable : ℕ) × IsSumFor book.now.trees book.now.tables (sum_in relation.now) variable }
    ensures { IfSome result (IsSumFor book.now.trees book.now.tables (sum_in relation.now)) }
{
    let total = book.name(relation.total)?;
    let part = book.name(*relation.parts.as_slice().first()?)?;
    first_difference(book.variables(), total.as_slice(), part.as_slice())
}

// The first of so many variables for which two cells have different codes.
fn first_difference(variables: u32, one: &[u32], other: &[u32]) -> Option<u32>
    ensures { IfSome result (λ variable. slice_index_or one.now variable 0 ≢ slice_index_or other.now variable 0) }
{
    'variables: for variable in 0..variables {
        if code_for(one, variable) != code_for(other, variable) {
            return Some(variable);
        }
    }
    None
}

// The code of a cell's name for a variable, the total's where the name has none.
fn code_for(name: &[u32], variable: u32) -> u32
    ensures { result ≡ slice_index_or name.now variable 0 }
{
    match name.get(variable as usize) {
        Some(code) => *code,
        None => 0,
    }
}
