ghost use Rattle.std.specs.Prelude.{◌≡◌, ◌≤◌, ◌<◌, ◌∷◌, [], length, IfOk, All, map, slice_index_or, Some, slice_get};
ghost use Rattle.sdc_base.specs.RuleLevels.{figures_of_facts, keep_of};
ghost use Rattle.sdc_base.specs.Truths.{IsTruth};
ghost use Rattle.sdc_base.specs.Trees.{code_in};
ghost use Rattle.apriori.specs.Settling.{view_of_cell};
ghost use Rattle.job_inputs.specs.SoundJobs.{IsSoundJob};
ghost use Rattle.cell_listing.specs.Givens.{listed_as, IsGiven};
ghost use Rattle.cell_listing.specs.Columns as spec;

use crate::amounts::{add_amount, add_bound, add_number, figure_fields, price_by};
use crate::reasons::{add_reasons, kind_word};
use crate::tables_having::add_tables;
use crate::words::{add_all, add_word, add_words};
use job_inputs::DescribedJob;
use linked_tables::Book;
use rda_meta::Variable;
use sdc_base::{Cell, CellFacts, Dimensions, Items, Memory, Text};
use std::alloc::Global;

// The columns before the variables.
const PLACE_NAMES: &[&[u8]] = &[b"cell", b"tables"];

// The columns of what the records make of a cell.
const FIGURE_NAMES: &[&[u8]] = &[b"value", b"records", b"largest", b"second"];

// The columns of what a cell is to its protection.
const STANDING_NAMES: &[&[u8]] = &[
    b"status", b"rules", b"up", b"down", b"price", b"low", b"high",
];

/// A cell of a job: its number, its name, its facts, and what it is to its protection.
#[derive(Clone, Copy)]
pub(crate) struct ListingColumns<'a> {
    pub number: u32,
    pub name: &'a [u32],
    pub facts: &'a CellFacts,
    pub cell: &'a Cell,
}

/// The names of the columns of a job's listing.
pub(crate) fn column_names(alloc: Global, described: &DescribedJob) -> Result<Items<Text>, Memory>
    ensures at_least_two { IfOk result (λ names. 1 < length names) }
    ensures names { IfOk result (λ names. names ≡ spec.column_names described.now) }
{
    let mut names = Items::empty(alloc);
    add_words(alloc, &mut names, PLACE_NAMES)?;
    add_all(&mut names, variable_names(alloc, described)?)?;
    add_words(alloc, &mut names, FIGURE_NAMES)?;
    add_words(alloc, &mut names, STANDING_NAMES)?;
    Ok(names)
}

/// The names of the variables that span a job's tables.
pub(crate) fn variable_names(alloc: Global, described: &DescribedJob) -> Result<Items<Text>, Memory>
    ensures { IfOk result (λ names. names ≡ spec.variable_names described.now) }
{
    let variables = described.meta.variables.as_slice();
    let mut names = Items::empty(alloc);
    'places: for place in described.bound.spanning.as_slice() {
        names.push(name_in(alloc, variables, *place)?)?;
    }
    Ok(names)
}

// The name of the variable at a place of the metadata.
fn name_in(alloc: Global, variables: &[Variable], place: u32) -> Result<Text, Memory>
    ensures { IfOk result (λ name. name ≡ spec.name_in variables.now place) }
{
    match variables.get(place as usize) {
        Some(variable) => variable.name.copy(alloc),
        None => Ok(Text::new(Vec::new(alloc))),
    }
}

/// All that stands in the line of a cell.
pub(crate) fn cell_fields(
    alloc: Global,
    described: &DescribedJob,
    book: &Book,
    given: &ListingColumns<'_>,
) -> Result<Items<Text>, Memory>
    requires sound { IsSoundJob described.now }
    requires given { IsGiven described.now given.now }
    ensures at_least_two { IfOk result (λ fields. 1 < length fields) }
    ensures fields { IfOk result (λ fields. fields
        ≡ spec.cell_fields described.now book.now.trees (listed_as given.now)) }
{
    let decimals = described.bound.decimals;
    let mut fields = place_fields(alloc, book, described.bound.tables.as_slice(), given)?;
    add_all(&mut fields, code_fields(alloc, book, given.name)?)?;
    add_all(&mut fields, figure_fields(alloc, given.facts, decimals)?)?;
    add_all(&mut fields, standing_fields(alloc, described, given)?)?;
    Ok(fields)
}

// The number of a cell, and those of the tables that have it.
fn place_fields(
    alloc: Global,
    book: &Book,
    tables: &[Dimensions],
    given: &ListingColumns<'_>,
) -> Result<Items<Text>, Memory>
    ensures { IfOk result (λ fields. fields ≡ spec.place_fields book.now.trees tables.now (listed_as given.now)) }
{
    let mut fields = Items::empty(alloc);
    add_number(alloc, &mut fields, u64::from(given.number))?;
    add_tables(alloc, &mut fields, book, tables, given.name)?;
    Ok(fields)
}

// The codes of a cell's name, one for each variable.
fn code_fields(alloc: Global, book: &Book, name: &[u32]) -> Result<Items<Text>, Memory>
    ensures { IfOk result (λ fields. fields ≡ spec.codes_of_name book.now.trees name.now) }
{
    let mut fields = Items::empty(alloc);
    'variables: for variable in 0..book.variables() {
        let Some(code) = name.get(variable as usize) else {
            return Ok(fields);
        };
        add_word(alloc, &mut fields, code_at(book, variable, *code))?;
    }
    Ok(fields)
}

// A code of a variable, and nothing where it has no such code, as the definition reads it.
fn code_at(book: &Book, variable: u32, code: u32) -> &[u8]
    ensures { result.now ≡ code_in (slice_index_or book.now.trees variable []) code }
{
    match book.code(variable, code) {
        Some(bytes) => bytes,
        None => &[],
    }
}

// What a cell is to its protection.
#[tactic(auto, using(crate::proofs::Levels::up_enough, crate::proofs::Levels::down_enough, crate::proofs::Levels::low_enough, crate::proofs::Levels::high_enough))]
fn standing_fields(
    alloc: Global,
    described: &DescribedJob,
    given: &ListingColumns<'_>,
) -> Result<Items<Text>, Memory>
    requires sound { IsSoundJob described.now }
    requires given { IsGiven described.now given.now }
    ensures { IfOk result (λ fields. fields ≡ spec.standing_fields described.now (listed_as given.now)) }
{
    let ListingColumns { facts, cell, .. } = *given;
    let decimals = described.bound.decimals;
    let job = &described.job;
    let mut fields = Items::empty(alloc);
    add_word(alloc, &mut fields, kind_word(cell.kind))?;
    add_reasons(
        alloc,
        &mut fields,
        job.rules.list.as_slice(),
        cell.kind,
        facts,
    )?;
    add_amount(alloc, &mut fields, cell.up, decimals)?;
    add_amount(alloc, &mut fields, cell.down, decimals)?;
    add_number(alloc, &mut fields, price_by(job.cost, cell.price, facts))?;
    add_amount(alloc, &mut fields, cell.low, decimals)?;
    add_bound(alloc, &mut fields, cell.high, decimals)?;
    Ok(fields)
}
