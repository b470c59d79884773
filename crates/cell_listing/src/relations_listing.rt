ghost use Rattle.std.specs.Prelude.{◌≡◌, ◌<◌, ◌++◌, ◌∷◌, [], length, map, flat_map, decimal, slice_index_or, IfOk, OnOk};
ghost use Rattle.sdc_base.specs.TableText.{line_text};
ghost use Rattle.release_writer.specs.Lines.{IsReadyWriter, AppendsText};
ghost use Rattle.job_inputs.specs.ClassifiedJobs.{IsSettledOf, SettledInputs};
ghost use Rattle.cell_listing.specs.Columns.{spaced};
ghost use Rattle.cell_listing.specs.RelationListings.{relation_line, IsRelationListing, IsRelationText};
ghost use Rattle.cell_listing.specs.RelationListings as spec;

use crate::amounts::add_number;
use crate::csv_line::{bytes_of, empty_writer, write_line};
use crate::fields::variable_names;
use crate::listed_relations::{ListedRelation, listed_relations};
use crate::words::{add_spaced, add_word, add_words};
use csv::Writer;
use job_inputs::ClassifiedJob;
use sdc_base::{Items, Memory, Text};
use std::alloc::Global;

// The names of the columns.
const RELATION_NAMES: &[&[u8]] = &[b"relation", b"total", b"variable", b"parts"];

/// The bytes of the listing of the relations between a job's cells: a line of the columns' names, and then a line for
/// each relation, in the order of their numbers.
///
/// A line has the relation's number, from 0, by which the multipliers of a certificate name it; the number of the cell
/// that is the total; the name of the variable for which the parts lie right below it; and the numbers of the cells that
/// are the parts, with a blank between them. Cells have the numbers that [`listing_for`](crate::listing_for) gives
/// them, and lines the form of its lines.
///
/// Want of memory is the only refusal. It takes a look-up for each part of each relation, and the length of the text.
/// The columns and their order are this project's own.
pub fn relations_listing_for(alloc: Global, job: &ClassifiedJob) -> Result<Vec<u8>, Memory>
    ensures told { IfOk result (λ bytes. IsRelationText job.now.described job.now.book.trees job.now.book.tables bytes.items) }
    ensures over_records { IfOk result (λ bytes. (settled : SettledInputs) → IsSettledOf settled job.now
        → IsRelationListing settled bytes.items) }
{
    let relations = listed_relations(alloc, &job.book)?;
    let names = variable_names(alloc, &job.described)?;
    let mut writer = empty_writer(alloc);
    write_names(alloc, &mut writer)?;
    write_relations(alloc, &mut writer, names.as_slice(), relations.as_slice())?;
    bytes_of(writer)
}

// Writes the line of the columns' names.
fn write_names(alloc: Global, writer: &mut Writer<Vec<u8>>) -> Result<(), Memory>
    requires ready { IsReadyWriter writer.old }
    ensures ready { OnOk result (IsReadyWriter writer.new) }
    ensures text { OnOk result (AppendsText writer.old writer.new (line_text spec.relation_names)) }
{
    let mut names = Items::empty(alloc);
    add_words(alloc, &mut names, RELATION_NAMES)?;
    write_line(writer, names.as_slice())
}

// Writes the lines of relations.
fn write_relations(
    alloc: Global,
    writer: &mut Writer<Vec<u8>>,
    names: &[Text],
    relations: &[ListedRelation],
) -> Result<(), Memory>
    requires ready { IsReadyWriter writer.old }
    ensures ready { OnOk result (IsReadyWriter writer.new) }
    ensures text { OnOk result (AppendsText writer.old writer.new (flat_map (relation_line names.now) relations.now)) }
{
    'relations: for relation in relations {
        let fields = relation_fields(alloc, names, relation)?;
        write_line(writer, fields.as_slice())?;
    }
    Ok(())
}

// All that stands in the line of a relation.
fn relation_fields(
    alloc: Global,
    names: &[Text],
    relation: &ListedRelation,
) -> Result<Items<Text>, Memory>
    ensures { IfOk result (λ fields. fields ≡ spec.relation_fields names.now relation.now) }
{
    let mut fields = Items::empty(alloc);
    add_number(alloc, &mut fields, relation.number)?;
    add_number(alloc, &mut fields, u64::from(relation.total))?;
    add_word(alloc, &mut fields, name_at(names, relation.variable))?;
    add_numbers(alloc, &mut fields, relation.parts.as_slice())?;
    Ok(fields)
}

// The name at a place, and nothing behind the last.
fn name_at(names: &[Text], place: u32) -> &[u8]
    ensures { result.now ≡ slice_index_or names.now place [] }
{
    match names.get(place as usize) {
        Some(name) => name.as_slice(),
        None => &[],
    }
}

// Adds numbers with a blank between them, as one field.
fn add_numbers(alloc: Global, fields: &mut Items<Text>, numbers: &[u32]) -> Result<(), Memory>
    ensures { OnOk result (fields.new ≡ fields.old ++ spaced (map decimal numbers.now) ∷ []) }
{
    let mut words = Items::empty(alloc);
    'numbers: for number in numbers {
        add_number(alloc, &mut words, u64::from(*number))?;
    }
    add_spaced(alloc, fields, words.as_slice())
}
