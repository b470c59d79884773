ghost use Rattle.std.specs.Prelude.{◌≡◌, ◌<◌, ◌++◌, ◌≤◌, ◌∷◌, [], IfOk, OnOk, length};
ghost use Rattle.sdc_base.specs.TableText.{line_text};
ghost use Rattle.release_writer.specs.Lines.{IsReadyWriter, AppendsText};
ghost use Rattle.job_check.specs.Accepted.{IsAcceptedAs};
ghost use Rattle.job_check.specs.Reading.{IsReadyRelease};
ghost use Rattle.job_check.specs.ReleaseFiles.{ReleasedFiles};
ghost use Rattle.cell_listing.specs.Columns as columns;
ghost use Rattle.cell_listing.specs.ReleasedCells.{amounts_in, released_lines, AreReleasedFieldsAt, AreReleasedIn, IsPrintable};
ghost use Rattle.cell_listing.specs.ReleasedListings as spec;
ghost use Rattle.cell_listing.specs.Releases.{IsListingOf};

use crate::amounts::add_amount;
use crate::csv_line::{bytes_of, empty_writer, write_line};
use crate::fields::column_names;
use crate::listing::fields_at;
use crate::outcome::{Origin, Outcome};
use crate::released_cells::{ReleasedCells, outcome_at, released_cells};
use crate::words::{add_all, add_word, add_words};
use csv::Writer;
use job_check::ReadRelease;
use sdc_base::{Items, Memory, Text};
use std::alloc::Global;

/// The columns of what a release made of a cell.
pub(crate) const OUTCOME_NAMES: &[&[u8]] = &[b"release", b"origin"];

/// The bytes of the listing of the cells of a release that is accepted: the lines of
/// [`listing_for`](crate::listing_for), each with what the release made of the cell, and by what it came to be hidden.
///
/// A hidden cell of the certificate is `hidden`, by `primary`, by `step` where it is a corner of a step of the plan, or
/// by `repair` where it is the subject of a repair, the first of these that it is; an extra cell beside these is `hidden`
/// by `extra`. Another cell is `shown`, by nothing. Of a release that rounds the amount stands there which the tables
/// show, by nothing too.
///
/// The release is one that [`accepted_release`](job_check::accepted_release) gives. Want of memory is the only refusal.
/// Beside the cost of the listing it takes one look at each hidden cell, corner and repair of the certificate and at each
/// extra cell; where the release rounds, the tables are read once more.
///
/// What became of a cell, and by what, is this project's own to say.
pub fn released_listing_for(alloc: Global, read: &ReadRelease) -> Result<Vec<u8>, Memory>
    requires ready { IsReadyRelease read.now }
    ensures over_records { IfOk result (λ bytes. (released : ReleasedFiles) → IsAcceptedAs released read.now
        → IsListingOf released bytes.items) }
{
    let cells = released_cells(alloc, read)?;
    let mut writer = empty_writer(alloc);
    write_names(alloc, &mut writer, read)?;
    write_cells(alloc, &mut writer, read, &cells)?;
    bytes_of(writer)
}

// Writes the line of the columns' names.
fn write_names(
    alloc: Global,
    writer: &mut Writer<Vec<u8>>,
    read: &ReadRelease,
) -> Result<(), Memory>
    requires ready { IsReadyWriter writer.old }
    ensures ready { OnOk result (IsReadyWriter writer.new) }
    ensures text { OnOk result (AppendsText writer.old writer.new
        (line_text (columns.column_names read.now.job.described ++ spec.outcome_names))) }
{
    let mut names = column_names(alloc, &read.job.described)?;
    add_words(alloc, &mut names, OUTCOME_NAMES)?;
    write_line(writer, names.as_slice())
}

// Writes the lines of the cells.
fn write_cells(
    alloc: Global,
    writer: &mut Writer<Vec<u8>>,
    read: &ReadRelease,
    cells: &ReleasedCells,
) -> Result<(), Memory>
    requires writer { IsReadyWriter writer.old }
    requires ready { IsReadyRelease read.now }
    requires cells { AreReleasedIn read.now cells.now }
    ensures ready { OnOk result (IsReadyWriter writer.new) }
    ensures text { OnOk result (AppendsText writer.old writer.new (released_lines read.now cells.now)) }
{
    'lines: for number in 0..read.job.book.cells() {
        let fields = released_fields(alloc, read, cells, number)?;
        write_line(writer, fields.as_slice())?;
    }
    Ok(())
}

/// All that stands in the line of the cell with this number.
pub(crate) fn released_fields(
    alloc: Global,
    read: &ReadRelease,
    cells: &ReleasedCells,
    number: u32,
) -> Result<Items<Text>, Memory>
    requires ready { IsReadyRelease read.now }
    requires cells { AreReleasedIn read.now cells.now }
    ensures at_least_two { IfOk result (λ fields. 1 < length fields) }
    ensures fields { IfOk result (AreReleasedFieldsAt read.now (amounts_in cells.now) number) }
{
    // There is such a cell.
    let Some(cell) = read.job.cells.as_slice().get(number as usize) else {
        return Err(Memory);
    };
    let decimals = read.job.described.bound.decimals;
    let outcome = outcome_at(cells, number, cell.kind);
    let mut fields = fields_at(alloc, &read.job, number)?;
    add_all(&mut fields, outcome_fields(alloc, outcome, decimals)?)?;
    Ok(fields)
}

// What a release made of a cell, and by what it came to be hidden.
fn outcome_fields(alloc: Global, outcome: Outcome, decimals: u8) -> Result<Items<Text>, Memory>
    requires printable { IsPrintable outcome }
    requires decimals { decimals ≤ 13 }
    ensures { IfOk result (λ fields. fields ≡ spec.outcome_fields decimals outcome) }
{
    let mut fields = Items::empty(alloc);
    add_outcome(alloc, &mut fields, outcome, decimals)?;
    add_word(alloc, &mut fields, origin_text(outcome))?;
    Ok(fields)
}

// Adds what a release made of a cell, by a word, or by the amount that is shown.
fn add_outcome(
    alloc: Global,
    fields: &mut Items<Text>,
    outcome: Outcome,
    decimals: u8,
) -> Result<(), Memory>
    requires printable { IsPrintable outcome }
    requires decimals { decimals ≤ 13 }
    ensures { OnOk result (fields.new ≡ fields.old ++ spec.outcome_text decimals outcome ∷ []) }
{
    match outcome {
        Outcome::Shown => add_word(alloc, fields, b"shown"),
        Outcome::Hidden(_) => add_word(alloc, fields, b"hidden"),
        Outcome::Rounded(amount) => add_amount(alloc, fields, amount, decimals),
    }
}

// The word of what hid a cell, and nothing where nothing did.
fn origin_text(outcome: Outcome) -> &'static [u8]
    ensures { result.now ≡ spec.origin_text outcome }
{
    match outcome {
        Outcome::Hidden(Some(origin)) => origin_word(origin),
        Outcome::Hidden(None) => b"",
        Outcome::Shown => b"",
        Outcome::Rounded(_) => b"",
    }
}

// The word of an origin.
fn origin_word(origin: Origin) -> &'static [u8]
    ensures { result.now ≡ spec.origin_word origin }
{
    match origin {
        Origin::Primary => b"primary",
        Origin::Step => b"step",
        Origin::Repair => b"repair",
        Origin::Extra => b"extra",
    }
}
