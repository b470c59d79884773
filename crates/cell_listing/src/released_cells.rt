ghost use Rattle.std.specs.Prelude.{◌≡◌, ◌<◌, false, length, slice_index_or, pos, IfOk};
ghost use Rattle.cert_check.specs.Methods.{rounds_cells};
ghost use Rattle.linked_tables.specs.BookCells.{cells as cells_in};
ghost use Rattle.job_check.specs.Reading.{IsReadyRelease};
ghost use Rattle.job_check.specs.declared.reading.ReadRelease.{ReadRelease as AnyRead};
ghost use Rattle.cell_listing.specs.Outcomes.{outcome_of};
ghost use Rattle.cell_listing.specs.ReleasedCells.{amounts_in, AreShownAs, AreReleasedIn, HasAmount, IsPrintable};

use crate::hidden_cells::{HiddenCells, hidden_cells, hidden_or_shown};
use crate::outcome::Outcome;
use job_check::ReadRelease;
use job_inputs::table_names;
use release_writer::{rounded_numbers_have_texts, rounded_of};
use sdc_base::{Items, Kind, Memory, Method};
use std::alloc::Global;

/// What a release made of its cells.
#[derive(Drop)]
pub(crate) enum ReleasedCells {
    /// It hides some.
    Suppressed(HiddenCells),
    /// It rounds all of them, to these amounts of units.
    Rounded(Items<i128>),
}

/// What a release made of its cells, as its certificate says, and as its tables show where it rounds.
pub(crate) fn released_cells(alloc: Global, read: &ReadRelease) -> Result<ReleasedCells, Memory>
    requires { IsReadyRelease read.now }
    ensures { IfOk result (AreReleasedIn read.now) }
{
    match read.certificate.method {
        Method::Rnd(_) => Ok(ReleasedCells::Rounded(rounded_amounts(alloc, read)?)),
        Method::Gh(_) => suppressed_cells(alloc, read),
        Method::Modular => suppressed_cells(alloc, read),
    }
}

// What a release that hides cells made of them.
fn suppressed_cells(alloc: Global, read: &ReadRelease) -> Result<ReleasedCells, Memory>
    requires { rounds_cells read.now.certificate.method ≡ false }
    ensures { IfOk result (AreReleasedIn read.now) }
{
    let count = read.job.book.cells();
    let flags = hidden_cells(alloc, count, &read.certificate, &read.extra)?;
    Ok(ReleasedCells::Suppressed(flags))
}

// What the tables of a rounded release show of the cells.
fn rounded_amounts(alloc: Global, read: &ReadRelease) -> Result<Items<i128>, Memory>
    requires { IsReadyRelease read.now }
    ensures { IfOk result (AreShownAs read.now) }
{
    let job = &read.job;
    let names = table_names(alloc, &job.described.job)?;
    let decimals = job.described.bound.decimals;
    let tables = read.tables.as_slice();
    // for the proof: what is read has these texts.
    rounded_numbers_have_texts();
    match rounded_of(alloc, &job.book, names.as_slice(), decimals, tables) {
        Ok(amounts) => Ok(amounts),
        // The tables of a release that is accepted have no bad line.
        Err(_) => Err(Memory),
    }
}

/// What a release made of the cell with this number and of this kind.
pub(crate) fn outcome_at(cells: &ReleasedCells, number: u32, kind: Kind) -> Outcome
    requires amount { HasAmount cells.now number }
    ensures exact { (read : AnyRead) → AreReleasedIn read cells.now → number < length (cells_in read.job.book)
        → result ≡ outcome_of read.certificate read.extra (amounts_in cells.now) number kind }
    ensures printable { (read : AnyRead) → AreReleasedIn read cells.now → IsPrintable result }
{
    match cells {
        ReleasedCells::Suppressed(flags) => hidden_or_shown(flags, number, kind),
        ReleasedCells::Rounded(amounts) => Outcome::Rounded(amount_at(amounts.as_slice(), number)),
    }
}

// The amount of a cell.
fn amount_at(amounts: &[i128], number: u32) -> i128
    requires { number < length amounts.now }
    ensures { result ≡ slice_index_or amounts.now number (pos 0) }
{
    amounts[number as usize]
}
