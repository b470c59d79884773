ghost use Rattle.std.specs.Prelude.{◌≡◌, length, IfOk};
ghost use Rattle.linked_tables.specs.BookCells.{cells as cells_in};
ghost use Rattle.job_check.specs.Accepted.{IsAcceptedAs};
ghost use Rattle.job_check.specs.Reading.{IsReadyRelease};
ghost use Rattle.job_check.specs.ReleaseFiles.{ReleasedFiles};
ghost use Rattle.cell_listing.specs.IntervalFiles as files;
ghost use Rattle.cell_listing.specs.IntervalRuns.{IsFileRun, IsIntervalsRun, IsListedWith};

use crate::hidden_cells::{hidden_cells, hidden_numbers};
use crate::interval_file::read_ranges;
use crate::interval_listing::interval_listing_for;
use crate::stop::{IntervalFault, ListingStop};
use job_check::{ReadRelease, accepted_release};
use office_io::{Shelf, read_all};
use sdc_base::{Items, Memory, Text};
use std::alloc::Global;

// The greatest file that was put, in bytes: 2^60.
const OUTPUT_LIMIT: u64 = 1_152_921_504_606_846_976;

/// The bytes of the listing of the job of this name with what its release made of each cell and with the intervals of
/// its hidden cells, which stand under the name `file`, from the shelf.
///
/// The release is read and judged as by [`list_released`](crate::list_released), and what refuses it there is `Stopped`
/// here. A release that is accepted has its interval file read, which has at most `2^60` bytes: `Intervals` says that
/// it isn't there, that it is too long, that the shelf failed at it, or the first line, from 1, that isn't as it must
/// be. As `argus intervals` writes it, it has the line `cell,low,high` and then for each cell that the certificate or
/// the contributors' file hides, in ascending order of their numbers, a line with its number and both ends: a whole
/// number of units from 0, without zeros in front, or two such numbers with a slash between them, the second above 1,
/// or for the upper end the word `open`; each number is below `2^127`, LF ends each line, and nothing else stands
/// there. Whether a fraction is in lowest terms isn't looked at, nor that the intervals are right. `Intervals` comes
/// only where the release is accepted, also that of want of memory; `Usage` never comes. Nothing is put.
///
/// The cost is that of a check, of the listing and of the file's bytes, which are kept in memory with its ranges. The
/// order is argus's own.
pub fn list_intervals<S: Shelf>(
    alloc: Global,
    shelf: &mut S,
    name: &Text,
    file: &Text,
) -> Result<Vec<u8>, ListingStop>
    ensures { IsIntervalsRun name.now file.now result (S.state shelf.old) (S.state shelf.new) }
{
    let read = accepted_release(alloc, shelf, name)?;
    let listing = listing_from(alloc, shelf, &read, file)?;
    Ok(listing)
}

// The listing of a release with its interval file, from the shelf.
fn listing_from<S: Shelf>(
    alloc: Global,
    shelf: &mut S,
    read: &ReadRelease,
    file: &Text,
) -> Result<Vec<u8>, IntervalFault>
    requires ready { IsReadyRelease read.now }
    ensures { (released : ReleasedFiles) → IsAcceptedAs released read.now
        → IsFileRun released file.now result (S.state shelf.old) (S.state shelf.new) }
{
    let bytes = read_all(alloc, shelf, file, OUTPUT_LIMIT)?;
    listing_with(alloc, read, bytes.as_slice())
}

// The listing of a release with these bytes of its interval file.
fn listing_with(alloc: Global, read: &ReadRelease, bytes: &[u8]) -> Result<Vec<u8>, IntervalFault>
    requires ready { IsReadyRelease read.now }
    ensures { (released : ReleasedFiles) → IsAcceptedAs released read.now → IsListedWith released bytes.now result }
{
    let hidden = hidden_of(alloc, read)?;
    let ranges = read_ranges(alloc, hidden.as_slice(), bytes)?;
    let listing = interval_listing_for(alloc, read, ranges.as_slice())?;
    Ok(listing)
}

// The numbers of the cells that a release hides, ascending.
fn hidden_of(alloc: Global, read: &ReadRelease) -> Result<Items<u32>, Memory>
    ensures { IfOk result (λ numbers. numbers
        ≡ files.hidden_numbers read.now.certificate read.now.extra (length (cells_in read.now.job.book))) }
{
    let count = read.job.book.cells();
    let flags = hidden_cells(alloc, count, &read.certificate, &read.extra)?;
    hidden_numbers(alloc, count, &flags)
}
