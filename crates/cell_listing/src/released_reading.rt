ghost use Rattle.cell_listing.specs.Runs.{IsReleasedRun};

use crate::released_listing::released_listing_for;
use job_check::{CheckStop, accepted_release};
use office_io::Shelf;
use sdc_base::Text;
use std::alloc::Global;

/// The bytes of the listing of the job of this name with what its release made of each cell, from the shelf.
///
/// The certificate and the tables that stand under the job's names are read and judged as by
/// [`check_release`](job_check::check_release), and where that refuses, its refusal is the answer; so a listing is
/// always that of a release which is accepted. The cost is that of a check and of the listing. The order is argus's
/// own.
pub fn list_released<S: Shelf>(
    alloc: Global,
    shelf: &mut S,
    name: &Text,
) -> Result<Vec<u8>, CheckStop>
    ensures { IsReleasedRun name.now result (S.state shelf.old) (S.state shelf.new) }
{
    let read = accepted_release(alloc, shelf, name)?;
    let bytes = released_listing_for(alloc, &read)?;
    Ok(bytes)
}
