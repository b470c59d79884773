ghost use Rattle.std.specs.Prelude.{IfOk};
ghost use Rattle.job_inputs.specs.Looks.{InputsComeTo};
ghost use Rattle.job_inputs.specs.ReadFiles.{limit};
ghost use Rattle.job_inputs.specs.Reading.{ReadsFiles, IsSoundByItsType};
ghost use Rattle.job_inputs.specs.ClassifiedJobs.{SettledInputs};
ghost use Rattle.job_inputs.specs.SoundJobs.{AreSound};
ghost use Rattle.cell_listing.specs.RelationListings.{IsRelationListing, ListsRelations};

use crate::relations_listing::relations_listing_for;
use job_inputs::{InputStop, Purpose, read_settled};
use office_io::Shelf;
use sdc_base::Text;
use std::alloc::Global;

/// The bytes of the listing of the relations between the cells of the job of this name, from the shelf.
///
/// The job's inputs are read up to its settled cells, as for a release, and the first fault is the answer, the same as
/// that of a release; so told files of a shelf that doesn't fail have such a listing exactly where they have one of
/// the cells, unless memory runs out. `ReadFault` names a file at which the shelf failed; want of memory is `Memory`.
/// The cost is that of reading each file once, with the records kept in memory, and that of
/// [`relations_listing_for`](crate::relations_listing_for). The order is argus's own.
pub fn list_relations<S: Shelf>(
    alloc: Global,
    shelf: &mut S,
    name: &Text,
) -> Result<Vec<u8>, InputStop>
    ensures looked { ReadsFiles (ListsRelations name.now) (λ fs. InputsComeTo Purpose.Release fs name.now)
        IsSoundByItsType limit result (S.state shelf.old) (S.state shelf.new) }
    // Of a shelf that tells nothing too.
    ensures listed { IfOk result (λ bytes. (settled : SettledInputs) × IsRelationListing settled bytes.items
        × AreSound settled.inputs) }
{
    let job = read_settled(alloc, shelf, name, Purpose::Release)?;
    let bytes = relations_listing_for(alloc, &job)?;
    Ok(bytes)
}
