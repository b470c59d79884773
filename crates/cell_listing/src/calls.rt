ghost use Rattle.std.specs.Prelude.{◌≡◌, ◌↔◌, None, Err, IfErr, IfOk, option_map};
ghost use Rattle.sdc_base.specs.WhereTold.{WhereTold};
ghost use Rattle.job_inputs.specs.ReadFiles.{limit};
ghost use Rattle.job_inputs.specs.Reading.{HasCause, HasOnlyLooked};
ghost use Rattle.job_inputs.specs.ClassifiedJobs.{SettledInputs, settled_of};
ghost use Rattle.job_inputs.specs.SoundJobs.{AreSound};
ghost use Rattle.job_inputs.specs.declared.stop.InputStop.{InputStop as AnyStop};
ghost use Rattle.cell_listing.specs.Calls.{HasComeToInputs, IsListingAnswer};
ghost use Rattle.cell_listing.specs.Calls as spec;
ghost use Rattle.cell_listing.specs.Listings.{IsCellListing};

use crate::reading::list_job;
use crate::stop::ListingStop;
use job_inputs::Purpose;
use office_io::Shelf;
use sdc_base::Text;
use std::alloc::Global;

/// What the words ask for: with the name of a job alone, the bytes of its listing, from the shelf. Nothing is put.
///
/// The listing is that of [`listing_for`](crate::listing_for). The job's inputs are read up to its settled cells, as for
/// a release, and the first fault is the answer, the same as that of a release. Other words are `Usage`. Over a shelf that
/// tells nothing, as one over real files, three answers have a cause that counts show: that a file is absent, that one
/// is too long, and that the shelf failed.
///
/// The cost is that of reading each file once, with the records kept in memory; one look-up for each record and table,
/// one look at each cell for each table and rule, and the length of the text. The order is argus's own.
pub fn list_cells<S: Shelf>(
    alloc: Global,
    words: &[Text],
    shelf: &mut S,
) -> Result<Vec<u8>, ListingStop>
    ensures usage { (result ≡ Err ListingStop.Usage) ↔ (spec.job_named words.now ≡ None) }
    // Nothing else stops it but the inputs.
    ensures stops { IfErr result spec.IsCellsStop }
    // The answer is what the told files come to.
    ensures told { WhereTold (spec.job_named words.now) (λ name. WhereTold (S.state shelf.old).files
        (λ fs. IsListingAnswer (settled_of Purpose.Release fs name) result)) }
    // Where the shelf failed at a file, it is one to which reading came with no fault before it.
    ensures came_to { WhereTold (spec.job_named words.now) (λ name. WhereTold (S.state shelf.old).files
        (λ fs. HasComeToInputs name result fs (S.state shelf.new))) }
    // It was only read from, and no more than was wanted.
    ensures shelf { HasOnlyLooked limit (S.state shelf.old) (S.state shelf.new) }
    ensures cause { (e : AnyStop) → result ≡ Err (spec.inputs_stop e)
        → HasCause {X = Unit {0}} (Err e) (S.state shelf.old) (S.state shelf.new) }
    // Of a shelf that tells nothing too.
    ensures listed { IfOk result (λ bytes. (settled : SettledInputs) × IsCellListing settled bytes.items
        × AreSound settled.inputs) }
{
    let Some(name) = job_named(words) else {
        return Err(ListingStop::Usage);
    };
    let bytes = list_job(alloc, shelf, name)?;
    Ok(bytes)
}

// The name of a job, where it is the one word there is, of one byte or more.
fn job_named(words: &[Text]) -> Option<&Text>
    ensures { option_map (λ name. name.now) result ≡ spec.job_named words.now }
{
    if words.len() == 1 && !words[0].as_slice().is_empty() {
        Some(&words[0])
    } else {
        None
    }
}
