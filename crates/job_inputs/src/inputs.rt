ghost use Rattle.job_inputs.specs.Inputs.{inputs_of};
ghost use Rattle.job_inputs.specs.Looks.{InputsComeTo};
ghost use Rattle.job_inputs.specs.ReadFiles.{limit};
ghost use Rattle.job_inputs.specs.Reading.{IsReadFrom};
ghost use Rattle.job_inputs.specs.SoundJobs.{AreSound};

use crate::described::{DescribedJob, read_described};
use crate::fields::read_fields;
use crate::layouts::layout_for;
use crate::microdata_file::read_records;
use crate::purpose::Purpose;
use crate::stop::InputStop;
use microdata::Records;
use office_io::Shelf;
use sdc_base::Text;
use std::alloc::Global;

/// All that the input files of a job hold.
#[derive(Drop)]
pub struct Inputs {
    pub described: DescribedJob,
    pub records: Records,
}

/// The job of this name with all that its input files hold, read for a purpose.
///
/// They are looked at in this order, and the first fault is the answer: the job, the metadata, the job's variables in
/// the metadata, for each spanning variable in the order of the metadata its code list and then its hierarchy, and the
/// microdata.
#[tactic(auto, unfolding(crate::specs::Inputs::inputs_of))]
pub(crate) fn read_inputs<S: Shelf>(
    alloc: Global,
    shelf: &mut S,
    name: &Text,
    purpose: Purpose,
) -> Result<Inputs, InputStop>
    ensures { IsReadFrom (λ read. read) (λ fs. inputs_of purpose fs name.now) (λ fs. InputsComeTo purpose fs name.now)
        AreSound limit result (S.state shelf.old) (S.state shelf.new) }
{
    let described = read_described(alloc, shelf, name, purpose)?;
    let fields = read_fields(alloc, shelf, &described)?;
    let layout = layout_for(alloc, &described, fields)?;
    let records = read_records(alloc, shelf, &described.job.micro, layout)?;
    Ok(Inputs { described, records })
}
