ghost use Rattle.std.specs.Prelude.{◌<◌, ◌^◌, length};
ghost use Rattle.sdc_base.specs.Steps.{map_fault};
ghost use Rattle.rda_meta.specs.Limits.{IsMeta};
ghost use Rattle.rda_meta.specs.Metadata.{meta_of};
ghost use Rattle.job_lang.specs.Binding.{bound_of};
ghost use Rattle.job_lang.specs.JobLimits.{IsJob};
ghost use Rattle.job_inputs.specs.Inputs.{described_of, job_for};
ghost use Rattle.job_inputs.specs.ReadFiles.{job_fault, limit, meta_fault};
ghost use Rattle.job_inputs.specs.Looks.{ComesFirstTo};
ghost use Rattle.job_inputs.specs.Reading.{IsReadFrom};
ghost use Rattle.job_inputs.specs.SoundJobs.{IsSoundJob, IsBoundTo};
ghost use Rattle.job_inputs.specs.Refusals.{IsReadAs};

use crate::faults::Fault;
use crate::file_ref::FileRef;
use crate::loading::load;
use crate::purpose::{Purpose, is_unfit};
use crate::refusal::{job_refusal, meta_refusal};
use crate::stop::InputStop;
use job_lang::{Bound, Job, JobWhy, bind, read_job};
use office_io::Shelf;
use plain_text::Stop;
use rda_meta::{Meta, read_meta};
use sdc_base::Text;
use std::alloc::Global;

/// A job with its metadata, and its variables looked up in these.
#[derive(Drop)]
pub struct DescribedJob {
    pub job: Job,
    pub meta: Meta,
    pub bound: Bound,
}

/// The job of this name, read for a purpose, with its metadata.
///
/// The files are looked at in the order job, metadata, each for Absent, then TooLong, then what it says, and at last
/// the job's variables are looked for in the metadata; the first of these faults is the answer. Of a job whose method
/// is unfit for the purpose nothing more is read.
#[tactic(auto, unfolding(crate::specs::Inputs::described_of))]
pub(crate) fn read_described<S: Shelf>(
    alloc: Global,
    shelf: &mut S,
    name: &Text,
    purpose: Purpose,
) -> Result<DescribedJob, InputStop>
    ensures { IsReadFrom (λ read. read) (λ fs. described_of purpose fs name.now)
        (λ fs. ComesFirstTo purpose fs name.now) IsSoundJob limit result (S.state shelf.old) (S.state shelf.new) }
{
    let bytes = load(alloc, shelf, name, FileRef::Job)?;
    let job = job_in(alloc, bytes.as_slice(), purpose)?;
    let text = load(alloc, shelf, &job.meta, FileRef::Metadata)?;
    let meta = meta_in(alloc, text.as_slice())?;
    let bound = bound_in(alloc, &job, &meta)?;
    Ok(DescribedJob { job, meta, bound })
}

// The job that the bytes state, for a purpose.
fn job_in(alloc: Global, bytes: &[u8], purpose: Purpose) -> Result<Job, Stop<Fault>>
    requires { length bytes.now < 2 ^ 32 }
    ensures { IsReadAs (λ job. job) (job_for purpose bytes.now) IsJob result }
{
    let job = match read_job(alloc, bytes) {
        Ok(job) => job,
        Err(error) => return Err(job_refusal(error)),
    };
    if is_unfit(purpose, job.method) {
        return Err(Stop::Fault(Fault::Job {
            line: 0,
            why: JobWhy::BadValue,
        }));
    }
    Ok(job)
}

// The metadata that the bytes state.
#[tactic(auto, using(crate::proofs::Refusing::meta_refuses))]
fn meta_in(alloc: Global, bytes: &[u8]) -> Result<Meta, Stop<Fault>>
    requires { length bytes.now < 2 ^ 32 }
    ensures { IsReadAs (λ meta. meta) (map_fault meta_fault (meta_of bytes.now)) IsMeta result }
{
    match read_meta(alloc, bytes) {
        Ok(meta) => Ok(meta),
        Err(error) => Err(meta_refusal(error)),
    }
}

// The job's variables in its metadata.
#[tactic(auto, using(crate::proofs::Refusing::job_refuses, crate::proofs::Sounding::job_tables, crate::proofs::Sounding::meta_variables))]
fn bound_in(alloc: Global, job: &Job, meta: &Meta) -> Result<Bound, Stop<Fault>>
    requires job { IsJob job.now }
    requires meta { IsMeta meta.now }
    ensures { IsReadAs (λ bound. bound) (map_fault job_fault (bound_of job.now meta.now))
        (IsBoundTo job.now meta.now.variables) result }
{
    match bind(alloc, job, meta) {
        Ok(bound) => Ok(bound),
        Err(error) => Err(job_refusal(error)),
    }
}
