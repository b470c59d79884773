//! Errors of readers as refusals of the contents of a file; they know no shelf.

ghost use Rattle.std.specs.Prelude.{◌≡◌};
ghost use Rattle.job_inputs.specs.Refusals as spec;

use crate::faults::Fault;
use apriori::PriorError;
use job_lang::JobError;
use microdata::RowError;
use plain_text::Stop;
use rda_meta::MetaError;

/// An error of the job, as a refusal.
pub(crate) fn job_refusal(error: JobError) -> Stop<Fault>
    ensures { result ≡ spec.job_refusal error }
{
    match error {
        JobError::At { line, why } => Stop::Fault(Fault::Job { line, why }),
        JobError::Memory => Stop::Memory,
    }
}

/// An error of the metadata, as a refusal.
pub(crate) fn meta_refusal(error: MetaError) -> Stop<Fault>
    ensures { result ≡ spec.meta_refusal error }
{
    match error {
        MetaError::At { line, why } => Stop::Fault(Fault::Meta { line, why }),
        MetaError::Memory => Stop::Memory,
    }
}

/// An error of the microdata, as a refusal.
pub(crate) fn row_refusal(error: RowError) -> Stop<Fault>
    ensures { result ≡ spec.row_refusal error }
{
    match error {
        RowError::At { number, why } => Stop::Fault(Fault::Row { number, why }),
        RowError::Memory => Stop::Memory,
    }
}

/// An error of an a priori file, as a refusal.
pub(crate) fn prior_refusal(error: PriorError) -> Stop<Fault>
    ensures { result ≡ spec.prior_refusal error }
{
    match error {
        PriorError::At { table, line, why } => Stop::Fault(Fault::Prior { table, line, why }),
        PriorError::Memory => Stop::Memory,
    }
}
