ghost use Rattle.std.specs.Prelude.{◌≡◌};
ghost use Rattle.std.specs.List.{list_any};
ghost use Rattle.std.specs.Str.{bytes_eq};
ghost use Rattle.sdc_base.specs.Steps.{refuse};
ghost use Rattle.job_inputs.specs.ClassifiedJobs.{overwrites_job};
ghost use Rattle.job_inputs.specs.ClassifiedJobs as spec;

use crate::faults::Fault;
use job_lang::{Job, OutputLine};
use sdc_base::Text;

/// Refuses a job whose certificate, contributors' file or outputs would take the name of its own file.
pub(crate) fn check_outputs(name: &Text, job: &Job) -> Result<(), Fault>
    ensures { result ≡ refuse Fault.OutName (overwrites_job name.now job.now) }
{
    if job.certificate.equals(name)
        || is_contributors_file(name, &job.contributors)
        || is_output(name, job.outputs.as_slice())
    {
        return Err(Fault::OutName);
    }
    Ok(())
}

/// Whether the contributors' file, where there is one, has this name.
pub fn is_contributors_file(name: &Text, contributors: &Option<OutputLine>) -> bool
    ensures { result ≡ spec.is_contributors_file name.now contributors.now }
{
    match contributors {
        Some(output) => output.file.equals(name),
        None => false,
    }
}

// Whether an output has this name.
fn is_output(name: &Text, outputs: &[OutputLine]) -> bool
    ensures { result ≡ list_any (λ output. bytes_eq output.file name.now) outputs.now }
{
    outputs.iter().any(|output| output.file.equals(name))
}
