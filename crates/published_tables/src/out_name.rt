ghost use Rattle.std.specs.Prelude.{◌≡◌, false, slice_get};
ghost use Rattle.std.specs.List.{list_any};
ghost use Rattle.std.specs.Option.{option_map_or};
ghost use Rattle.std.specs.Str.{bytes_eq};
ghost use Rattle.sdc_base.specs.Steps.{refuse};
ghost use Rattle.published_tables.specs.OutNames as spec;

use job_inputs::{DescribedJob, Fault, is_contributors_file};
use job_lang::{Job, OutputLine, PriorLine, is_code_list, is_hierarchy_file};
use rda_meta::Variable;
use sdc_base::Text;

/// Refuses a file to be put that would overwrite the job's file, a file that the job names, or one that the metadata
/// name for a variable that spans a table.
pub(crate) fn check_out(name: &Text, out: &Text, described: &DescribedJob) -> Result<(), Fault>
    ensures { result ≡ refuse Fault.OutName (spec.overwrites name.now out.now described.now) }
{
    if name.equals(out) || is_named_in(out, &described.job) || has_codes_in(out, described) {
        return Err(Fault::OutName);
    }
    Ok(())
}

// Whether the job names this file.
fn is_named_in(file: &Text, job: &Job) -> bool
    ensures { result ≡ spec.is_named_in file.now job.now }
{
    job.micro.equals(file)
        || job.meta.equals(file)
        || is_stated_in(file, job.priors.as_slice())
        || is_output(file, job.outputs.as_slice())
        || job.certificate.equals(file)
        || is_contributors_file(file, &job.contributors)
}

// Whether an a priori file has this name.
fn is_stated_in(file: &Text, priors: &[PriorLine]) -> bool
    ensures { result ≡ list_any (λ prior. bytes_eq prior.file file.now) priors.now }
{
    priors.iter().any(|prior| prior.file.equals(file))
}

// Whether the file of a table has this name.
fn is_output(file: &Text, outputs: &[OutputLine]) -> bool
    ensures { result ≡ list_any (λ output. bytes_eq output.file file.now) outputs.now }
{
    outputs.iter().any(|output| output.file.equals(file))
}

// Whether a variable that spans a table has its codes or their hierarchy in this file.
#[tactic(auto, using(crate::proofs::Overwriting::any_spanning))]
fn has_codes_in(file: &Text, described: &DescribedJob) -> bool
    ensures { result ≡ spec.has_codes_in file.now described.now }
{
    is_of_any(
        file,
        described.meta.variables.as_slice(),
        described.bound.spanning.as_slice(),
    )
}

// Whether a variable at one of these places of the metadata has its codes or their hierarchy in this file.
fn is_of_any(file: &Text, variables: &[Variable], places: &[u32]) -> bool
    ensures { result ≡ list_any (λ place. option_map_or (spec.is_coded_by file.now) (slice_get variables.now place)
        false) places.now }
{
    places.iter().any(|place| is_of(file, variables, *place))
}

// Whether the variable at this place of the metadata has its codes or their hierarchy in this file.
fn is_of(file: &Text, variables: &[Variable], place: u32) -> bool
    ensures { result ≡ option_map_or (spec.is_coded_by file.now) (slice_get variables.now place) false }
{
    match variables.get(place as usize) {
        Some(variable) => is_coded_by(file, variable),
        None => false,
    }
}

// Whether the variable has its codes or their hierarchy in this file.
fn is_coded_by(file: &Text, variable: &Variable) -> bool
    ensures { result ≡ spec.is_coded_by file.now variable.now }
{
    is_code_list(file, &variable.codes) || is_hierarchy_file(file, &variable.shape)
}
