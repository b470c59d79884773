ghost use Rattle.job_check.specs.Contributors.{extra_for, AreForJob, IsContributorsFile};
ghost use Rattle.job_inputs.specs.ReadFiles.{output_limit};
ghost use Rattle.job_inputs.specs.Reading.{IsReadFrom};

use certificate::Extra;
use job_inputs::{InputStop, read_contributors_file};
use job_lang::OutputLine;
use office_io::Shelf;
use std::alloc::Global;

/// The extra cells that stand under the name of a job's contributors' file, from the shelf; none where the job names no
/// such file.
pub(crate) fn read_extra_cells<S: Shelf>(
    alloc: Global,
    shelf: &mut S,
    line: &Option<OutputLine>,
) -> Result<Option<Extra>, InputStop>
    ensures { IsReadFrom (λ extra. extra) (λ fs. extra_for fs line.now) (λ fs. IsContributorsFile line.now)
        (AreForJob line.now) output_limit result (S.state shelf.old) (S.state shelf.new) }
{
    match line {
        Some(output) => {
            let extra = read_contributors_file(alloc, shelf, &output.file)?;
            Ok(Some(extra))
        }
        None => Ok(None),
    }
}
