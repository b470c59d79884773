ghost use Rattle.std.specs.Prelude.{◌≡◌};
ghost use Rattle.sdc_base.specs.Steps.{map_fault};
ghost use Rattle.certificate.specs.ExtraReadings.{extra_of};
ghost use Rattle.job_inputs.specs.ContributorsFile.{contributors_fault, extra_in, IsSoundExtra};
ghost use Rattle.job_inputs.specs.ContributorsFile as spec;
ghost use Rattle.job_inputs.specs.Looks.{IsFile};
ghost use Rattle.job_inputs.specs.ReadFiles.{output_limit};
ghost use Rattle.job_inputs.specs.Reading.{IsReadFrom};
ghost use Rattle.job_inputs.specs.Refusals.{IsReadAs};

use crate::faults::Fault;
use crate::file_ref::FileRef;
use crate::loading::load;
use crate::stop::InputStop;
use certificate::{CertError, Extra, read_extra};
use office_io::Shelf;
use plain_text::Stop;
use sdc_base::Text;
use std::alloc::Global;

/// The extra cells against contributors, with their needs and guards, of the file under this name.
///
/// The file is looked at for Absent, then for TooLong, which is more than `2^60` bytes, and then for what it says; the
/// first fault is the answer, of what it says with the number of the line, from 1. Where the shelf fails, the answer is
/// `ReadFault`; want of memory is `Memory`. Of which job and certificate it is, is not looked at.
///
/// The file is read whole and kept in memory until the lists are made, and the cost is that of its bytes. The format is
/// argus's own.
#[tactic(auto, unfolding(crate::specs::ContributorsFile::extra_in))]
pub fn read_contributors_file<S: Shelf>(
    alloc: Global,
    shelf: &mut S,
    name: &Text,
) -> Result<Extra, InputStop>
    ensures { IsReadFrom (λ extra. extra) (λ fs. extra_in fs name.now)
        (λ fs. IsFile FileRef.Contributors name.now) IsSoundExtra output_limit result (S.state shelf.old)
        (S.state shelf.new) }
{
    let bytes = load(alloc, shelf, name, FileRef::Contributors)?;
    let extra = extra_by(alloc, bytes.as_slice())?;
    Ok(extra)
}

// The extra cells of which bytes are the text.
#[tactic(auto, using(crate::proofs::ContributorsFiles::contributors_refuse, crate::proofs::ContributorsFiles::contributors_are_for_contents))]
fn extra_by(alloc: Global, bytes: &[u8]) -> Result<Extra, Stop<Fault>>
    ensures { IsReadAs (λ extra. extra) (map_fault contributors_fault (extra_of bytes.now)) IsSoundExtra result }
{
    match read_extra(alloc, bytes) {
        Ok(extra) => Ok(extra),
        Err(error) => Err(contributors_refusal(error)),
    }
}

// An error of a contributors' file, as a refusal.
fn contributors_refusal(error: CertError) -> Stop<Fault>
    ensures { result ≡ spec.contributors_refusal error }
{
    match error {
        CertError::At { line, why } => Stop::Fault(Fault::Contributors { line, why }),
        CertError::Memory => Stop::Memory,
    }
}
