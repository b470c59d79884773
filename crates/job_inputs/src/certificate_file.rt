ghost use Rattle.std.specs.Prelude.{◌≡◌};
ghost use Rattle.sdc_base.specs.Steps.{map_fault};
ghost use Rattle.certificate.specs.Certificates.{certificate_of};
ghost use Rattle.job_inputs.specs.CertificateFile.{certificate_fault, certificate_in, IsSoundCertificate};
ghost use Rattle.job_inputs.specs.CertificateFile as spec;
ghost use Rattle.job_inputs.specs.Looks.{IsFile};
ghost use Rattle.job_inputs.specs.ReadFiles.{output_limit};
ghost use Rattle.job_inputs.specs.Reading.{IsReadFrom};
ghost use Rattle.job_inputs.specs.Refusals.{IsReadAs};

use crate::faults::Fault;
use crate::file_ref::FileRef;
use crate::loading::load;
use crate::stop::InputStop;
use certificate::{CertError, Certificate, read_certificate};
use office_io::Shelf;
use plain_text::Stop;
use sdc_base::Text;
use std::alloc::Global;

/// The certificate under this name, from the shelf.
///
/// The file is looked at for Absent, then for TooLong, which is more than `2^60` bytes, and then for what it says; the
/// first fault is the answer, of what it says with the number of the line, from 1. Where the shelf fails, the answer is
/// `ReadFault`; want of memory is `Memory`. Of which job it is a certificate is not looked at.
///
/// The file is read whole and kept in memory until the certificate is made, and the cost is that of its bytes. The
/// format is argus's own.
#[tactic(auto, unfolding(crate::specs::CertificateFile::certificate_in))]
pub fn read_certificate_file<S: Shelf>(
    alloc: Global,
    shelf: &mut S,
    name: &Text,
) -> Result<Certificate, InputStop>
    ensures { IsReadFrom (λ certificate. certificate) (λ fs. certificate_in fs name.now)
        (λ fs. IsFile FileRef.Certificate name.now) IsSoundCertificate output_limit result (S.state shelf.old)
        (S.state shelf.new) }
{
    let bytes = load(alloc, shelf, name, FileRef::Certificate)?;
    let certificate = certificate_by(alloc, bytes.as_slice())?;
    Ok(certificate)
}

// The certificate of which bytes are the text.
#[tactic(auto, using(crate::proofs::CertificateFiles::certificate_refuses, crate::proofs::CertificateFiles::certificate_is_for_contents))]
fn certificate_by(alloc: Global, bytes: &[u8]) -> Result<Certificate, Stop<Fault>>
    ensures { IsReadAs (λ certificate. certificate) (map_fault certificate_fault (certificate_of bytes.now))
        IsSoundCertificate result }
{
    match read_certificate(alloc, bytes) {
        Ok(certificate) => Ok(certificate),
        Err(error) => Err(certificate_refusal(error)),
    }
}

// An error of a certificate, as a refusal.
fn certificate_refusal(error: CertError) -> Stop<Fault>
    ensures { result ≡ spec.certificate_refusal error }
{
    match error {
        CertError::At { line, why } => Stop::Fault(Fault::Certificate { line, why }),
        CertError::Memory => Stop::Memory,
    }
}
