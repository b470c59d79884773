ghost use Rattle.std.specs.Prelude.{◌≡◌};
ghost use Rattle.certificate.specs.Spelling.{IsSpellable};
ghost use Rattle.job_inputs.specs.CertificateFile.{IsSoundCertificate};
ghost use Rattle.job_inputs.specs.ReadFiles.{output_limit};
ghost use Rattle.job_inputs.specs.Reading.{IsReadFrom};
ghost use Rattle.job_run.specs.Migrations.{migrating_of, MigrationComesTo, IsMigrationOf, IsPutAgain};
ghost use Rattle.job_run.specs.Reports.{FaultsHaveCauses, LeavesAll};

use crate::report::Report;
use certificate::{Certificate, write_certificate};
use job_inputs::{Fault, FileRef, InputStop, read_certificate_file};
use office_io::{PutFault, Shelf, Tray};
use sdc_base::Text;
use std::alloc::Global;

/// Puts the certificate `old` again under the name `new`, in the second version of its text.
pub(crate) fn migrate<S: Shelf, T: Tray>(
    alloc: Global,
    old: &Text,
    new: &Text,
    shelf: &mut S,
    tray: &mut T,
) -> Report
    ensures migration { IsMigrationOf old.now new.now result (S.state shelf.old) (S.state shelf.new)
        (T.state tray.old) (T.state tray.new) }
    ensures untouched { LeavesAll result (T.state tray.old) (T.state tray.new) }
    ensures cause { FaultsHaveCauses result (S.state shelf.old) (S.state shelf.new) (T.state tray.old)
        (T.state tray.new) }
{
    match read_old(alloc, old, new, shelf) {
        Ok(certificate) => put_again(alloc, &certificate, new, tray),
        Err(stop) => Report::from(stop),
    }
}

// The certificate that is to be put again.
fn read_old<S: Shelf>(
    alloc: Global,
    old: &Text,
    new: &Text,
    shelf: &mut S,
) -> Result<Certificate, InputStop>
    ensures { IsReadFrom (λ certificate. certificate) (λ fs. migrating_of fs old.now new.now)
        (λ fs. MigrationComesTo old.now new.now) IsSoundCertificate output_limit result (S.state shelf.old)
        (S.state shelf.new) }
{
    if old.equals(new) {
        return Err(InputStop::Refused(Fault::OutName));
    }
    read_certificate_file(alloc, shelf, old)
}

// Puts a certificate under this name, in the second version of its text.
fn put_again<T: Tray>(alloc: Global, certificate: &Certificate, new: &Text, tray: &mut T) -> Report
    requires { IsSpellable certificate.now }
    ensures { IsPutAgain certificate.now new.now result (T.state tray.old) (T.state tray.new) }
{
    let Ok(bytes) = write_certificate(alloc, certificate) else {
        return Report::Memory;
    };
    match tray.put(new, bytes.as_slice()) {
        Ok(()) => Report::Migrated,
        Err(PutFault::Failed) => Report::WriteFault(FileRef::Out),
        Err(PutFault::Memory) => Report::Memory,
    }
}
