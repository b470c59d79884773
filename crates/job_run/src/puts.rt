ghost use Rattle.std.specs.Prelude.{◌≡◌, ◌<◌, ◌≤◌, ℕ, length, OnOk, IsErrOf};
ghost use Rattle.sdc_base.specs.Counts.{HasRisen};
ghost use Rattle.office_io.specs.Trays.{HasPut, HasPutInPart};
ghost use Rattle.job_run.specs.Puts.{AllWhole, SomeWhole, OneInPart};
ghost use Rattle.job_inputs.specs.declared.file_ref.FileRef.{FileRef as AnyFile};

use crate::put::FilePut;
use job_inputs::FileRef;
use office_io::{PutFault, Tray};
use plain_text::Stop;

// Puts one file. The fault is that the tray failed at it.
fn put_file<T: Tray>(tray: &mut T, next: &FilePut) -> Result<(), Stop<FileRef>>
    ensures has_put { OnOk result (HasPut next.now.name next.now.bytes (T.state tray.old) (T.state tray.new)) }
    ensures part { (f : AnyFile) → IsErrOf result (Stop.Fault f)
        → (next.now.file ≡ f) × HasPutInPart next.now.name next.now.bytes (T.state tray.old) (T.state tray.new) }
    ensures memory { IsErrOf result Stop.Memory → T.state tray.new ≡ T.state tray.old }
    ensures faults_stay { (T.state tray.old).faults ≤ (T.state tray.new).faults }
{
    match tray.put(&next.name, next.bytes.as_slice()) {
        Ok(()) => Ok(()),
        Err(PutFault::Failed) => Err(Stop::Fault(next.file)),
        Err(PutFault::Memory) => Err(Stop::Memory),
    }
}

/// Puts the files, each once and in their order, up to the first at which the tray fails, which is the fault.
pub(crate) fn put_files<T: Tray>(tray: &mut T, puts: &[FilePut]) -> Result<(), Stop<FileRef>>
    requires { 0 < length puts.now }
    ensures has_put_all { OnOk result (AllWhole puts.now (T.state tray.old) (T.state tray.new)) }
    ensures part { (f : AnyFile) → IsErrOf result (Stop.Fault f)
        → OneInPart puts.now f (T.state tray.old) (T.state tray.new) }
    ensures memory { IsErrOf result Stop.Memory → SomeWhole puts.now (T.state tray.old) (T.state tray.new) }
    ensures cause { (f : AnyFile) → IsErrOf result (Stop.Fault f)
        → HasRisen (T.state tray.old).faults (T.state tray.new).faults }
{
    for next in puts {
        put_file(tray, next)?;
    }
    Ok(())
}
