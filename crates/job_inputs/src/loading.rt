ghost use Rattle.std.specs.Prelude.{◌≡◌, ◌≤◌, length};
ghost use Rattle.job_inputs.specs.ReadFiles.{limit_of, bytes_of_file};
ghost use Rattle.job_inputs.specs.Looks.{IsFile};
ghost use Rattle.job_inputs.specs.Reading.{AreItemsReadFrom};

use crate::faults::Fault;
use crate::file_ref::FileRef;
use crate::stop::InputStop;
use office_io::{FileFault, Shelf, read_all};
use sdc_base::Text;
use std::alloc::Global;

/// The greatest input file, in bytes.
pub(crate) const LIMIT: u64 = 268_435_456;

/// The greatest file that was put, in bytes: 2^60.
const OUTPUT_LIMIT: u64 = 1_152_921_504_606_846_976;

// The greatest file of its kind, in bytes.
fn limit_for(file: FileRef) -> u64
    ensures { result ≡ limit_of file }
{
    match file {
        FileRef::Certificate => OUTPUT_LIMIT,
        FileRef::Contributors => OUTPUT_LIMIT,
        FileRef::Table(_) => OUTPUT_LIMIT,
        _ => LIMIT,
    }
}

/// The bytes of a file, or its own fault: Absent, then TooLong.
pub(crate) fn load<S: Shelf>(
    alloc: Global,
    shelf: &mut S,
    name: &Text,
    file: FileRef,
) -> Result<Vec<u8>, InputStop>
    ensures { AreItemsReadFrom (λ fs. bytes_of_file fs name.now file) (λ fs. IsFile file name.now)
        (λ bytes. length bytes ≤ limit_of file) (limit_of file) result (S.state shelf.old) (S.state shelf.new) }
{
    match read_all(alloc, shelf, name, limit_for(file)) {
        Ok(bytes) => Ok(bytes),
        Err(FileFault::Absent) => Err(InputStop::Refused(Fault::Absent(file))),
        Err(FileFault::TooLong) => Err(InputStop::Refused(Fault::TooLong(file))),
        Err(FileFault::Failed) => Err(InputStop::ReadFault(file)),
        Err(FileFault::Memory) => Err(InputStop::Memory),
    }
}
