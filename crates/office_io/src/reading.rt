ghost use Rattle.std.specs.Prelude.{◌≡◌, ◌≢◌, ◌+◌, ◌^◌, ◌≤◌, ◌<◌, ◌↔◌, length, None, Some, IfOk, IsErrOf, OnOk, IfErr, ◌++◌};
ghost use Rattle.sdc_base.specs.Counts.{HasRisen};
ghost use Rattle.sdc_base.specs.WhereTold.{WhereTold};
ghost use Rattle.office_io.specs.Shelves.{HasOnlyRead};
ghost use Rattle.office_io.specs.Reading.{IsWholeFile, IsAbsent, IsTooLong, HasLookedFor};

use crate::faults::{BeginFault, FileFault};
use crate::shelf::Shelf;
use sdc_base::Text;
use std::alloc::Global;

/// The bytes of the file of this name, which has at most `limit` of them (`limit < 2^62`).
///
/// The refusals, in the order in which they are looked for: `Absent` and `Failed`, as the shelf
/// answers when the file is begun; `Failed`, where a later read fails; `TooLong`, exactly where
/// `limit + 1` bytes were taken from the shelf, so no more are ever read; `Memory`, where the
/// bytes find no room. Whatever the answer, the shelf's files are as before.
///
/// Every read but the last takes a byte, so it returns for every shelf, after at most `limit + 1`
/// reads. It asks for up to 4,096 bytes at a time. The bytes are copied once out of the buffer,
/// and again where the vector grows. The rule is argus's own.
pub fn read_all<S: Shelf>(
    alloc: Global,
    shelf: &mut S,
    name: &Text,
    limit: u64,
) -> Result<Vec<u8>, FileFault>
    requires { limit < 2 ^ 62 }
    ensures whole_file { IfOk result (λ bytes. IsWholeFile name.now limit bytes.items (S.state shelf.old)
        (S.state shelf.new)) }
    ensures absent { IsErrOf result FileFault.Absent → IsAbsent name.now (S.state shelf.old) (S.state shelf.new) }
    ensures failed { IsErrOf result FileFault.Failed → HasRisen (S.state shelf.old).faults (S.state shelf.new).faults }
    ensures too_long { IsErrOf result FileFault.TooLong ↔ ((S.state shelf.new).taken ≡ limit + 1) }
    ensures longer { IsErrOf result FileFault.TooLong → IsTooLong name.now limit (S.state shelf.old) }
    ensures looked_for { HasLookedFor name.now limit (S.state shelf.old) (S.state shelf.new) }
    ensures only_read { HasOnlyRead (S.state shelf.old) (S.state shelf.new) }
{
    match shelf.begin(name) {
        Ok(()) => {}
        Err(BeginFault::Absent) => return Err(FileFault::Absent),
        Err(BeginFault::Failed) => return Err(FileFault::Failed),
    }
    let mut bytes = Vec::new(alloc);
    let mut buffer = [0u8; 4096];
    'pieces: loop {
        let room = (limit + 1 - bytes.len() as u64).min(4096) as usize;
        let piece = &mut buffer[..room];
        let Ok(n) = shelf.read(piece) else {
            return Err(FileFault::Failed);
        };
        let ended = n == 0;
        if ended {
            return Ok(bytes);
        }
        // before the piece is kept: a file that is too long is never refused for want of memory
        let beyond = n as u64 > limit - bytes.len() as u64;
        if beyond {
            return Err(FileFault::TooLong);
        }
        add_piece(&mut bytes, &piece[..n])?;
    }
}

// Adds a piece at the end.
fn add_piece(bytes: &mut Vec<u8>, piece: &[u8]) -> Result<(), FileFault>
    ensures ok { OnOk result (bytes.new.items ≡ bytes.old.items ++ piece.now) }
    ensures err { IfErr result (λ e. e ≡ FileFault.Memory) }
{
    bytes
        .extend_from_slice(piece)
        .map_err(|_| FileFault::Memory)
}
