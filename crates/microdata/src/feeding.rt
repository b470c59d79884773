ghost use Rattle.std.specs.Prelude.{◌≡◌, ◌+◌, ◌≤◌, ◌++◌, ◌∷◌, [], None, Some, false, IfErr, IfNone, IfSome, OnOk};
ghost use Rattle.sdc_base.specs.Lines.{HasNoFeed};
ghost use Rattle.microdata.specs.Feeding.{SaysAsFrom, IsKeptOf, StopsLong};
ghost use Rattle.microdata.specs.Feeding as spec;
ghost use Rattle.microdata.specs.Keeping.{AreSoundRecords};

use crate::faults::{RowError, RowWhy};
use crate::layout::Measures;
use crate::record::{MOST_BYTES, ReaderProgress, take_line};
use plain_text::{cut_at, without_return};
use std::alloc::Global;

/// Takes in bytes behind those of the line that has begun. After an error what was lent is to be let go.
pub(crate) fn take_bytes(
    alloc: Global,
    measures: &Measures,
    so_far: &mut ReaderProgress,
    begun: &mut Vec<u8>,
    piece: &[u8],
) -> Result<(), RowError>
    requires sound { AreSoundRecords measures.now so_far.old }
    requires plain { HasNoFeed begun.old.items }
    requires short { spec.is_too_long begun.old.items ≡ false }
    ensures sound { OnOk result (AreSoundRecords measures.now so_far.new) }
    ensures plain { OnOk result (HasNoFeed begun.new.items) }
    ensures short { OnOk result (spec.is_too_long begun.new.items ≡ false) }
    ensures says { OnOk result (SaysAsFrom measures.now so_far.old (begun.old.items ++ piece.now) so_far.new
        begun.new.items) }
    ensures stops { IfErr result (λ error. IsKeptOf (Some error) measures.now so_far.old (begun.old.items ++ piece.now)
        so_far.old begun.old.items) }
{
    let mut rest = piece;
    'lines: while let Some((line, behind)) = ended_line(rest) {
        end_line(alloc, measures, so_far, begun, line)?;
        rest = behind;
    }
    grow_line(so_far.number, begun, rest)
}

// The first line that has ended, without its LF, and what stands behind it.
fn ended_line(bytes: &[u8]) -> Option<(&[u8], &[u8])>
    ensures plain { IfSome result (λ cut. HasNoFeed cut.0.now) }
    ensures cut_behind_line { IfSome result (λ cut. bytes.now ≡ cut.0.now ++ 10 ∷ cut.1.now) }
    ensures none { IfNone result (HasNoFeed bytes.now) }
{
    let (line, behind) = cut_at(b'\n', bytes);
    if line.len() == bytes.len() {
        return None;
    }
    Some((line, behind))
}

// The line that has begun ends behind these bytes. Where nothing has begun, they are taken from where they lie.
fn end_line(
    alloc: Global,
    measures: &Measures,
    so_far: &mut ReaderProgress,
    begun: &mut Vec<u8>,
    bytes: &[u8],
) -> Result<(), RowError>
    requires sound { AreSoundRecords measures.now so_far.old }
    requires plain { HasNoFeed begun.old.items }
    requires short { spec.is_too_long begun.old.items ≡ false }
    requires inside { HasNoFeed bytes.now }
    ensures sound { OnOk result (AreSoundRecords measures.now so_far.new) }
    ensures empty { OnOk result (begun.new.items ≡ []) }
    ensures says { OnOk result (SaysAsFrom measures.now so_far.old (begun.old.items ++ bytes.now ++ 10 ∷ []) so_far.new
        []) }
    ensures stops { IfErr result (λ error. IsKeptOf (Some error) measures.now so_far.old
        (begun.old.items ++ bytes.now ++ 10 ∷ []) so_far.old begun.old.items) }
{
    if begun.is_empty() {
        return take_ended(alloc, measures, so_far, bytes);
    }
    grow_line(so_far.number, begun, bytes)?;
    take_ended(alloc, measures, so_far, begun)?;
    begun.clear();
    Ok(())
}

// Takes in a line that ended with LF, which isn't among its bytes.
fn take_ended(
    alloc: Global,
    measures: &Measures,
    so_far: &mut ReaderProgress,
    line: &[u8],
) -> Result<(), RowError>
    requires sound { AreSoundRecords measures.now so_far.old }
    requires plain { HasNoFeed line.now }
    ensures sound { OnOk result (AreSoundRecords measures.now so_far.new) }
    ensures says { OnOk result (SaysAsFrom measures.now so_far.old (line.now ++ 10 ∷ []) so_far.new []) }
    ensures stops { IfErr result (λ error. IsKeptOf (Some error) measures.now so_far.old (line.now ++ 10 ∷ [])
        so_far.old line.now) }
{
    take_line(alloc, measures, so_far, without_return(line))
}

// The line that has begun goes on. Where it becomes too long, it is left as it was.
fn grow_line(number: u64, begun: &mut Vec<u8>, bytes: &[u8]) -> Result<(), RowError>
    requires records { number ≤ 1000000 }
    requires short { spec.is_too_long begun.old.items ≡ false }
    ensures grown { OnOk result (begun.new.items ≡ begun.old.items ++ bytes.now) }
    ensures short { OnOk result (spec.is_too_long begun.new.items ≡ false) }
    ensures stops { IfErr result (λ error. StopsLong error number (begun.old.items ++ bytes.now)) }
{
    if is_too_long(begun, bytes) {
        return Err(RowError::At {
            number: number + 1,
            why: RowWhy::TooLong,
        });
    }
    begun.extend_from_slice(bytes)?;
    Ok(())
}

// Whether the line that has begun has more than 1,000 bytes with these behind it, one CR at its end not counted.
fn is_too_long(begun: &[u8], bytes: &[u8]) -> bool
    requires { spec.is_too_long begun.now ≡ false }
    ensures { result ≡ spec.is_too_long (begun.now ++ bytes.now) }
{
    if bytes.is_empty() {
        return false;
    }
    begun.len() + without_return(bytes).len() > MOST_BYTES
}
