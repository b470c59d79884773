ghost use Rattle.std.specs.Prelude.{◌≡◌, ◌≤◌, ◌+◌, ◌++◌, [], IfOk, IfErr, IsErrOf, OnOk, List, length, ℕ};
ghost use Rattle.std.specs.List.{AllByRecursion};
ghost use Rattle.sdc_base.specs.Answers.{Gives, Fails};
ghost use Rattle.sdc_base.specs.Steps.{map_fault};
ghost use Rattle.sdc_base.specs.WhereTold.{WhereTold};
ghost use Rattle.sdc_base.specs.Trees.{IsCodeTree};
ghost use Rattle.office_io.specs.Shelves.{HasBegun, HasChosen, HasOnlyRead};
ghost use Rattle.microdata.specs.Feeding.{HasRead, fed_of};
ghost use Rattle.microdata.specs.Layouts.{IsLayout};
ghost use Rattle.microdata.specs.Microdata.{records_of};
ghost use Rattle.microdata.specs.declared.layout.Layout.{Layout as AnyLayout};
ghost use Rattle.job_inputs.specs.Inputs.{look_at_records, records_of_bytes};
ghost use Rattle.job_inputs.specs.ReadFiles.{limit, row_fault};
ghost use Rattle.job_inputs.specs.Looks.{IsFile};
ghost use Rattle.job_inputs.specs.Reading.{IsReadFrom, HasCause, stopped_for, BeforeReading};
ghost use Rattle.plain_text.specs.Stops.{why_of};
ghost use Rattle.job_inputs.specs.Refusals.{IsForContents};
ghost use Rattle.job_inputs.specs.declared.file_ref.FileRef.{FileRef as AnyFile};
ghost use Rattle.job_inputs.specs.SoundJobs.{AreRecordsOf};

use crate::faults::Fault;
use crate::file_ref::FileRef;
use crate::loading::LIMIT;
use crate::refusal::row_refusal;
use crate::stop::InputStop;
use microdata::{Layout, Reader, Records, faults_stand, read_is_within_limits, rows_are_at_leaves};
use office_io::{BeginFault, Shelf};
use plain_text::Stop;
use sdc_base::Text;
use std::alloc::Global;

/// The records of the microdata file of this name, which is read in pieces.
///
/// The faults are looked for in the order Absent, then those of the first 2^28 bytes whatever follows them, then
/// TooLong, then those of the whole.
pub(crate) fn read_records<S: Shelf>(
    alloc: Global,
    shelf: &mut S,
    name: &Text,
    layout: Layout,
) -> Result<Records, InputStop>
    requires { IsLayout layout }
    ensures { IsReadFrom (λ records. records) (λ fs. look_at_records fs name.now layout)
        (λ fs. IsFile FileRef.Microdata name.now) (AreRecordsOf layout) limit result (S.state shelf.old)
        (S.state shelf.new) }
{
    let mut reader = Reader::new(alloc, layout)?;
    begin(shelf, name)?;
    feed_all(shelf, &mut reader)?;
    let records = finish(reader)?;
    Ok(records)
}

// Chooses the microdata file.
fn begin<S: Shelf>(shelf: &mut S, name: &Text) -> Result<(), InputStop>
    ensures chosen { OnOk result (HasChosen name.now (S.state shelf.old) (S.state shelf.new)) }
    ensures told { IfErr result (λ stop. WhereTold (S.state shelf.old).files
        (λ fs. (layout : AnyLayout) → Fails (stopped_for stop) (look_at_records fs name.now layout))) }
    ensures which { (f : AnyFile) → IsErrOf result (InputStop.ReadFault f) → f ≡ FileRef.Microdata }
    ensures begun { HasBegun name.now (S.state shelf.old) (S.state shelf.new) }
    ensures only_read { HasOnlyRead (S.state shelf.old) (S.state shelf.new) }
    ensures cause { HasCause result (S.state shelf.old) (S.state shelf.new) }
{
    match shelf.begin(name) {
        Ok(()) => Ok(()),
        Err(BeginFault::Absent) => Err(InputStop::Refused(Fault::Absent(FileRef::Microdata))),
        Err(BeginFault::Failed) => Err(InputStop::ReadFault(FileRef::Microdata)),
    }
}

// Feeds a reader with all bytes of the chosen file, of which none is taken yet. Every read but the last takes a byte, so
// none is made behind the file's end.
fn feed_all<S: Shelf>(shelf: &mut S, reader: &mut Reader) -> Result<(), InputStop>
    requires none_taken { (S.state shelf.old).taken ≡ 0 }
    requires none_read { (S.state shelf.old).reads ≡ 0 }
    requires none_empty { (S.state shelf.old).empty_reads ≡ 0 }
    ensures no_more { (S.state shelf.new).taken ≤ limit + 1 }
    ensures few_reads { (S.state shelf.new).reads ≤ limit + 1 }
    ensures each_takes { (S.state shelf.new).reads ≤ (S.state shelf.new).taken + 1 }
    ensures none_behind { (S.state shelf.new).empty_reads ≤ 1 }
    ensures reads_all { OnOk result (BeforeReading (S.state shelf.old) reader.old
        (λ layout bytes. HasRead reader.new layout bytes × (length bytes ≤ limit))) }
    ensures reads_front { OnOk result ((layout : AnyLayout) → HasRead reader.old layout []
        → (bytes : List ℕ) × HasRead reader.new layout bytes) }
    ensures told { IfErr result (λ stop. BeforeReading (S.state shelf.old) reader.old
        (λ layout bytes. Fails (stopped_for stop) (records_of_bytes layout bytes))) }
    ensures which { (f : AnyFile) → IsErrOf result (InputStop.ReadFault f) → f ≡ FileRef.Microdata }
    ensures last { (S.state shelf.new).last ≡ (S.state shelf.old).last }
    ensures only_read { HasOnlyRead (S.state shelf.old) (S.state shelf.new) }
    ensures cause { HasCause result (S.state shelf.old) (S.state shelf.new) }
{
    // for the proof: a fault that is found early is that of all bytes
    faults_stand();
    let mut buffer = [0u8; 4096];
    let mut taken: u64 = 0;
    'pieces: loop {
        let room = (LIMIT + 1 - taken).min(4096) as usize;
        let piece = &mut buffer[..room];
        let Ok(n) = shelf.read(piece) else {
            return Err(InputStop::ReadFault(FileRef::Microdata));
        };
        let ended = n == 0;
        if ended {
            return Ok(());
        }
        // the bytes up to the limit are looked at before the file is found too long
        let within = (n as u64).min(LIMIT - taken) as usize;
        feed_piece(reader, &piece[..within])?;
        let beyond = within < n;
        if beyond {
            return Err(InputStop::Refused(Fault::TooLong(FileRef::Microdata)));
        }
        taken += n as u64;
    }
}

// Feeds a reader with a piece.
#[tactic(auto, using(crate::proofs::Refusing::row_refuses, crate::proofs::Refusing::row_is_for_contents))]
fn feed_piece(reader: &mut Reader, piece: &[u8]) -> Result<(), Stop<Fault>>
    ensures fed { OnOk result ((layout : AnyLayout) (bytes : List ℕ) → HasRead reader.old layout bytes
        → HasRead reader.new layout (bytes ++ piece.now)) }
    ensures exact { (layout : AnyLayout) (bytes : List ℕ) → HasRead reader.old layout bytes
        → Gives why_of (λ fine. fine) result (map_fault row_fault (fed_of layout (bytes ++ piece.now))) }
    ensures contents { IfErr result IsForContents }
{
    match reader.feed(piece) {
        Ok(()) => Ok(()),
        Err(error) => Err(row_refusal(error)),
    }
}

// The records of a reader that was fed all bytes.
#[tactic(auto, using(crate::proofs::Refusing::row_refuses, crate::proofs::Refusing::row_is_for_contents))]
fn finish(reader: Reader) -> Result<Records, Stop<Fault>>
    ensures exact { (layout : AnyLayout) (bytes : List ℕ) → HasRead reader layout bytes
        → Gives why_of (λ records. records) result (map_fault row_fault (records_of layout bytes)) }
    ensures sound { IfOk result (λ records. (layout : AnyLayout) (bytes : List ℕ) → HasRead reader layout bytes
        → AreRecordsOf layout records) }
    ensures trees { IfOk result (λ records. AllByRecursion IsCodeTree records.trees) }
    ensures contents { IfErr result IsForContents }
{
    // for the proof: what is read is within its limits
    read_is_within_limits();
    // for the proof: its rows are at the lowest level of each tree
    rows_are_at_leaves();
    match reader.finish() {
        Ok(records) => Ok(records),
        Err(error) => Err(row_refusal(error)),
    }
}
