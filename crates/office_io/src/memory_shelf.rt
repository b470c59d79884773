ghost use Rattle.std.specs.Prelude.{◌≡◌, ◌≢◌, ◌≤◌, ◌<◌, Some, None, [], IfSome, IfNone, IfOk, OnOk, OnErr, IsErr, IsErrOf, Err, ◌↔◌, length, take, true};
ghost use Rattle.sdc_base.specs.Counts.{count_after};
ghost use Rattle.office_io.specs.Files.{file_of, name_at, bytes_at, rest_at};
ghost use Rattle.office_io.specs.Shelves.{HasOnlyRead, HasBegun, HasChosen, HasFoundNone, HasNotLooked};
ghost use Rattle.office_io.specs.Shelves.{HasGiven, HasNotRead, HasReadOnce};
ghost use Rattle.office_io.specs.Shelves as spec;

use crate::faults::{BeginFault, Failed};
use crate::shelf::Shelf;
use sdc_base::Text;

/// A shelf in memory, which fails at the calls that it is told. It tells its files.
///
/// Calls of `begin` and of `read` are counted together, from 1, and a call fails exactly where its
/// number is among the failing ones. A call that fails counts one fault, a name that isn't held counts
/// one absence, and no other call counts either. A call costs as much as there are files and failing
/// calls.
#[derive(Drop)]
pub struct MemoryShelf {
    files: Vec<(Text, Vec<u8>)>,
    failing: Vec<u64>,
    piece: u32,
    calls: u64,
    // the place of the file last begun, where it is held
    last: Option<usize>,
    // the place of the chosen file, and its next byte; not known after a read that failed
    chosen: Option<usize>,
    at: usize,
    known: bool,
    taken: u64,
    reads: u64,
    empty_reads: u64,
    faults: u64,
    absences: u64,
    ghost gives_some: { 1 ≤ piece },
}

impl MemoryShelf {
    ghost use Rattle.office_io.specs.Memory.{is_due, shelf_calls, shelf_failing, shelf_piece};

    /// A shelf of these files, each a name and its bytes, from which no file is chosen yet.
    ///
    /// The names are to be distinct: of two files with one name the first is held. The calls whose
    /// numbers stand in `failing` fail, in any order. A read gives at most `piece` bytes, 1 or more.
    pub fn new(files: Vec<(Text, Vec<u8>)>, failing: Vec<u64>, piece: u32) -> MemoryShelf
        requires { 1 ≤ piece }
        ensures state { ⟦<MemoryShelf as Shelf>⟧.state result
            ≡ record {
              files = Some (file_of files.items);
              left = Some [];
              taken = 0;
              reads = 0;
              empty_reads = 0;
              last = None;
              faults = 0;
              absences = 0;
            } }
        ensures calls { shelf_calls result ≡ 0 }
        ensures failing { shelf_failing result ≡ failing.items }
        ensures piece { shelf_piece result ≡ piece }
    {
        MemoryShelf {
            files,
            failing,
            piece,
            calls: 0,
            last: None,
            chosen: None,
            at: 0,
            known: true,
            taken: 0,
            reads: 0,
            empty_reads: 0,
            faults: 0,
            absences: 0,
        }
    }

    // Whether the next call fails.
    fn next_fails(&mut self) -> bool
        ensures due { result ≡ is_due self.old.failing.items self.old.calls }
        ensures rest { self.new ≡ record self.old { calls = count_after self.old.calls 1 } }
    {
        self.calls = self.calls.saturating_add(1);
        self.failing.contains(&self.calls)
    }
}

// What is left of a file from a place on.
fn rest_of(files: &[(Text, Vec<u8>)], chosen: Option<usize>, at: usize) -> &[u8]
    ensures { Some result.now ≡ rest_at files.now true chosen at }
{
    let Some(i) = chosen else {
        return &[];
    };
    let Some(file) = files.get(i) else {
        return &[];
    };
    if at < file.1.len() {
        return &file.1.as_slice()[at..];
    }
    &[]
}

// Puts at most `most` of the bytes at the front of the buffer, and says how many.
fn fill_buffer(bytes: &[u8], most: u32, buffer: &mut [u8]) -> usize
    requires room { 0 < length buffer.old }
    requires at_least_one { 1 ≤ most }
    ensures fits { result ≤ length buffer.old }
    ensures most { result ≤ most }
    ensures within { result ≤ length bytes.now }
    ensures end { (result ≡ 0) ↔ (bytes.now ≡ []) }
    ensures given { take result buffer.new ≡ take result bytes.now }
{
    let n = bytes.len().min(most as usize).min(buffer.len());
    buffer[..n].copy_from_slice(&bytes[..n]);
    n
}

// How many reads gave no byte, after one that gave so many.
fn empty_after(count: u64, n: usize) -> u64
    ensures { result ≡ spec.empty_after count n }
{
    if n == 0 {
        return count.saturating_add(1);
    }
    count
}

// The place of the first file of this name.
fn file_place(files: &[(Text, Vec<u8>)], name: &Text) -> Option<usize>
    ensures none { IfNone result (file_of files.now name.now ≡ None) }
    ensures has_name { IfSome result (λ i. (file_of files.now name.now ≡ bytes_at files.now i)
        × (name_at files.now i ≡ Some name.now)) }
{
    for (i, file) in files.iter().enumerate() {
        if file.0.equals(name) {
            return Some(i);
        }
    }
    None
}

impl Shelf for MemoryShelf {
    ghost use Rattle.std.specs.Prelude.{Some, option_and_then};
    ghost use Rattle.office_io.specs.Files.{file_of, name_at, rest_at};
    ghost use Rattle.office_io.specs.Memory.{is_due, shelf_state, shelf_calls, shelf_failing, shelf_piece};

    ghost state = { λ s. record {
      files = Some (file_of s.files.items);
      left = rest_at s.files.items s.known s.chosen s.at;
      taken = s.taken;
      reads = s.reads;
      empty_reads = s.empty_reads;
      last = option_and_then (name_at s.files.items) s.last;
      faults = s.faults;
      absences = s.absences;
    } };

    fn begin(&mut self, name: &Text) -> Result<(), BeginFault>
        ensures chosen { OnOk result (HasChosen name.now (shelf_state self.old) (shelf_state self.new)) }
        ensures absent { IsErrOf result BeginFault.Absent
            → HasFoundNone name.now (shelf_state self.old) (shelf_state self.new) }
        ensures failed { IsErrOf result BeginFault.Failed → HasNotLooked (shelf_state self.old) (shelf_state self.new) }
        ensures begun { HasBegun name.now (shelf_state self.old) (shelf_state self.new) }
        ensures only_read { HasOnlyRead (shelf_state self.old) (shelf_state self.new) }
        ensures due { IsErrOf result BeginFault.Failed ↔ (is_due (shelf_failing self.old) (shelf_calls self.old) ≡ true) }
        ensures calls { shelf_calls self.new ≡ count_after (shelf_calls self.old) 1 }
        ensures failing { shelf_failing self.new ≡ shelf_failing self.old }
        ensures piece_stays { shelf_piece self.new ≡ shelf_piece self.old }
        ensures one_fault { IsErrOf result BeginFault.Failed
            → (shelf_state self.new).faults ≡ count_after (shelf_state self.old).faults 1 }
        ensures no_fault { (result ≢ Err BeginFault.Failed)
            → (shelf_state self.new).faults ≡ (shelf_state self.old).faults }
        ensures one_absence { IsErrOf result BeginFault.Absent
            → (shelf_state self.new).absences ≡ count_after (shelf_state self.old).absences 1 }
        ensures no_absence { (result ≢ Err BeginFault.Absent)
            → (shelf_state self.new).absences ≡ (shelf_state self.old).absences }
    {
        self.taken = 0;
        self.reads = 0;
        self.empty_reads = 0;
        self.at = 0;
        self.known = true;
        self.chosen = None;
        self.last = file_place(&self.files, name);
        if self.next_fails() {
            self.faults = self.faults.saturating_add(1);
            return Err(BeginFault::Failed);
        }
        if self.last.is_none() {
            self.absences = self.absences.saturating_add(1);
            return Err(BeginFault::Absent);
        }
        self.chosen = self.last;
        Ok(())
    }

    fn read(&mut self, buffer: &mut [u8]) -> Result<usize, Failed>
        requires { 0 < length buffer.old }
        ensures given { IfOk result (λ n. HasGiven n buffer.old buffer.new (shelf_state self.old)
            (shelf_state self.new)) }
        ensures failed { OnErr result (HasNotRead (shelf_state self.old) (shelf_state self.new)) }
        ensures once { HasReadOnce (shelf_state self.old) (shelf_state self.new) }
        ensures only_read { HasOnlyRead (shelf_state self.old) (shelf_state self.new) }
        ensures due { IsErr result ↔ (is_due (shelf_failing self.old) (shelf_calls self.old) ≡ true) }
        ensures piece { IfOk result (λ n. n ≤ shelf_piece self.old) }
        ensures calls { shelf_calls self.new ≡ count_after (shelf_calls self.old) 1 }
        ensures failing { shelf_failing self.new ≡ shelf_failing self.old }
        ensures piece_stays { shelf_piece self.new ≡ shelf_piece self.old }
        ensures one_fault { OnErr result ((shelf_state self.new).faults ≡ count_after (shelf_state self.old).faults 1) }
        ensures no_fault { OnOk result ((shelf_state self.new).faults ≡ (shelf_state self.old).faults) }
        ensures no_absence { (shelf_state self.new).absences ≡ (shelf_state self.old).absences }
    {
        self.reads = self.reads.saturating_add(1);
        if self.next_fails() {
            self.faults = self.faults.saturating_add(1);
            self.known = false;
            self.empty_reads = self.empty_reads.saturating_add(1);
            return Err(Failed);
        }
        let n = fill_buffer(
            rest_of(&self.files, self.chosen, self.at),
            self.piece,
            buffer,
        );
        self.at = self.at.saturating_add(n);
        self.taken = self.taken.saturating_add(n as u64);
        self.empty_reads = empty_after(self.empty_reads, n);
        Ok(n)
    }
}
