ghost use Rattle.std.specs.Prelude.{◌≡◌, ◌^◌, ◌≤◌, ◌<◌};
ghost use Rattle.sdc_base.specs.Counts.{HasRisen};

use crate::real_files::RealFiles;
use arrayvec::ArrayVec;
use office_io::{BeginFault, Failed, Shelf};
use sdc_base::Text;
use std::io::{ErrorKind, Read};
use std::rt::Files;

// No longer path is opened by the system.
const LONGEST_PATH: usize = 4096;

/// The real files of the system, to be read by their paths: a run's inputs come from here.
///
/// A name is a path, and one that doesn't begin with a slash is looked for in the current folder.
/// The shelf is a trusted edge: it tells nothing of what the files hold, since no proof sees the
/// system. It counts its faults, the files that it didn't find, and the bytes that it gave and the
/// reads that it was asked for since a file was last begun. Each count stands still at the last value
/// of its type. The system's reason of a fault goes to standard error.
#[derive(Drop)]
pub struct FileShelf<'a, R: Files> {
    files: &'a RealFiles<'a, R>,
    // the chosen file, and its name
    file: Option<R::File>,
    name: ArrayVec<u8, LONGEST_PATH>,
    taken: u64,
    reads: u64,
    empty_reads: u64,
    faults: u64,
    absences: u64,
}

impl<'a, R: Files + Eprint> FileShelf<'a, R> {
    ghost use Rattle.std.specs.Prelude.{Some, None, []};

    /// A shelf from which no file is chosen yet.
    pub fn new(files: &'a RealFiles<'a, R>) -> Self
        ensures { ⟦<FileShelf<'a, R> as Shelf>⟧.state result
            ≡ record {
              files = None;
              left = Some [];
              taken = 0;
              reads = 0;
              empty_reads = 0;
              last = None;
              faults = 0;
              absences = 0;
            } }
    {
        FileShelf {
            files,
            file: None,
            name: ArrayVec::new(),
            taken: 0,
            reads: 0,
            empty_reads: 0,
            faults: 0,
            absences: 0,
        }
    }

    fn count_fault(&mut self)
        ensures rose { HasRisen self.old.faults self.new.faults }
        ensures stays { self.old.faults ≤ self.new.faults }
        ensures end { self.new.faults < 2 ^ 64 }
        ensures rest { self.new ≡ record self.old { faults = self.new.faults } }
    {
        self.faults = self.faults.saturating_add(1);
    }
}

impl<'a, R: Files + Eprint> Shelf for FileShelf<'a, R> {
    ghost use Rattle.std.specs.Prelude.{Some, None, [], if◌then◌else◌, is_some};

    ghost state = { λ s. record {
      files = None;
      left = if is_some s.file then None else Some [];
      taken = s.taken;
      reads = s.reads;
      empty_reads = s.empty_reads;
      last = None;
      faults = s.faults;
      absences = s.absences;
    } };

    fn begin(&mut self, name: &Text) -> Result<(), BeginFault> {
        self.file = None;
        self.taken = 0;
        self.reads = 0;
        self.empty_reads = 0;
        // A name that isn't UTF-8 is a fault: the kit opens no such path, so nobody has looked.
        match self.files.open(name) {
            Ok(file) => {
                self.file = Some(file);
                self.name.clear();
                let _ = self.name.try_extend_from_slice(name.as_slice());
                Ok(())
            }
            Err(e) if e.kind() == ErrorKind::NotFound => {
                self.absences = self.absences.saturating_add(1);
                Err(BeginFault::Absent)
            }
            Err(e) => {
                self.files.tell(name.as_slice(), &e);
                self.count_fault();
                Err(BeginFault::Failed)
            }
        }
    }

    fn read(&mut self, buffer: &mut [u8]) -> Result<usize, Failed> {
        self.reads = self.reads.saturating_add(1);
        let Some(file) = self.file.as_mut() else {
            self.taken = self.taken.saturating_add(0);
            self.empty_reads = self.empty_reads.saturating_add(1);
            return Ok(0);
        };
        match file.read(buffer) {
            Ok(n) => {
                self.taken = self.taken.saturating_add(n as u64);
                if n == 0 {
                    self.empty_reads = self.empty_reads.saturating_add(1);
                }
                Ok(n)
            }
            Err(e) => {
                self.files.tell(self.name.as_slice(), &e);
                self.count_fault();
                self.empty_reads = self.empty_reads.saturating_add(1);
                Err(Failed)
            }
        }
    }
}

#[cfg(test)]
mod tests {
    use super::FileShelf;
    use crate::real_files::RealFiles;
    use crate::test_folder::TestFolder;
    use office_io::{FileFault, Shelf, read_all};
    use sdc_base::Text;
    use std::alloc::Global;
    use std::fs;
    use std::test::Fail;

    // What reading a file comes to: whether it gave the whole file, its fault, and the counts of faults, of absences and
    // of bytes taken after it.
    type Outcome = (bool, Option<FileFault>, u64, u64, u64);

    // By its name in the folder, what reading a file comes to, one after another.
    const READS: [(&str, Outcome); 6] = [
        ("missing", (false, Some(FileFault::Absent), 0, 1, 0)),
        ("nowhere/long", (false, Some(FileFault::Absent), 0, 2, 0)),
        ("long", (true, None, 0, 2, 9_000)),
        ("inner", (false, Some(FileFault::Failed), 1, 2, 0)),
        ("long\0", (false, Some(FileFault::Failed), 2, 2, 0)),
        ("long", (true, None, 2, 2, 9_000)),
    ];

    // The bytes of the long file, which is read in several pieces.
    fn long_bytes(alloc: Global) -> Result<Vec<u8>, Fail> {
        let mut bytes = Vec::new(alloc);
        for i in 0..9_000u64 {
            bytes.push((i * i % 251) as u8)?;
        }
        Ok(bytes)
    }

    // A folder with the long file and a folder in it.
    fn folder_of_files(rt: &HostRuntime) -> Result<TestFolder, Fail> {
        let folder = TestFolder::make(rt, "shelf")?;
        let bytes = long_bytes(rt.alloc())?;
        fs::write(rt, folder.path(rt, "long")?.as_str(), bytes.as_slice())?;
        fs::create_dir(rt, folder.path(rt, "inner")?.as_str())?;
        Ok(folder)
    }

    // What reading a file of this name comes to.
    fn outcome_of(
        alloc: Global,
        shelf: &mut FileShelf<'_, HostRuntime>,
        name: &Text,
        whole: &[u8],
    ) -> Outcome {
        let (is_whole, fault) = match read_all(alloc, shelf, name, 9_000) {
            Ok(read) => (read.as_slice() == whole, None),
            Err(why) => (false, Some(why)),
        };
        (is_whole, fault, shelf.faults, shelf.absences, shelf.taken)
    }

    #[test]
    fn real_files(rt: HostRuntime) -> Result<(), Fail> {
        let folder = folder_of_files(&rt)?;
        let whole = long_bytes(rt.alloc())?;
        let files = RealFiles::new(&rt, "argus");
        let mut shelf = FileShelf::new(&files);
        for (file, want) in &READS {
            let name = folder.name(&rt, file)?;
            let got = outcome_of(rt.alloc(), &mut shelf, &name, whole.as_slice());
            assert_eq!(rt; got, *want);
        }
        folder.remove(&rt)
    }

    // Nothing is chosen after a refusal.
    #[test]
    fn name_that_is_no_text(rt: HostRuntime) -> Result<(), Fail> {
        let files = RealFiles::new(&rt, "argus");
        let mut shelf = FileShelf::new(&files);
        let stray = Text::new(vec![in rt.alloc(); 255u8]?);
        let got = outcome_of(rt.alloc(), &mut shelf, &stray, b"");
        assert_eq!(rt; got, (false, Some(FileFault::Failed), 1, 0, 0));
        let mut buffer = [0u8; 4];
        assert_eq!(rt; shelf.read(&mut buffer).ok(), Some(0));
        Ok(())
    }
}
