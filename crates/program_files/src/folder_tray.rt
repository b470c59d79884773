ghost use Rattle.std.specs.Prelude.{◌≡◌};

use crate::real_files::RealFiles;
use office_io::{PutFault, Tray};
use sdc_base::Text;
use std::rt::Files;

/// The current folder, to which a run's outputs are written as real files.
///
/// A name is a path, and one that doesn't begin with a slash is a file of the current folder. No
/// folder is made. A name that leads to a file that was read or put before, or to anything but a
/// plain file, is a fault, and leaves that as it is. The tray is a trusted edge: it tells nothing of
/// what the folder holds, since no proof sees the system. It counts its puts and its faults, and
/// each count stands still at its last value. The system's reason of a fault goes to standard error.
#[derive(Drop)]
pub struct FolderTray<'a, R: Files> {
    files: &'a RealFiles<'a, R>,
    faults: u64,
    puts: u64,
}

impl<'a, R: Files + Eprint> FolderTray<'a, R> {
    ghost use Rattle.std.specs.Prelude.{None};

    /// A tray that hasn't failed yet.
    pub fn new(files: &'a RealFiles<'a, R>) -> Self
        ensures { ⟦<FolderTray<'a, R> as Tray>⟧.state result ≡ record { files = None; puts = 0; faults = 0 } }
    {
        FolderTray {
            files,
            faults: 0,
            puts: 0,
        }
    }
}

impl<'a, R: Files + Eprint> Tray for FolderTray<'a, R> {
    ghost use Rattle.std.specs.Prelude.{None};

    ghost state = { λ s. record { files = None; puts = s.puts; faults = s.faults } };

    // Whatever keeps the file from being written whole is a fault, be it before it is made or
    // midway: the file then holds the first of the bytes, as many as were written.
    fn put(&mut self, name: &Text, bytes: &[u8]) -> Result<(), PutFault> {
        self.puts = self.puts.saturating_add(1);
        match self.files.write(name, bytes) {
            Ok(()) => Ok(()),
            Err(e) => {
                self.files.tell(name.as_slice(), &e);
                self.faults = self.faults.saturating_add(1);
                Err(PutFault::Failed)
            }
        }
    }
}

#[cfg(test)]
mod tests {
    use super::FolderTray;
    use crate::real_files::RealFiles;
    use crate::test_folder::TestFolder;
    use office_io::{PutFault, Tray};
    use sdc_base::Text;
    use std::fs;
    use std::test::Fail;

    // A run of its own each: a name, the bytes that are put, the fault that is wanted, and what the file `table` then
    // holds.
    const PUTS: [(&str, &str, Option<PutFault>, &str); 6] = [
        ("table", "first", None, "first"),
        ("nowhere/table", "x", Some(PutFault::Failed), "first"),
        ("table", "2", None, "2"),
        ("inner", "x", Some(PutFault::Failed), "2"),
        ("other", "", None, "2"),
        ("table", "replaced", None, "replaced"),
    ];

    // The fault of one put by a tray of its own, and how many faults that tray has counted.
    fn put_alone(rt: &HostRuntime, name: &Text, bytes: &str) -> (Option<PutFault>, u64) {
        let files = RealFiles::new(rt, "argus");
        let mut tray = FolderTray::new(&files);
        let put = tray.put(name, bytes.as_bytes());
        (put.err(), tray.faults)
    }

    // Whether a file of the folder holds this.
    fn holds(rt: &HostRuntime, folder: &TestFolder, file: &str, want: &str) -> Result<bool, Fail> {
        let bytes = fs::read(rt, folder.path(rt, file)?.as_str())?;
        Ok(bytes.as_slice() == want.as_bytes())
    }

    #[test]
    fn real_files(rt: HostRuntime) -> Result<(), Fail> {
        let folder = TestFolder::make(&rt, "tray")?;
        fs::create_dir(&rt, folder.path(&rt, "inner")?.as_str())?;
        for (file, bytes, fault, held) in &PUTS {
            let name = folder.name(&rt, file)?;
            let (got, faults) = put_alone(&rt, &name, bytes);
            let is_held = holds(&rt, &folder, "table", held)?;
            assert_eq!(rt;
                (got, faults, is_held),
                (*fault, fault.is_some() as u64, true)
            );
        }
        assert!(rt; holds(&rt, &folder, "other", "")?);
        folder.remove(&rt)
    }

    #[test]
    fn name_that_is_no_text(rt: HostRuntime) -> Result<(), Fail> {
        let stray = Text::new(vec![in rt.alloc(); 255u8]?);
        assert_eq!(rt; put_alone(&rt, &stray, "x"), (Some(PutFault::Failed), 1));
        Ok(())
    }
}
