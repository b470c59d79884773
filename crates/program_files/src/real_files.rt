ghost use Rattle.std.specs.Prelude.{◌≡◌, ◌↔◌, Some, None, true, Contains};

use arrayvec::ArrayVec;
use sdc_base::Text;
use std::cell::RefCell;
use std::fmt::{Display, Formatter, Write as _};
use std::fs::{Metadata, OpenFile, OpenOptions};
use std::io::{Error, ErrorKind, Write};
use std::os::unix::fs::MetadataExt;
use std::rt::Files;
use std::{fmt, fs, io};

/// A file, by what the system says that it is: its device, and its number there.
///
/// All names that lead to one file give one mark: other spellings, links of both kinds, and ways
/// through other folders.
#[derive(Clone, Copy, Default, PartialEq, Eq)]
struct FileMark {
    device: u64,
    inode: u64,
}

/// Why a name isn't written to.
#[derive(Clone, Copy, PartialEq, Eq)]
enum Refusal {
    /// The name leads to a folder, a device, a pipe or a socket.
    NotPlain,
    /// The name leads to a file that was read or put before.
    Opened,
}

// How many files a run opens at most, with room to spare: of 8 tables, 8 variables that span them
// and 8 a priori files there come fewer than 40.
const MOST: usize = 64;

/// The real files of the system, and which of them a run has opened.
///
/// A shelf and a tray that share it never write to a file that one of them opened before. It takes
/// no memory.
#[derive(Drop)]
pub struct RealFiles<'a, R> {
    rt: &'a R,
    program: &'a str,
    opened: RefCell<ArrayVec<FileMark, MOST>>,
}

impl<'a, R: Files + Eprint> RealFiles<'a, R> {
    /// None was opened so far. The program's name begins what is said of a file on standard error.
    pub fn new(rt: &'a R, program: &'a str) -> Self {
        RealFiles {
            rt,
            program,
            opened: RefCell::new(ArrayVec::new()),
        }
    }

    /// Opens a plain file to be read, and remembers it.
    ///
    /// A name that leads to anything else is refused before it is opened, since a pipe may never give
    /// a byte; and the opened file is looked at once more, since another program may turn the name
    /// elsewhere in between. One that can't be remembered isn't read. The error is of the kind
    /// `NotFound` where the system finds no file.
    pub fn open(&self, name: &Text) -> io::Result<R::File> {
        let path = path_of(name)?;
        check_plain(&fs::metadata(self.rt, path)?)?;
        let file = fs::open(self.rt, path)?;
        let found = file.metadata()?;
        check_plain(&found)?;
        self.remember(mark_of(&found))?;
        Ok(file)
    }

    /// Makes or replaces a plain file, and remembers it.
    ///
    /// A name that leads to anything but a plain file, or to one that was opened before, is refused
    /// before it is opened. Since another program may turn the name elsewhere in between, the opened
    /// file is looked at once more, before anything is cut from it or written to it.
    pub fn write(&self, name: &Text, bytes: &[u8]) -> io::Result<()> {
        let path = path_of(name)?;
        match fs::metadata(self.rt, path) {
            Ok(found) => self.check(&found)?,
            Err(e) if e.kind() == ErrorKind::NotFound => {}
            Err(e) => return Err(e),
        }
        let mut how = OpenOptions::new();
        how.write(true).create(true);
        let mut file = how.open(self.rt, path)?;
        let found = file.metadata()?;
        self.check(&found)?;
        self.remember(mark_of(&found))?;
        file.set_len(0)?;
        file.write_all(bytes)
    }

    /// Says on standard error, in one line, why a file of this name wasn't read or put.
    pub fn tell(&self, name: &[u8], why: &Error) {
        let program = self.program;
        let name = Shown(name);
        let _ = eprintln!(self.rt; "{program}: {name}: {why}");
    }

    // Refuses a file that may not be written to.
    fn check(&self, found: &Metadata) -> io::Result<()> {
        let Ok(opened) = self.opened.try_borrow() else {
            return Err(Error::other("the list of opened files is in use"));
        };
        match why_not(opened.as_slice(), found.is_file(), mark_of(found)) {
            None => Ok(()),
            Some(Refusal::NotPlain) => Err(not_plain()),
            Some(Refusal::Opened) => Err(Error::other("was read or written before in this run")),
        }
    }

    fn remember(&self, mark: FileMark) -> io::Result<()> {
        let Ok(mut opened) = self.opened.try_borrow_mut() else {
            return Err(Error::other("the list of opened files is in use"));
        };
        opened
            .try_push(mark)
            .map_err(|_| Error::other("too many files were opened"))
    }
}

// Why a file may not be written to, of which it is known whether it is plain and which it is.
fn why_not(opened: &[FileMark], is_plain: bool, mark: FileMark) -> Option<Refusal>
    ensures free { (result ≡ None) ↔ ((is_plain ≡ true) × ¬ (Contains opened.now mark)) }
    ensures opened { (result ≡ Some Refusal.Opened) → Contains opened.now mark }
{
    if !is_plain {
        return Some(Refusal::NotPlain);
    }
    if opened.contains(&mark) {
        return Some(Refusal::Opened);
    }
    None
}

// Refuses what is no plain file.
fn check_plain(found: &Metadata) -> io::Result<()> {
    if !found.is_file() {
        return Err(not_plain());
    }
    Ok(())
}

// What is said of a folder, a device, a pipe or a socket.
fn not_plain() -> Error {
    Error::other("is no plain file")
}

fn mark_of(found: &Metadata) -> FileMark {
    FileMark {
        device: found.dev(),
        inode: found.ino(),
    }
}

// A name as a path. The kit opens no path that isn't UTF-8.
fn path_of(name: &Text) -> io::Result<&str> {
    match str::from_utf8(name.as_slice()) {
        Ok(path) => Ok(path),
        Err(_) => Err(Error::new(ErrorKind::InvalidInput, "the name isn't UTF-8")),
    }
}

// A name as it is printed: in one line, whatever bytes it has.
#[derive(Drop)]
struct Shown<'a>(&'a [u8]);

impl Display for Shown<'_> {
    fn fmt<W: fmt::Write>(&self, f: &mut Formatter<W>) -> fmt::Result {
        let Ok(text) = str::from_utf8(self.0) else {
            return f.write_str("?");
        };
        for c in text.chars() {
            f.write_char(if c.is_control() { '?' } else { c })?;
        }
        Ok(())
    }
}

#[cfg(test)]
mod tests {
    use super::RealFiles;
    use crate::file_shelf::FileShelf;
    use crate::folder_tray::FolderTray;
    use crate::test_folder::TestFolder;
    use office_io::{PutFault, Tray, read_all};
    use std::fs;
    use std::os::unix;
    use std::test::Fail;

    // Names of the file that was read, of the one that was put, and of what is no plain file.
    const REFUSED: [&str; 11] = [
        "firms",
        "./firms",
        "inner/../firms",
        "hard",
        "link",
        "way/firms",
        "table",
        "way/table",
        "inner",
        "way",
        "device",
    ];

    // A folder with a file and other names of it, a link to a device, one to a file that isn't there, and an older file.
    fn folder_of_names(rt: &HostRuntime) -> Result<TestFolder, Fail> {
        let folder = TestFolder::make(rt, "opened")?;
        let firms = folder.path(rt, "firms")?;
        fs::write(rt, firms.as_str(), "held")?;
        fs::create_dir(rt, folder.path(rt, "inner")?.as_str())?;
        fs::hard_link(rt, firms.as_str(), folder.path(rt, "hard")?.as_str())?;
        unix::fs::symlink(rt, "firms", folder.path(rt, "link")?.as_str())?;
        make_other_links(rt, &folder)?;
        Ok(folder)
    }

    fn make_other_links(rt: &HostRuntime, folder: &TestFolder) -> Result<(), Fail> {
        unix::fs::symlink(rt, ".", folder.path(rt, "way")?.as_str())?;
        unix::fs::symlink(rt, "/dev/full", folder.path(rt, "device")?.as_str())?;
        unix::fs::symlink(rt, "new", folder.path(rt, "ahead")?.as_str())?;
        fs::write(rt, folder.path(rt, "older")?.as_str(), "of an earlier run")?;
        Ok(())
    }

    // Whether a file of the folder holds this.
    fn holds(rt: &HostRuntime, folder: &TestFolder, file: &str, want: &str) -> Result<bool, Fail> {
        let bytes = fs::read(rt, folder.path(rt, file)?.as_str())?;
        Ok(bytes.as_slice() == want.as_bytes())
    }

    // The fault of a put under this name.
    fn fault_of(
        rt: &HostRuntime,
        tray: &mut FolderTray<'_, HostRuntime>,
        folder: &TestFolder,
        file: &str,
        bytes: &str,
    ) -> Result<Option<PutFault>, Fail> {
        let name = folder.name(rt, file)?;
        Ok(tray.put(&name, bytes.as_bytes()).err())
    }

    // Whether a put under this name fails, and leaves the file that was read and the one that was put as they were.
    fn is_refused(
        rt: &HostRuntime,
        tray: &mut FolderTray<'_, HostRuntime>,
        folder: &TestFolder,
        file: &str,
    ) -> Result<bool, Fail> {
        let fault = fault_of(rt, tray, folder, file, "x")?;
        let is_kept = holds(rt, folder, "firms", "held")? && holds(rt, folder, "table", "first")?;
        Ok(fault == Some(PutFault::Failed) && is_kept)
    }

    // Whether all of these names are refused.
    fn are_refused(
        rt: &HostRuntime,
        tray: &mut FolderTray<'_, HostRuntime>,
        folder: &TestFolder,
    ) -> Result<bool, Fail> {
        for file in &REFUSED {
            if !is_refused(rt, tray, folder, file)? {
                return Ok(false);
            }
        }
        Ok(true)
    }

    #[test]
    fn no_opened_file_is_written_to(rt: HostRuntime) -> Result<(), Fail> {
        let folder = folder_of_names(&rt)?;
        let files = RealFiles::new(&rt, "argus");
        let mut shelf = FileShelf::new(&files);
        let mut tray = FolderTray::new(&files);
        let name = folder.name(&rt, "way/link")?;
        assert!(rt; read_all(rt.alloc(), &mut shelf, &name, 9).is_ok());
        assert_eq!(rt; fault_of(&rt, &mut tray, &folder, "table", "first")?, None);
        assert!(rt; are_refused(&rt, &mut tray, &folder)?);
        folder.remove(&rt)
    }

    // Whether none of these names is read: folders and devices.
    fn are_unread(
        rt: &HostRuntime,
        shelf: &mut FileShelf<'_, HostRuntime>,
        folder: &TestFolder,
    ) -> Result<bool, Fail> {
        for file in ["inner", "way", "device"] {
            let name = folder.name(rt, file)?;
            if read_all(rt.alloc(), shelf, &name, 9).is_ok() {
                return Ok(false);
            }
        }
        Ok(true)
    }

    #[test]
    fn no_other_files_are_read(rt: HostRuntime) -> Result<(), Fail> {
        let folder = folder_of_names(&rt)?;
        let files = RealFiles::new(&rt, "argus");
        let mut shelf = FileShelf::new(&files);
        assert!(rt; are_unread(&rt, &mut shelf, &folder)?);
        folder.remove(&rt)
    }

    // A file of an earlier run is replaced, and a link to a file that isn't there makes it, which is then one that was
    // put.
    #[test]
    fn other_files_are_written_to(rt: HostRuntime) -> Result<(), Fail> {
        let folder = folder_of_names(&rt)?;
        let files = RealFiles::new(&rt, "argus");
        let mut tray = FolderTray::new(&files);
        for (file, place) in [("older", "older"), ("ahead", "new")] {
            assert_eq!(rt; fault_of(&rt, &mut tray, &folder, file, "whole")?, None);
            assert!(rt; holds(&rt, &folder, place, "whole")?);
        }
        assert_eq!(rt;
            fault_of(&rt, &mut tray, &folder, "new", "x")?,
            Some(PutFault::Failed)
        );
        folder.remove(&rt)
    }
}
