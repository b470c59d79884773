ghost use Rattle.std.specs.Prelude.{◌≡◌, []};
ghost use Rattle.office_io.specs.Files.{file_of};
ghost use Rattle.office_io.specs.Memory.{shelf_failing, tray_failing};
ghost use Rattle.demo_files.specs.SteadyFiles.{shelf_with, empty_tray};

use office_io::{BeginFault, Failed, MemoryShelf, MemoryTray, PutFault, Shelf, Tray};
use sdc_base::Text;
use std::alloc::Global;

/// A shelf in memory that never fails. It tells its files.
#[derive(Drop)]
pub struct SteadyShelf {
    shelf: MemoryShelf,
    ghost never: { shelf_failing shelf ≡ [] },
}

impl SteadyShelf {
    /// A shelf of these files, each a name and its bytes, from which no file is chosen yet.
    pub fn new(alloc: Global, files: Vec<(Text, Vec<u8>)>) -> SteadyShelf
        ensures { ⟦<SteadyShelf as Shelf>⟧.state result ≡ shelf_with (file_of files.items) }
    {
        SteadyShelf {
            shelf: MemoryShelf::new(files, Vec::new(alloc), 65_536),
        }
    }
}

impl Shelf for SteadyShelf {
    ghost use Rattle.office_io.specs.Memory.{shelf_state};

    // all that its shelf in memory tells, without a fault
    ghost state = { λ s. record (shelf_state s.shelf) { faults = 0 } };

    fn begin(&mut self, name: &Text) -> Result<(), BeginFault> {
        self.shelf.begin(name)
    }

    fn read(&mut self, buffer: &mut [u8]) -> Result<usize, Failed> {
        self.shelf.read(buffer)
    }
}

/// A tray in memory that never fails. It tells its files.
#[derive(Drop)]
pub struct SteadyTray {
    tray: MemoryTray,
    ghost never: { tray_failing tray ≡ [] },
}

impl SteadyTray {
    /// An empty tray.
    pub fn new(alloc: Global) -> SteadyTray
        ensures { ⟦<SteadyTray as Tray>⟧.state result ≡ empty_tray }
    {
        SteadyTray {
            tray: MemoryTray::new(alloc, Vec::new(alloc)),
        }
    }
}

impl Tray for SteadyTray {
    ghost use Rattle.office_io.specs.Memory.{tray_state};

    // all that its tray in memory tells, without a fault
    ghost state = { λ t. record (tray_state t.tray) { faults = 0 } };

    fn put(&mut self, name: &Text, bytes: &[u8]) -> Result<(), PutFault> {
        self.tray.put(name, bytes)
    }
}
