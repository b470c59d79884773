ghost use Rattle.std.specs.Prelude.{◌≡◌, ◌≢◌, ℕ, List, ◌/◌, take, length, true, false, IsErrOf, Some, None, option_map, OnOk, OnErr, IfErr};
ghost use Rattle.sdc_base.specs.Counts.{count_after};
ghost use Rattle.sdc_base.specs.WhereTold.{WhereTold};
ghost use Rattle.office_io.specs.Files.{file_of, files_after_put};
ghost use Rattle.office_io.specs.Memory.{is_due, tray_state, tray_failing};
ghost use Rattle.office_io.specs.Trays.{HasPut, HasPutInPart, LeavesOthers};

use crate::faults::PutFault;
use crate::tray::Tray;
use sdc_base::Text;
use std::alloc::Global;
use std::collections::VecDeque;

/// A tray in memory, which fails at the puts that it is told. It tells its files.
///
/// Puts are counted from 1, without those that found no memory, and a put fails exactly where its
/// number is among the failing ones, want of memory aside. It then keeps the first half of the bytes,
/// rounded down, and counts one fault; no other put counts one. The bytes of a file that is replaced
/// stay in memory as long as the tray.
#[derive(Drop)]
pub struct MemoryTray {
    alloc: Global,
    // the newest first
    files: VecDeque<(Text, Vec<u8>)>,
    failing: Vec<u64>,
    puts: u64,
    faults: u64,
}

impl MemoryTray {
    /// An empty tray, whose puts fail whose numbers stand in `failing`, in any order.
    ///
    /// It takes no memory now, and keeps the allocator for its files.
    pub fn new(alloc: Global, failing: Vec<u64>) -> MemoryTray
        ensures empty { ⟦<MemoryTray as Tray>⟧.state result
            ≡ record { files = Some (λ _. None); puts = 0; faults = 0 } }
        ensures failing { tray_failing result ≡ failing.items }
    {
        MemoryTray {
            alloc,
            files: VecDeque::new(alloc),
            failing,
            puts: 0,
            faults: 0,
        }
    }

    /// The bytes of the file of this name, lent, or none where it is not held. It goes through all puts
    /// from the last one on, until it finds the name.
    pub fn file(&self, name: &Text) -> Option<&[u8]>
        ensures { WhereTold (⟦<MemoryTray as Tray>⟧.state self.now).files
            (λ fs. option_map (λ bytes. bytes.now) result ≡ fs name.now) }
    {
        for (held, bytes) in &self.files {
            if held.equals(name) {
                return Some(bytes.as_slice());
            }
        }
        None
    }

    // The tray with this file made or replaced, under no count of faults.
    #[tactic(auto, using(crate::proofs::Puts::put_other))]
    fn keep(&mut self, name: &Text, bytes: &[u8]) -> Result<(), PutFault>
        ensures ok { OnOk result (file_of self.new.files.items
            ≡ files_after_put (file_of self.old.files.items) name.now bytes.now) }
        ensures err { IfErr result (λ e. e ≡ PutFault.Memory) }
        ensures same { OnErr result (file_of self.new.files.items ≡ file_of self.old.files.items) }
        ensures others { (other : List ℕ) → other ≢ name.now
            → file_of self.new.files.items other ≡ file_of self.old.files.items other }
        ensures rest { self.new ≡ record self.old { files = self.new.files } }
    {
        let Ok(name) = name.copy(self.alloc) else {
            return Err(PutFault::Memory);
        };
        let Ok(bytes) = Vec::from_slice(self.alloc, bytes) else {
            return Err(PutFault::Memory);
        };
        if self.files.push_front((name, bytes)).is_err() {
            return Err(PutFault::Memory);
        }
        Ok(())
    }
}

impl Tray for MemoryTray {
    ghost use Rattle.std.specs.Prelude.{Some};
    ghost use Rattle.office_io.specs.Files.{file_of};

    ghost state = { λ s. record { files = Some (file_of s.files.items); puts = s.puts; faults = s.faults } };

    fn put(&mut self, name: &Text, bytes: &[u8]) -> Result<(), PutFault>
        ensures put { OnOk result (HasPut name.now bytes.now (tray_state self.old) (tray_state self.new)) }
        ensures failed { IsErrOf result PutFault.Failed
            → HasPutInPart name.now bytes.now (tray_state self.old) (tray_state self.new) }
        ensures memory { IsErrOf result PutFault.Memory → tray_state self.new ≡ tray_state self.old }
        ensures others { LeavesOthers name.now (tray_state self.old) (tray_state self.new) }
        ensures due { OnOk result (is_due (tray_failing self.old) (tray_state self.old).puts ≡ false) }
        ensures not_due { IsErrOf result PutFault.Failed
            → is_due (tray_failing self.old) (tray_state self.old).puts ≡ true }
        ensures half { IsErrOf result PutFault.Failed
            → HasPut name.now (take (length bytes.now / 2) bytes.now) (tray_state self.old) (tray_state self.new) }
        ensures failing { tray_failing self.new ≡ tray_failing self.old }
        ensures one_fault { IsErrOf result PutFault.Failed
            → (tray_state self.new).faults ≡ count_after (tray_state self.old).faults 1 }
        ensures faults_stay { OnOk result ((tray_state self.new).faults ≡ (tray_state self.old).faults) }
    {
        let number = self.puts.saturating_add(1);
        if self.failing.contains(&number) {
            self.keep(name, &bytes[..bytes.len() / 2])?;
            self.puts = number;
            self.faults = self.faults.saturating_add(1);
            return Err(PutFault::Failed);
        }
        self.keep(name, bytes)?;
        self.puts = number;
        Ok(())
    }
}
