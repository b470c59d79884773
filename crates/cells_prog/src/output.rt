ghost use Rattle.std.specs.Prelude.{OnErr, OnOk};
ghost use Rattle.cells_prog.specs.Outputs.{HasRefused, HasWritten, OutputState};

/// An output took no more bytes.
#[derive(Clone, Copy, Debug, PartialEq, Eq)]
pub struct Refused;

/// A place to which bytes are written, one write behind another.
///
/// An output may tell what was written to it; the standard output tells nothing. Either way it counts its refusals, so
/// that no fault in writing comes without a cause.
pub trait Output {
    // what the output tells of what was written to it
    ghost state: { Self → OutputState };

    /// Writes these bytes. After `Refused` the first of them were written, or none.
    fn write(&mut self, bytes: &[u8]) -> Result<(), Refused>
        ensures written { OnOk result (HasWritten bytes.now (state self.old) (state self.new)) }
        ensures refused { OnErr result (HasRefused bytes.now (state self.old) (state self.new)) };
}

/// The standard output.
///
/// It is a trusted edge: it tells nothing of what was written, since no proof sees the system. It counts its writes and
/// its refusals, and each count stands still at its last value.
#[derive(Drop)]
pub struct StandardOutput<'a, R> {
    rt: &'a R,
    writes: u64,
    refusals: u64,
}

impl<'a, R: Print> StandardOutput<'a, R> {
    /// The output to which nothing was written yet.
    pub fn new(rt: &'a R) -> Self {
        StandardOutput {
            rt,
            writes: 0,
            refusals: 0,
        }
    }
}

impl<'a, R: Print> Output for StandardOutput<'a, R> {
    ghost use Rattle.std.specs.Prelude.{None};

    ghost state = { λ s. record { written = None; writes = s.writes; refusals = s.refusals } };

    fn write(&mut self, bytes: &[u8]) -> Result<(), Refused> {
        self.writes = self.writes.saturating_add(1);
        match self.rt.write_all(bytes) {
            Ok(()) => Ok(()),
            Err(_) => {
                self.refusals = self.refusals.saturating_add(1);
                Err(Refused)
            }
        }
    }
}
