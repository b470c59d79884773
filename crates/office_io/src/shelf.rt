ghost use Rattle.std.specs.Prelude.{◌≡◌, ◌<◌, length, OnOk, OnErr, IfOk, IsErrOf};
ghost use Rattle.office_io.specs.Shelves.{ShelfState, HasOnlyRead, HasBegun, HasChosen, HasFoundNone, HasNotLooked};
ghost use Rattle.office_io.specs.Shelves.{HasGiven, HasNotRead, HasReadOnce};

use crate::faults::{BeginFault, Failed};
use sdc_base::Text;

/// A place from which named files are read, one after another.
///
/// One file is chosen at a time, by `begin`, and `read` gives its bytes from front to end. A shelf
/// may tell what its files hold; one over real files tells nothing. Either way it counts its
/// faults and the files that it did not find, so that no refusal comes without a cause.
pub trait Shelf {
    // what the shelf tells of its files and of its calls so far
    ghost state: { Self → ShelfState };

    /// Chooses the file of this name, to be read from its first byte.
    ///
    /// `Absent` says that no file has the name, and `Failed` that the shelf could not look. After
    /// either nothing is chosen, and the next read finds no byte. The files stay as they are.
    fn begin(&mut self, name: &Text) -> Result<(), BeginFault>
        ensures chosen { OnOk result (HasChosen name.now (state self.old) (state self.new)) }
        ensures absent { IsErrOf result BeginFault.Absent → HasFoundNone name.now (state self.old) (state self.new) }
        ensures failed { IsErrOf result BeginFault.Failed → HasNotLooked (state self.old) (state self.new) }
        ensures begun { HasBegun name.now (state self.old) (state self.new) }
        ensures only_read { HasOnlyRead (state self.old) (state self.new) };

    /// Puts the next bytes of the chosen file at the buffer's front, and answers how many.
    ///
    /// The buffer must not be empty. `Ok(0)` is the end of the file; any other number may be less
    /// than the buffer's length, also before the end. Nothing is said of the rest of the buffer,
    /// nor of the buffer after `Failed`. After `Failed` it is unknown what is left, until the
    /// next `begin`. The files stay as they are.
    fn read(&mut self, buffer: &mut [u8]) -> Result<usize, Failed>
        requires { 0 < length buffer.old }
        ensures given { IfOk result (λ n. HasGiven n buffer.old buffer.new (state self.old) (state self.new)) }
        ensures failed { OnErr result (HasNotRead (state self.old) (state self.new)) }
        ensures once { HasReadOnce (state self.old) (state self.new) }
        ensures only_read { HasOnlyRead (state self.old) (state self.new) };
}
