ghost use Rattle.std.specs.Prelude.{◌≡◌, OnOk, IsErrOf};
ghost use Rattle.office_io.specs.Trays.{TrayState, HasPut, HasPutInPart, LeavesOthers};

use crate::faults::PutFault;
use sdc_base::Text;

/// A place to which whole files are written, each under a name.
///
/// A tray may tell what it holds; one over a real folder tells nothing. Either way it counts its
/// faults, so that no refusal comes without a cause.
pub trait Tray {
    // what the tray tells of its files and of its puts so far
    ghost state: { Self → TrayState };

    /// Makes the file of this name with these bytes, or replaces it.
    ///
    /// After `Failed` the file holds the first of the bytes, as many as were written, or none.
    /// After `Memory` nothing has changed. Files of other names stay, whatever the answer.
    fn put(&mut self, name: &Text, bytes: &[u8]) -> Result<(), PutFault>
        ensures put { OnOk result (HasPut name.now bytes.now (state self.old) (state self.new)) }
        ensures failed { IsErrOf result PutFault.Failed
            → HasPutInPart name.now bytes.now (state self.old) (state self.new) }
        ensures memory { IsErrOf result PutFault.Memory → state self.new ≡ state self.old }
        ensures others { LeavesOthers name.now (state self.old) (state self.new) };
}
