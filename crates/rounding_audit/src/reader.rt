ghost use Rattle.std.specs.Prelude.{◌≡◌, ◌≤ℤ◌, ◌^◌, pos, length, All};
ghost use Rattle.sdc_base.specs.Patterns.{IsPattern};
ghost use Rattle.rounding_audit.specs.Readers.{AreReaderCells, all_hidden};

use interval_audit::SignedSystem;
use sdc_base::{Cell, Hidden};

// A rounded release by its system, whose signs are known, its cells, the values that it shows and its base, with the
// cells as its reader knows them, and the set in which all cells are hidden.
#[derive(Drop)]
pub(crate) struct Reader<'a> {
    pub system: &'a SignedSystem<'a>,
    pub cells: &'a [Cell],
    pub values: &'a [i128],
    pub base: i128,
    pub known: &'a [Cell],
    pub hidden: &'a Hidden,
    ghost each_cell: { length cells.now ≡ system.now.cells },
    ghost known_are: { AreReaderCells cells.now values.now base known.now },
    ghost flags: { hidden.now.flags ≡ all_hidden system.now.cells },
    ghost ground: { IsPattern system.now known.now hidden.now.flags },
    ghost truths: { All (λ cell. cell.truth ≤ℤ pos (10 ^ 29)) known.now },
}
