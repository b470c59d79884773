ghost use Rattle.std.specs.Prelude.{◌≡◌, ℕ, ◌+◌, map, pos, ◌≤ℤ◌, ◌*ℤ◌, IfOk};
ghost use Rattle.tableau.specs.Entries.{IsSparse, times_entry};
ghost use Rattle.tableau.specs.OwnRows.{own_den, IsLowest};
ghost use Rattle.tableau.specs.NewRows.{IsLowestOf};

use crate::dividing::divided_row;
use crate::divisor::row_divisor;
use crate::sparse_rows::den_of;
use sdc_base::{Items, Memory};
use std::alloc::Global;

// A row of so many numbers in lowest terms.
pub(crate) fn lowest_row(
    alloc: Global,
    made: Items<(u32, i128)>,
    width: u32,
) -> Result<Items<(u32, i128)>, Memory>
    requires sparse { IsSparse 0 (width + 1) made }
    requires above { pos 1 ≤ℤ own_den width made }
    ensures { IfOk result (λ row. IsLowestOf width made row) }
{
    let den = den_of(made.as_slice(), width);
    let by = row_divisor(den.unsigned_abs(), made.as_slice());
    if by == 1 {
        return Ok(made);
    }
    match divided_row(alloc, made.as_slice(), by as i128) {
        Ok(row) => Ok(row),
        Err(_) => Err(Memory),
    }
}
