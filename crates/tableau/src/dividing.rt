ghost use Rattle.std.specs.Prelude.{◌≡◌, map, pos, ◌*ℤ◌, ◌≤ℤ◌, unsigned_abs, IfOk};
ghost use Prim.Native.Nat.{◌∣◌};
ghost use Rattle.tableau.specs.Entries.{times_entry};
ghost use Rattle.tableau.specs.CommonDivisors.{DividesEach};

use sdc_base::{Items, Memory};
use std::alloc::Global;

// A number divided by one that divides it.
pub(crate) fn quotient(number: i128, by: i128) -> i128
    requires by { pos 1 ≤ℤ by }
    requires divides { unsigned_abs by ∣ unsigned_abs number }
    ensures { result *ℤ by ≡ number }
{
    if by == 1 {
        return number;
    }
    if let Ok(small) = i64::try_from(number) {
        if let Ok(small_by) = i64::try_from(by) {
            return small_quotient(small, small_by) as i128;
        }
    }
    number / by
}

// The same, of numbers of 64 bits.
fn small_quotient(number: i64, by: i64) -> i64
    requires by { pos 1 ≤ℤ by }
    requires divides { unsigned_abs by ∣ unsigned_abs number }
    ensures { result *ℤ by ≡ number }
{
    number / by
}

// The entries of a row divided by a number that divides them.
pub(crate) fn divided_row(
    alloc: Global,
    entries: &[(u32, i128)],
    by: i128,
) -> Result<Items<(u32, i128)>, Memory>
    requires by { pos 1 ≤ℤ by }
    requires divides { DividesEach (unsigned_abs by) entries.now }
    ensures { IfOk result (λ part. map (times_entry by) part ≡ entries.now) }
{
    let mut part = Vec::with_capacity(alloc, entries.len())?;
    for entry in entries {
        part.push((entry.0, quotient(entry.1, by)))?;
    }
    Ok(Items::new(part))
}
