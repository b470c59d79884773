ghost use Rattle.std.specs.Prelude.{◌≡◌, ℕ, ◌+◌, ◌<◌, ◌≤◌, length, pos, ◌≤ℤ◌, unsigned_abs, true, IfSome, IfNone};
ghost use Prim.Native.Nat.{◌∣◌};
ghost use Rattle.tableau.specs.CommonDivisors.{IsLeastMultiple};
ghost use Rattle.tableau.specs.OwnRows.{DensDivide, IsDenOf, AreWithDens};
ghost use Rattle.tableau.specs.NewRows.{placed_list, placed_lists};
ghost use Rattle.tableau.specs.Widths.{is_wide};

use crate::common_divisor::gcd;
use crate::dividing::quotient;
use crate::products::narrow_product;
use crate::sparse_rows::den_of;
use sdc_base::Items;

// The list of a row after an exchange: the one that is made, or where none is, the old one.
pub(crate) fn placed<'a>(
    own: &'a Items<(u32, i128)>,
    new: &'a Option<Items<(u32, i128)>>,
) -> &'a [(u32, i128)]
    ensures { result.now ≡ placed_list own.now new.now }
{
    match new {
        Some(made) => made.as_slice(),
        None => own.as_slice(),
    }
}

// The least number that two numbers divide, none where it is wide.
fn common_multiple(one: i128, other: i128) -> Option<i128>
    requires one { pos 1 ≤ℤ one }
    requires other { pos 1 ≤ℤ other }
    ensures above { IfSome result (λ least. pos 1 ≤ℤ least) }
    ensures least { IfSome result (λ least. IsLeastMultiple (unsigned_abs one) (unsigned_abs other) (unsigned_abs least)) }
    ensures none { IfNone result ((m : ℕ) → 0 < m → unsigned_abs one ∣ m → unsigned_abs other ∣ m → is_wide (pos m) ≡ true) }
{
    if other == 1 {
        return Some(one);
    }
    let common = gcd(one.unsigned_abs(), other.unsigned_abs());
    let part = quotient(one, common as i128);
    let Some(least) = narrow_product(part, other) else {
        return None;
    };
    Some(least)
}

// The least number that the dens of all rows after an exchange divide, none where it is wide.
pub(crate) fn rows_den(
    olds: &[Items<(u32, i128)>],
    news: &[Option<Items<(u32, i128)>>],
    width: u32,
) -> Option<i128>
    requires long { length news.now ≤ length olds.now }
    requires dens { AreWithDens width (placed_lists olds.now news.now) }
    ensures least { IfSome result (λ den. IsDenOf width (placed_lists olds.now news.now) den) }
    ensures none { IfNone result ((m : ℕ) → 0 < m → DensDivide width (placed_lists olds.now news.now) m
        → is_wide (pos m) ≡ true) }
{
    let mut den = 1;
    for (k, new) in news.iter().enumerate() {
        let own = den_of(placed(&olds[k], new), width);
        let Some(least) = common_multiple(den, own) else {
            return None;
        };
        den = least;
    }
    Some(den)
}
