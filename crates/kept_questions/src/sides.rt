ghost use Rattle.std.specs.Prelude.{◌≡◌, ℕ, pos, ◌+◌, ◌-ℤ◌, ◌*ℤ◌, ◌≤ℤ◌, IfOk, OnOk};
ghost use Rattle.sdc_base.specs.Forms.{coefficient};
ghost use Rattle.tableau.specs.OptimalPairs.{IsNotBelowZeros};
ghost use Rattle.kept_questions.specs.TermLists.{bound_at};

use crate::exact::{opposite, product};
use crate::terms::{check_not_below, check_zeros, gathered, push_term, push_times};
use crate::unfit::Unfit;
use std::alloc::Global;

// How far a row lets its move go: its bound, and at its own place a small amount, both over the den.
#[derive(Clone, Copy)]
pub(crate) struct Limit {
    pub(crate) bound: i128,
    pub(crate) own: u32,
    pub(crate) den: i128,
}

// That a list, so many times, isn't past a limit, and that it is at the limit where there is pressure against it.
pub(crate) fn check_side(
    alloc: Global,
    list: &[(u32, i128)],
    times: i128,
    limit: Limit,
    pressure: i128,
) -> Result<(), Unfit>
    ensures within { OnOk result ((size : ℕ) → IsNotBelowZeros size
        (λ place. limit.den *ℤ bound_at limit.bound limit.own place -ℤ times *ℤ coefficient list.now place)) }
    ensures stands { OnOk result (pos 1 ≤ℤ pressure → (place : ℕ)
        → times *ℤ coefficient list.now place ≡ limit.den *ℤ bound_at limit.bound limit.own place) }
{
    let gap = gap_of(alloc, list, times, limit)?;
    let terms = gap.as_slice();
    check_not_below(terms)?;
    check_pressure(terms, pressure)?;
    Ok(())
}

// That all numbers are 0 where there is pressure.
fn check_pressure(terms: &[(u32, i128)], pressure: i128) -> Result<(), Unfit>
    ensures { OnOk result (pos 1 ≤ℤ pressure → (place : ℕ) → coefficient terms.now place ≡ pos 0) }
{
    if pressure < 1 {
        return Ok(());
    }
    check_zeros(terms)?;
    Ok(())
}

// A limit less a list, so many times.
fn gap_of(
    alloc: Global,
    list: &[(u32, i128)],
    times: i128,
    limit: Limit,
) -> Result<Vec<(u32, i128)>, Unfit>
    ensures { IfOk result (λ gap. (place : ℕ) → coefficient gap.items place
        ≡ limit.den *ℤ bound_at limit.bound limit.own place -ℤ times *ℤ coefficient list.now place) }
{
    let mut terms = Vec::new(alloc);
    let far = product(limit.den, limit.bound)?;
    push_term(&mut terms, 0, far)?;
    let own = place_after(limit.own)?;
    push_term(&mut terms, own, limit.den)?;
    let less = opposite(times)?;
    push_times(&mut terms, list, less)?;
    let gap = gathered(alloc, terms)?;
    Ok(gap)
}

// The place after another.
pub(crate) fn place_after(place: u32) -> Result<u32, Unfit>
    ensures { IfOk result (λ next. next ≡ place + 1) }
{
    match place.checked_add(1) {
        Some(next) => Ok(next),
        None => Err(Unfit),
    }
}
