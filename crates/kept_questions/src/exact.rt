ghost use Rattle.std.specs.Prelude.{◌≡◌, ◌+ℤ◌, ◌*ℤ◌, neg_ℤ, IfOk};

use crate::unfit::Unfit;

// A product within 128 bits.
pub(crate) fn product(one: i128, other: i128) -> Result<i128, Unfit>
    ensures { IfOk result (λ exact. exact ≡ one *ℤ other) }
{
    match one.checked_mul(other) {
        Some(exact) => Ok(exact),
        None => Err(Unfit),
    }
}

// A sum within 128 bits.
pub(crate) fn sum(one: i128, other: i128) -> Result<i128, Unfit>
    ensures { IfOk result (λ exact. exact ≡ one +ℤ other) }
{
    match one.checked_add(other) {
        Some(exact) => Ok(exact),
        None => Err(Unfit),
    }
}

// An opposite within 128 bits.
pub(crate) fn opposite(one: i128) -> Result<i128, Unfit>
    ensures { IfOk result (λ exact. exact ≡ neg_ℤ one) }
{
    match one.checked_neg() {
        Some(exact) => Ok(exact),
        None => Err(Unfit),
    }
}
