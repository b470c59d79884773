ghost use Rattle.std.specs.Prelude.{◌≡◌, ◌∷◌, [], Some};
ghost use Rattle.sdc_base.specs.CubeOrder as spec;
ghost use Rattle.hypercube.specs.Branches as branches;

use sdc_base::{Corner, Items};

/// Corners with what it costs to hide them.
pub(crate) type Offer = (u128, Items<Corner>);

/// The better of the best offer so far and another.
pub(crate) fn better_of(best: Option<Offer>, new: Offer) -> Offer
    ensures { Some result ≡ spec.better spec.comes_before best new }
{
    let Some(old) = best else {
        return new;
    };
    if comes_before(&new, &old) {
        return new;
    }
    old
}

/// Whether a price is above that of the best offer so far.
pub(crate) fn costs_more(price: u128, best: &Option<Offer>) -> bool
    ensures { result ≡ branches.costs_more best.now price }
{
    match best {
        Some(offer) => offer.0 < price,
        None => false,
    }
}

// Whether an offer costs less, or as much and has the lower numbers.
fn comes_before(one: &Offer, other: &Offer) -> bool
    ensures { result ≡ spec.comes_before one.now other.now }
{
    one.0 < other.0 || (one.0 == other.0 && is_lower(one.1.as_slice(), other.1.as_slice()))
}

// Whether the numbers are lower at the first place where they differ.
fn is_lower(ones: &[Corner], others: &[Corner]) -> bool
    ensures { result ≡ spec.is_lower ones.now others.now }
{
    for (k, one) in ones.iter().enumerate() {
        if k >= others.len() {
            return false;
        }
        if one.cell != others[k].cell {
            return one.cell < others[k].cell;
        }
    }
    ones.len() < others.len()
}
