// Comparisons of products.
ghost use Rattle.std.specs.Prelude.{◌≡◌, ◌*ℤ◌, ◌<ℤ◌, FitsSigned, true};
ghost use Rattle.std.specs.Int.{w128};

// Whether a number is the product of two others.
pub(crate) fn is_product(number: i128, one: i128, other: i128) -> bool
    ensures { result ≡ true → number ≡ one *ℤ other }
{
    match one.checked_mul(other) {
        Some(product) => product == number,
        None => false,
    }
}

// Whether a number is below the product of two others.
pub(crate) fn is_below_product(number: i128, one: i128, other: i128) -> bool
    ensures { result ≡ true → number <ℤ (one *ℤ other) }
{
    match one.checked_mul(other) {
        Some(product) => number < product,
        None => false,
    }
}

// Whether the product of two numbers is held in 128 bits.
pub(crate) fn has_product(one: i128, other: i128) -> bool
    ensures { result ≡ true → FitsSigned w128 (one *ℤ other) }
{
    one.checked_mul(other).is_some()
}

// Whether two products are the same.
pub(crate) fn are_same_products(one: i128, other: i128, third: i128, fourth: i128) -> bool
    ensures { result ≡ true → one *ℤ other ≡ third *ℤ fourth }
{
    match one.checked_mul(other) {
        Some(product) => is_product(product, third, fourth),
        None => false,
    }
}
