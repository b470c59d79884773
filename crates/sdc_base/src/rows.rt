ghost use Rattle.std.specs.Prelude.{◌≡◌, ◌^◌, pos, neg_ℤ, ◌≤ℤ◌};
ghost use Rattle.sdc_base.specs.Sums.{weighted_value};

use crate::few::Place;

/// A record: its code's place in the tree of each variable, its value in units, and its weight in
/// steps.
#[derive(Drop)]
pub struct Row {
    pub codes: Place,
    pub value: i64,
    pub weight: u32,
}

/// Weight times value of a record, in weight steps times units. It is less than `2^95` in size, so nothing is refused.
/// Weighted sums are the handbook's, weight steps argus's own.
pub fn weighted_value(row: &Row) -> i128
    ensures value { result ≡ weighted_value row.now }
    ensures low { neg_ℤ (pos (2 ^ 95)) ≤ℤ result }
    ensures high { result ≤ℤ pos (2 ^ 95) }
{
    i128::from(row.weight) * i128::from(row.value)
}
