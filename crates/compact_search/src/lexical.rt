// The lexicographic order of lists of amounts.
use crate::amounts::Amount;

// A list of amounts over a number, 1 or more.
#[derive(Clone, Copy)]
pub(crate) struct Over<'a> {
    pub(crate) amounts: &'a [Amount],
    pub(crate) per: i64,
}

// How many amounts of each list are passed.
#[derive(Clone, Copy)]
struct Passed {
    one: usize,
    other: usize,
}

// Whether a list comes before another: at the first bound where they differ it is less.
pub(crate) fn comes_before(one: Over<'_>, other: Over<'_>) -> bool {
    let mut passed = Passed { one: 0, other: 0 };
    let most = one.amounts.len().saturating_add(other.amounts.len());
    'bounds: for _ in 0..most {
        let (left, right) = next_numbers(one, other, &mut passed);
        let own = i128::from(left).wrapping_mul(i128::from(other.per));
        let others = i128::from(right).wrapping_mul(i128::from(one.per));
        if own != others {
            return own < others;
        }
    }
    false
}

// The numbers of both at the next bound of either.
fn next_numbers(one: Over<'_>, other: Over<'_>, passed: &mut Passed) -> (i64, i64) {
    let left = amount_at(one.amounts, passed.one);
    let right = amount_at(other.amounts, passed.other);
    let mut numbers = (0, 0);
    if left.bound <= right.bound {
        numbers.0 = left.number;
        passed.one = passed.one.saturating_add(1);
    }
    if right.bound <= left.bound {
        numbers.1 = right.number;
        passed.other = passed.other.saturating_add(1);
    }
    numbers
}

// The amount at a place; behind the list 0 at a bound behind all.
fn amount_at(amounts: &[Amount], place: usize) -> Amount {
    match amounts.get(place) {
        Some(amount) => *amount,
        None => Amount {
            bound: usize::MAX,
            number: 0,
        },
    }
}
