// Greatest common divisors.

// No two numbers of 128 bits have more divisions with rest until they have none.
const MOST_DIVISIONS: u32 = 200;

// The greatest number that divides both; 0 where both are 0.
pub(crate) fn divisor_of(one: u64, other: u64) -> u64 {
    let mut left = one;
    let mut right = other;
    'divisions: for _ in 0..MOST_DIVISIONS {
        if right == 0 {
            return left;
        }
        let rest = left % right;
        left = right;
        right = rest;
    }
    1
}

// The same for numbers of 128 bits by their sizes; none where it leaves them.
pub(crate) fn wide_divisor_of(one: i128, other: i128) -> Option<i128> {
    if let (Ok(left), Ok(right)) = (i64::try_from(one), i64::try_from(other)) {
        let common = divisor_of(left.unsigned_abs(), right.unsigned_abs());
        return Some(i128::from(common));
    }
    let mut left = one.checked_abs()?;
    let mut right = other.checked_abs()?;
    'divisions: for _ in 0..MOST_DIVISIONS {
        if right == 0 {
            return Some(left);
        }
        let rest = left.checked_rem(right)?;
        left = right;
        right = rest;
    }
    None
}
