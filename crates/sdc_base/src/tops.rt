ghost use Rattle.std.specs.Prelude.{◌≡◌, ◌≤◌, ◌<◌, ◌*◌, ◌^◌, ◌++◌, ◌∷◌, [], List, ℕ, min, take, length, insert, ℤ, pos, neg_ℤ, ◌*ℤ◌, ◌≤ℤ◌};
ghost use Rattle.sdc_base.specs.Largest.{with_contribution, first_steps, largest_sum, contribution, AreHeavy};
ghost use Rattle.sdc_base.specs.declared.tops.Unit.{Unit as Contribution};

use crate::few::Few;

/// What a record contributes to a cell: its value in units, and its weight in steps.
#[derive(Clone, Copy, Default)]
pub struct Unit {
    pub value: i64,
    pub weight: u32,
}

/// A list that tells the largest of all contributions that it was offered.
pub trait TopList {
    /// Up to how many it tells.
    ghost keep: { Self → ℕ };

    /// How many weight steps make a whole contribution.
    ghost scale: { Self → ℕ };

    /// It was offered these, and tells their largest.
    ghost tells: { Self → List Contribution → Type 0 };

    /// Takes one more contribution, of a value in units and a weight in steps, which is at least the scale.
    fn offer(&mut self, value: i64, weight: u32)
        requires { scale self.old ≤ weight }
        ensures keep { keep self.new ≡ keep self.old }
        ensures scale { scale self.new ≡ scale self.old }
        ensures tells { (units : List Contribution) → tells self.old units
            → tells self.new (units ++ contribution value weight ∷ []) };

    /// The sum of value times weight over the n largest of those that were offered, with n at most the number that it
    /// tells.
    fn top(&self, n: u8) -> i128
        requires { n ≤ keep self.now }
        ensures { (units : List Contribution) → tells self.now units → result ≡ largest_sum (scale self.now) n units };
}

/// The largest contributions of a cell by value, as many as it keeps. They are enough for the sums over
/// the n largest, up to as many: which of several of equal value it keeps changes none of these sums.
#[derive(Drop)]
pub struct Tops {
    pub keep: u8,
    pub scale: u32,
    pub list: Few<Unit, 10>,
    ghost at_least_two: { 2 ≤ keep },
    ghost at_most_ten: { keep ≤ 10 },
    ghost scale_from_one: { 1 ≤ scale },
    ghost scale_at_most_10000: { scale ≤ 10000 },
    ghost at_most_keep: { length list ≤ keep },
    ghost heavy: { AreHeavy scale list },
}

impl Tops {
    ghost use Rattle.sdc_base.specs.LargestKept.{KeepsLargest};
    ghost use Rattle.sdc_base.specs.RuleLevels.{kept_largest};

    /// None is offered yet. It keeps from 2 to 10, and `scale` weight steps make a whole one.
    pub fn new(keep: u8, scale: u32) -> Tops
        requires at_least_two { 2 ≤ keep }
        requires at_most_ten { keep ≤ 10 }
        requires scale_from_one { 1 ≤ scale }
        requires scale_at_most_10000 { scale ≤ 10000 }
        ensures keep { result.keep ≡ keep }
        ensures scale { result.scale ≡ scale }
        ensures tells { KeepsLargest result [] }
        ensures empty { result.list ≡ [] }
    {
        Tops {
            keep,
            scale,
            list: Few::empty(),
        }
    }

    /// The same list.
    pub fn copy(&self) -> Tops
        ensures keep { result.keep ≡ self.now.keep }
        ensures scale { result.scale ≡ self.now.scale }
        ensures list { result.list ≡ self.now.list }
    {
        Tops {
            keep: self.keep,
            scale: self.scale,
            list: self.list.copy(),
        }
    }

    /// Takes what another list was offered, which keeps as many and at no lower scale.
    pub fn join(&mut self, other: &Tops)
        requires keep { self.old.keep ≤ other.now.keep }
        requires scale { self.old.scale ≤ other.now.scale }
        ensures keep { self.new.keep ≡ self.old.keep }
        ensures scale { self.new.scale ≡ self.old.scale }
        ensures tells { (units more : List Contribution) → KeepsLargest self.old units → KeepsLargest other.now more
            → KeepsLargest self.new (units ++ more) }
    {
        'units: for unit in other.list.as_slice() {
            self.put(*unit);
        }
    }

    // Puts one more contribution in its place, and keeps the first ones.
    fn put(&mut self, new: Unit)
        requires { self.old.scale ≤ new.weight }
        ensures keep { self.new.keep ≡ self.old.keep }
        ensures scale { self.new.scale ≡ self.old.scale }
        ensures list { self.new.list ≡ take self.old.keep (with_contribution self.old.list new) }
    {
        put_in(&mut self.list, self.keep as usize, new);
    }

    /// The sum of value times weight over the n largest contributions that it keeps, where `scale` weight steps make a
    /// whole one. It is that over all that were offered for up to `keep` of them.
    ///
    /// At most 10 can be asked for. It takes no memory, and looks at each contribution once.
    pub fn sum_of_largest(&self, n: u8) -> i128
        requires { n ≤ 10 }
        ensures value { result ≡ kept_largest self.now n }
        ensures low { neg_ℤ (pos (2 ^ 80)) ≤ℤ result }
        ensures high { result ≤ℤ pos (2 ^ 80) }
    {
        over_first_steps(self.list.as_slice(), steps_of(n, self.scale))
    }
}

impl TopList for Tops {
    ghost use Rattle.std.specs.Prelude.{◌≡◌, ◌≤◌, ◌++◌, ◌∷◌, []};
    ghost use Rattle.sdc_base.specs.Largest.{contribution, largest_sum};
    ghost use Rattle.sdc_base.specs.LargestKept.{KeepsLargest};

    ghost keep = { λ tops. tops.keep };

    ghost scale = { λ tops. tops.scale };

    ghost tells = { KeepsLargest };

    fn offer(&mut self, value: i64, weight: u32) {
        self.put(Unit { value, weight });
    }

    fn top(&self, n: u8) -> i128 {
        self.sum_of_largest(n)
    }
}

// Puts a contribution behind all that have at least its value, and keeps the first ones.
fn put_in(list: &mut Few<Unit, 10>, keep: usize, new: Unit)
    requires keep { 1 ≤ keep }
    requires most { keep ≤ 10 }
    requires at_most_keep { length list.old ≤ keep }
    ensures { list.new ≡ take keep (with_contribution list.old new) }
{
    let at = unit_place(list.as_slice(), new);
    if at < keep {
        list.truncate(keep - 1);
        list.insert(at, new);
    }
}

// How many stand before the first that has a lower value.
fn unit_place(units: &[Unit], new: Unit) -> usize
    ensures place { insert units.now result new ≡ with_contribution units.now new }
    ensures within { result ≤ length units.now }
{
    for (i, unit) in units.iter().enumerate() {
        if unit.value < new.value {
            return i;
        }
    }
    units.len()
}

// The weight steps of so many whole contributions.
fn steps_of(n: u8, scale: u32) -> u64
    requires at_most_10 { n ≤ 10 }
    requires scale_at_most_10000 { scale ≤ 10000 }
    ensures value { result ≡ n * scale }
    ensures at_most { result ≤ 2 ^ 17 }
{
    u64::from(n) * u64::from(scale)
}

// Value times weight over the first steps.
fn over_first_steps(units: &[Unit], steps: u64) -> i128
    requires { steps ≤ 2 ^ 17 }
    ensures value { result ≡ first_steps steps units.now }
    ensures low { neg_ℤ (pos (2 ^ 80)) ≤ℤ result }
    ensures high { result ≤ℤ pos (2 ^ 80) }
{
    let mut left = steps;
    let mut sum = 0;
    for unit in units {
        sum += part_of(*unit, left);
        left = left.saturating_sub(u64::from(unit.weight));
    }
    sum
}

// What one contribution adds while so many steps are left.
fn part_of(unit: Unit, left: u64) -> i128
    ensures value { result ≡ pos (min unit.weight left) *ℤ unit.value }
    ensures low { neg_ℤ (pos (2 ^ 63 * min unit.weight left)) ≤ℤ result }
    ensures high { result ≤ℤ pos (2 ^ 63 * min unit.weight left) }
{
    i128::from(left.min(u64::from(unit.weight))) * i128::from(unit.value)
}
