ghost use Rattle.std.specs.Prelude.{◌≡◌, ◌≢◌, ◌≤ℤ◌, pos};
ghost use Rattle.std.specs.Option.{ForSome};
ghost use Rattle.sdc_base.specs.declared.cell.Kind.TheVariants.{Primary};

/// What a cell is to its protection.
#[derive(Clone, Copy, Debug, PartialEq, Eq)]
pub enum Kind {
    /// It discloses a contributor, and is hidden.
    Primary,
    /// It may be hidden or shown.
    Free,
    /// It is always shown.
    Fixed,
}

/// A cell as its protection sees it, with all amounts in units.
#[derive(Clone, Copy)]
pub struct Cell {
    /// The sum over its records, from 0.
    pub truth: i128,
    /// What an attacker knows that the cell is at least, from 0 to the truth.
    pub low: i128,
    /// What an attacker knows that the cell is at most, the truth or more; none where nothing is known.
    pub high: Option<i128>,
    /// How far a primary cell must be open upwards, 1 or more; 0 for other cells.
    pub up: i128,
    /// How far a primary cell must be open downwards, at most the truth; 0 for other cells.
    pub down: i128,
    pub kind: Kind,
    /// What it costs to hide the cell, where the office says so; else the cost rule tells.
    pub price: Option<u64>,
    ghost low_from_zero: { pos 0 ≤ℤ low },
    ghost low_within: { low ≤ℤ truth },
    ghost high_beyond: { ForSome high (λ bound. truth ≤ℤ bound) },
    ghost down_from_zero: { pos 0 ≤ℤ down },
    ghost down_within: { down ≤ℤ truth },
    ghost primary: { kind ≡ Primary → pos 1 ≤ℤ up },
    ghost other_up: { kind ≢ Primary → up ≡ pos 0 },
    ghost other_down: { kind ≢ Primary → down ≡ pos 0 },
}
