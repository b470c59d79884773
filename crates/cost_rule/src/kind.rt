ghost use Rattle.std.specs.Prelude.{◌≡◌};
ghost use Rattle.cost_rule.specs.Costs.{cost_of};

use sdc_base::CellFacts;

/// The most of a truth that counts in a cost by value: one unit less than `2^40`.
pub const MOST_VALUE: u128 = 1099511627775;

/// What hiding a cell costs.
#[derive(Clone, Copy, Debug, PartialEq, Eq)]
pub enum CostKind {
    /// By its value: `1 + min(truth, 2^40 - 1)`, the truth in units.
    Value,
    /// By its frequency: `1 + freq`.
    Freq,
    /// The same for each cell: 1.
    One,
}

impl CostKind {
    /// What hiding a cell with these facts costs by this kind: a number without a unit, from 1 to `2^40`. Of the facts
    /// it looks at the truth, in units, or at the frequency; a truth below 0, which no cell has, costs as its amount
    /// does.
    ///
    /// A closure that calls it is a cost rule of this kind. All facts may be asked about, and nothing is refused. It
    /// takes the same time for all facts, and no memory.
    ///
    /// The kinds are those of the tau-ARGUS manual; the added one and the bound are this project's own.
    pub fn cost(self, facts: &CellFacts) -> u64
        ensures value { result ≡ cost_of self facts.now }
    {
        match self {
            CostKind::Value => 1 + facts.truth.unsigned_abs().min(MOST_VALUE) as u64,
            CostKind::Freq => 1 + u64::from(facts.freq),
            CostKind::One => 1,
        }
    }
}
