ghost use Rattle.std.specs.Prelude.{ℕ};
ghost use Rattle.sdc_base.specs.declared.facts.CellFacts.{CellFacts as Facts};

use sdc_base::CellFacts;

/// What can be asked for the cost of a cell. Each closure `Fn(&CellFacts) -> u64` can.
pub trait TellsCosts {
    /// It may be asked about these facts.
    ghost may_ask: { Self → Facts → Type 0 };

    /// It may answer this about these facts.
    ghost may_say: { Self → Facts → ℕ → Type 0 };

    /// What hiding a cell with these facts costs. They must be facts that it may be asked about.
    fn ask(&self, facts: &CellFacts) -> u64
        requires { may_ask self.now facts.now }
        ensures { may_say self.now facts.now result };
}

impl<F: Fn(&CellFacts) -> u64> TellsCosts for F {
    ghost use Rattle.std.specs.Prelude.{◌≡◌};
    ghost use Rattle.std.specs.Fn.{FnReturnsAt};

    ghost may_ask = { λ f facts. (given : _) → given.now ≡ facts → F.pre f given };

    ghost may_say = { FnReturnsAt F.Fn };

    fn ask(&self, facts: &CellFacts) -> u64 {
        self(facts)
    }
}
