//! Whether costs may be asked for, for tests.

ghost use Rattle.std.specs.Prelude.{◌≡◌, true, All};
ghost use Rattle.cost_rule.specs.Costs.{AreCosted};

use linked_tables::Mark;

// Whether a cost rule may be asked about a mark.
pub(crate) fn is_costed(mark: &Mark) -> bool
    ensures { result ≡ true → AreCosted mark.now.facts }
{
    0 <= mark.facts.truth && mark.facts.freq <= 1000000
}

// Whether it may be asked about each of these.
pub(crate) fn are_costed(marks: &[Mark]) -> bool
    ensures { result ≡ true → All (λ mark. AreCosted mark.facts) marks.now }
{
    marks.iter().all(|mark| is_costed(mark))
}
