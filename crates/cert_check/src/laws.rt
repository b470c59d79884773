//! Laws of acceptance, each the contract of a function with an empty body.

ghost use Rattle.cert_check.specs.LineLaws.{LinesDiffer};
ghost use Rattle.cert_check.specs.RoundingLaws.{RoundingIsJudged};
ghost use Rattle.cert_check.specs.WrittenLaws.{NumbersGiveTheSet, ProtectedIsAccepted};

/// The line at which a table is refused is the first in which its lines differ from those that it is to have.
#[tactic(auto, using(crate::proofs::EndedLines::lines_law))]
pub fn lines_differ()
    ensures { LinesDiffer }
{}

/// Numbers have no fault exactly where they are a rounding of the truths.
#[tactic(auto, using(crate::proofs::Judged::rounding_is_judged))]
pub fn rounding_is_judged()
    ensures { RoundingIsJudged }
{}

/// A certificate that speaks of a hidden set that protects is accepted with the texts of that set; and the numbers of
/// the set's cells give the set.
pub fn protected_is_accepted()
    ensures accepted { ProtectedIsAccepted }
    ensures numbers { NumbersGiveTheSet }
{}
