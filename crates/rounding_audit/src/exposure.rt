ghost use Rattle.std.specs.Prelude.{◌≡◌};
ghost use Rattle.rounding_audit.specs.Exposures as spec;

use crate::audited::AuditedCell;

/// How many cells of an audit aren't covered on some side.
///
/// Nothing is refused. It goes once through the cells. The rule is argus's own.
pub fn exposed_in(audited: &[AuditedCell]) -> usize
    ensures { result ≡ spec.exposed_in audited.now }
{
    audited.iter().filter(|one| is_exposed(one)).count()
}

// Whether a cell isn't covered on some side.
fn is_exposed(one: &AuditedCell) -> bool
    ensures { result ≡ spec.is_exposed one.now }
{
    !one.below.covered || !one.above.covered
}
