ghost use Rattle.std.specs.Prelude.{◌≡◌};
ghost use Rattle.job_inputs.specs.Purposes as spec;

use sdc_base::Method;

/// What the inputs of a job are read for.
#[derive(Clone, Copy, Debug, PartialEq, Eq)]
pub enum Purpose {
    /// For its release, or to check one: the job may have any method.
    Release,
    /// For the intervals of its hidden cells: the job must have a method that hides cells.
    Intervals,
    /// For the audit of its rounded release: the job must round.
    Audit,
}

/// Whether a job's method leaves nothing of what its inputs are read for: rounding hides no cells, and only rounding has
/// a rounded release.
pub(crate) fn is_unfit(purpose: Purpose, method: Method) -> bool
    ensures { result ≡ spec.is_unfit purpose method }
{
    match (purpose, method) {
        (Purpose::Intervals, Method::Rnd(_)) => true,
        (Purpose::Intervals, _) => false,
        (Purpose::Audit, Method::Rnd(_)) => false,
        (Purpose::Audit, _) => true,
        (Purpose::Release, _) => false,
    }
}
