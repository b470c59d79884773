ghost use Rattle.std.specs.Prelude.{◌≡◌};
ghost use Rattle.cert_check.specs.Methods as spec;

use crate::faults::CheckFault;
use certificate::Certificate;
use sdc_base::Method;

/// Refuses a certificate of another method, and one of a rounding that lists something.
pub(crate) fn check_method(method: &Method, certificate: &Certificate) -> Result<(), CheckFault>
    ensures { result ≡ spec.method_fault method.now certificate.now }
{
    if !is_same(method, &certificate.method) || is_rounding(method) && !lists_nothing(certificate) {
        return Err(CheckFault::Method);
    }
    Ok(())
}

// Whether both methods are one.
fn is_same(one: &Method, other: &Method) -> bool
    ensures { result ≡ spec.same_method one.now other.now }
{
    match *one {
        Method::Modular => match *other {
            Method::Modular => true,
            Method::Gh(_) => false,
            Method::Rnd(_) => false,
        },
        Method::Gh(n) => match *other {
            Method::Modular => false,
            Method::Gh(m) => n == m,
            Method::Rnd(_) => false,
        },
        Method::Rnd(a) => match *other {
            Method::Modular => false,
            Method::Gh(_) => false,
            Method::Rnd(b) => a == b,
        },
    }
}

/// Whether the method rounds.
pub(crate) fn is_rounding(method: &Method) -> bool
    ensures { result ≡ spec.rounds_cells method.now }
{
    match *method {
        Method::Modular => false,
        Method::Gh(_) => false,
        Method::Rnd(_) => true,
    }
}

// Whether a certificate lists nothing.
fn lists_nothing(certificate: &Certificate) -> bool
    ensures { result ≡ spec.lists_nothing certificate.now }
{
    certificate.hidden.as_slice().len() == 0
        && certificate.steps.as_slice().len() == 0
        && certificate.repairs.as_slice().len() == 0
        && certificate.needs.as_slice().len() == 0
        && certificate.worlds.as_slice().len() == 0
}
