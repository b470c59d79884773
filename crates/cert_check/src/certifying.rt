ghost use Rattle.std.specs.Prelude.{◌≡◌, false, IfOk};
ghost use Rattle.sdc_base.specs.Answers.{Gives};
ghost use Rattle.cert_check.specs.Acceptance.{IsAccepted, IsOfCase};
ghost use Rattle.cert_check.specs.Cases.{IsCase};
ghost use Rattle.cert_check.specs.FirstFault.{check_fault_of, acceptance_fault};
ghost use Rattle.cert_check.specs.Methods.{rounds_cells};
ghost use Rattle.cert_check.specs.OwnTexts.{own_set, own_texts, certificate_fault};

use crate::accepting::check_shown;
use crate::case::Case;
use crate::counting::check_counts;
use crate::faults::CheckFault;
use crate::hiding::{check_permitted, hidden_set};
use crate::methods::check_method;
use certificate::Certificate;
use sdc_base::Hidden;
use std::alloc::Global;

/// Whether a certificate shows that its hidden set protects, with whatever tables: its first fault, or else that set.
///
/// The answer is that of [`accept`](crate::accept) with the tables that hide exactly the cells of the set, and so its
/// fault is never one of a line of a table; none of these tables is written. The case is as there, with any tables, and
/// its method doesn't round. Any certificate may be given. Want of memory is `Memory`.
///
/// It goes once through the moves of each world and the parts of all relations, and for each repair and need through
/// the parts of the relations that have a multiplier and through all cells. It is argus's own.
pub fn accept_certificate(
    alloc: Global,
    case: &Case<'_>,
    certificate: &Certificate,
) -> Result<Hidden, CheckFault>
    requires is_case { IsCase case.now (own_texts case.now certificate.now) }
    requires hides { rounds_cells case.now.method ≡ false }
    ensures exact { Gives check_fault_of (λ hidden. tt) result
        (acceptance_fault case.now (own_texts case.now certificate.now) certificate.now) }
    ensures set { IfOk result (λ hidden. hidden.flags ≡ own_set case.now certificate.now) }
    ensures of_case { IfOk result (λ hidden. IsOfCase case.now certificate.now) }
    ensures shown { IfOk result (λ hidden.
        IsAccepted case.now (own_texts case.now certificate.now) certificate.now) }
{
    certify(alloc, case, certificate)
}

// The first fault of a certificate that lies in no table, or else its hidden set.
fn certify(alloc: Global, case: &Case<'_>, certificate: &Certificate) -> Result<Hidden, CheckFault>
    requires { IsCase case.now (own_texts case.now certificate.now) }
    ensures exact { Gives check_fault_of (λ hidden. tt) result (certificate_fault case.now certificate.now) }
    ensures set { IfOk result (λ hidden. hidden.flags ≡ own_set case.now certificate.now) }
{
    check_counts(case.system, certificate)?;
    check_method(&case.method, certificate)?;
    let mut hidden = hidden_set(alloc, case.system.cells, certificate.hidden.as_slice())?;
    check_permitted(case.cells, hidden.flags.as_slice())?;
    check_shown(alloc, case, &mut hidden, certificate)?;
    Ok(hidden)
}
