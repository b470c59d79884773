ghost use Rattle.std.specs.Prelude.{◌≡◌, false, Ok};
ghost use Rattle.cert_check.specs.Cases.{IsCase};
ghost use Rattle.cert_check.specs.Methods.{rounds_cells};
ghost use Rattle.job_check.specs.GuardedReleases.{guarded_fault, IsJudgement, IsRightGuarding};

use crate::stop::CheckStop;
use attackers::{Extra, accept_extra};
use cert_check::{Case, accept_certificate, check_tables};
use certificate::Certificate;
use sdc_base::Text;
use std::alloc::Global;

/// Whether the certificate of a release shows that its own hidden set protects, the tables hide exactly that set and the
/// extra cells, and these guard against every contributor: the first fault in this order, if there is one.
///
/// A number of an extra cell that is none adds nothing to what the tables are to hide.
pub(crate) fn accept_guarded(
    alloc: Global,
    case: &Case<'_>,
    soles: &[Option<u32>],
    tables: &[Text],
    certificate: &Certificate,
    extra: &Extra,
) -> Result<(), CheckStop>
    requires is_case { IsCase case.now tables.now }
    requires hides { rounds_cells case.now.method ≡ false }
    ensures exact { IsJudgement (guarded_fault case.now soles.now tables.now certificate.now extra.now) result }
    ensures shows { result ≡ Ok tt → IsRightGuarding case.now soles.now tables.now certificate.now extra.now }
{
    let hidden = accept_certificate(alloc, case, certificate)?;
    let larger = hidden.with_cells(alloc, extra.cells.as_slice())?;
    check_tables(alloc, case, &larger, tables)?;
    let worlds = certificate.worlds.as_slice();
    accept_extra(
        alloc,
        case.system,
        case.cells,
        soles,
        &hidden,
        worlds,
        extra,
    )?;
    Ok(())
}
