ghost use Rattle.std.specs.Prelude.{◌≡◌, ◌<◌, true, false, length, All, Ok, OnOk};
ghost use Rattle.sdc_base.specs.Trails.{corners_of};
ghost use Rattle.sdc_base.specs.Answers.{Gives};
ghost use Rattle.sdc_base.specs.Patterns.{IsPattern};
ghost use Rattle.cert_check.specs.Cases.{IsCase};
ghost use Rattle.cert_check.specs.Counts.{counts_fit};
ghost use Rattle.cert_check.specs.Methods.{rounds_cells};
ghost use Rattle.cert_check.specs.Acceptance.{IsAccepted, IsOfCase, IsRoundedRelease};
ghost use Rattle.cert_check.specs.FirstFault.{check_fault_of, acceptance_fault, suppressed_fault, shown_fault, hiding_fault};

use crate::case::Case;
use crate::counting::check_counts;
use crate::faults::CheckFault;
use crate::hiding::{check_permitted, hidden_set};
use crate::lines::check_worlds;
use crate::methods::{check_method, is_rounding};
use crate::needing::check_needs;
use crate::outside::check_outside;
use crate::release::check_release;
use crate::repairing::check_repairs;
use crate::rounded::check_rounded;
use crate::steps::check_steps;
use certificate::Certificate;
use repair::planned_hidden;
use sdc_base::{Hidden, Text};
use std::alloc::Global;

/// Whether a certificate shows that a release is protected, or that it is rounded: its first fault, if it has one.
///
/// `case` is what the inputs of a job make; `release` has the bytes of each table, in the order of the book's tables.
/// The cells are those of the system and of the book, whose marks have their truths; the corners of the trail are
/// numbers of cells; there is a list of names for each table, and decimals are at most 13; a base by which is rounded
/// is 1 or more. Any certificate and any bytes may be given.
///
/// The fault is the first in the order of [`CheckFault`]: the counts and numbers of the certificate and its method. Of
/// a suppressed release then its hidden set, its tables line by line, the steps, repair by repair, the hidden cells
/// outside plan and repairs, world by world, and need by need. Of a rounded release then its tables, cell by cell that
/// it is a multiple of the base less than one base from its truth, and relation by relation. Want of memory is
/// `Memory`. Nothing that was lent changes.
///
/// It writes each table of a suppressed release once, and reads each of a rounded one once, with at most two lines for
/// each place. It goes once through the moves of each world and the parts of all relations, and for each repair and
/// need through the parts of the relations that have a multiplier and through all cells.
///
/// Worlds are those of the feasibility interval in Hundepool et al., Statistical Disclosure Control, chapter on
/// magnitude tables, refutations those of linear duality, roundings those of zero-restricted controlled rounding;
/// certificates are argus's own.
pub fn accept(
    alloc: Global,
    case: &Case<'_>,
    release: &[Text],
    certificate: &Certificate,
) -> Result<(), CheckFault>
    requires { IsCase case.now release.now }
    ensures exact { Gives check_fault_of (λ u. u) result (acceptance_fault case.now release.now certificate.now) }
    ensures of_case { result ≡ Ok tt → IsOfCase case.now certificate.now }
    ensures suppressed { result ≡ Ok tt → rounds_cells case.now.method ≡ false
        → IsAccepted case.now release.now certificate.now }
    ensures rounded { result ≡ Ok tt → rounds_cells case.now.method ≡ true
        → IsRoundedRelease case.now release.now certificate.now }
{
    // for the proof: read, so that what holds of every book is known.
    let _cells = case.book.cells();
    first_of(alloc, case, release, certificate)
}

// The first fault of a certificate.
fn first_of(
    alloc: Global,
    case: &Case<'_>,
    release: &[Text],
    certificate: &Certificate,
) -> Result<(), CheckFault>
    requires { IsCase case.now release.now }
    ensures exact { Gives check_fault_of (λ u. u) result (acceptance_fault case.now release.now certificate.now) }
{
    check_counts(case.system, certificate)?;
    check_method(&case.method, certificate)?;
    if is_rounding(&case.method) {
        return check_rounded(alloc, case, release);
    }
    let mut hidden = hidden_set(alloc, case.system.cells, certificate.hidden.as_slice())?;
    check_suppressed(alloc, case, release, &mut hidden, certificate)
}

// The first fault of a suppressed release, for the certificate's hidden set.
fn check_suppressed(
    alloc: Global,
    case: &Case<'_>,
    release: &[Text],
    hidden: &mut Hidden,
    certificate: &Certificate,
) -> Result<(), CheckFault>
    requires is_case { IsCase case.now release.now }
    requires flags { length hidden.old.flags ≡ case.now.system.now.cells }
    requires counted { counts_fit case.now.system.now certificate.now ≡ true }
    ensures { Gives check_fault_of (λ u. u) result
        (suppressed_fault case.now release.now hidden.old.flags certificate.now) }
{
    check_permitted(case.cells, hidden.flags.as_slice())?;
    check_release(alloc, case.book, hidden, case.names, case.decimals, release)?;
    check_shown(alloc, case, hidden, certificate)
}

/// The first fault of what a certificate shows of its hidden set: of what hides cells, of the worlds, of the needs. The
/// hidden set is as before.
pub(crate) fn check_shown(
    alloc: Global,
    case: &Case<'_>,
    hidden: &mut Hidden,
    certificate: &Certificate,
) -> Result<(), CheckFault>
    requires ground { IsPattern case.now.system.now case.now.cells.now hidden.old.flags }
    requires corners { All (λ corner. corner < length case.now.cells.now) (corners_of case.now.trail.now.steps) }
    requires counted { counts_fit case.now.system.now certificate.now ≡ true }
    ensures exact { Gives check_fault_of (λ u. u) result (shown_fault case.now hidden.old.flags certificate.now) }
    ensures hidden { OnOk result (hidden.new.flags ≡ hidden.old.flags) }
{
    let mut scratch = Vec::from_elem(alloc, 0, case.cells.len())?;
    check_hiding(alloc, case, hidden, certificate, &mut scratch)?;
    let worlds = certificate.worlds.as_slice();
    check_worlds(case, hidden, worlds, &mut scratch)?;
    let needs = certificate.needs.as_slice();
    check_needs(alloc, case, hidden, needs, &mut scratch)
}

// The first fault of what hides cells.
fn check_hiding(
    alloc: Global,
    case: &Case<'_>,
    hidden: &Hidden,
    certificate: &Certificate,
    scratch: &mut [i128],
) -> Result<(), CheckFault>
    requires ground { IsPattern case.now.system.now case.now.cells.now hidden.now.flags }
    requires corners { All (λ corner. corner < length case.now.cells.now) (corners_of case.now.trail.now.steps) }
    requires scratch { length scratch.old ≡ case.now.system.now.cells }
    requires counted { counts_fit case.now.system.now certificate.now ≡ true }
    ensures exact { Gives check_fault_of (λ u. u) result (hiding_fault case.now hidden.now.flags certificate.now) }
    ensures length { length scratch.new ≡ length scratch.old }
{
    check_steps(case.trail.steps.as_slice(), certificate.steps.as_slice())?;
    let mut wider = planned_hidden(alloc, case.cells, case.trail.steps.as_slice())?;
    check_repairs(
        case.system,
        case.cells,
        &mut wider,
        certificate.repairs.as_slice(),
        scratch,
    )?;
    check_outside(wider.flags.as_slice(), hidden.flags.as_slice())
}
