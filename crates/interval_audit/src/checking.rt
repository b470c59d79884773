ghost use Rattle.std.specs.Prelude.{◌≡◌, ◌<◌, ◌≤ℤ◌, ◌*ℤ◌, FitsSigned, length, pos, IfSome, None};
ghost use Rattle.std.specs.Int.{w128};
ghost use Rattle.worlds.specs.NumberLists.{IsListed};
ghost use Rattle.worlds.specs.RefutationFaults.{IsGivenSum, IsWideFault};
ghost use Rattle.worlds.specs.declared.faults.RefutationFault.TheVariants as refutation;
ghost use Rattle.interval_audit.specs.Causes.{NeedsWideNumber};
ghost use Rattle.interval_audit.specs.Inquiries as inquiries;

use crate::inquiry::Inquiry;
use crate::question::Question;
use worlds::{Multipliers, RefutationFault, bound_sum};

// The first cell at which the check of multipliers, with the target as level, needs a number wider than 128 bits.
pub(crate) fn wide_at(
    inquiry: &Inquiry<'_, '_>,
    multipliers: &Multipliers,
    scratch: &mut [i128],
) -> Option<u32>
    requires scratch { length scratch.old ≡ inquiry.now.pattern.system.now.cells }
    requires positive { pos 1 ≤ℤ multipliers.now.den }
    requires listed { IsListed (length inquiry.now.pattern.system.now.relations) multipliers.now.by_relation }
    requires bounded { inquiries.AddsBounded inquiry.now multipliers.now }
    ensures sum { result ≡ None → IsGivenSum inquiry.now.pattern.system.now inquiry.now.pattern.cells.now
        inquiry.now.pattern.hidden.now.flags inquiry.now.question.cell inquiry.now.question.side multipliers.now }
    ensures product { result ≡ None → FitsSigned w128 (multipliers.now.den *ℤ inquiry.now.question.target) }
    ensures wide { IfSome result (λ cell. NeedsWideNumber inquiry.now.pattern.system.now inquiry.now.pattern.cells.now
        inquiry.now.pattern.hidden.now.flags inquiry.now.question multipliers.now cell) }
{
    let question = inquiry.question;
    let found = bound_sum(
        inquiry.pattern.system,
        inquiry.pattern.cells,
        inquiry.pattern.hidden,
        question.cell,
        question.side,
        multipliers,
        scratch,
    );
    if let Err(fault) = found {
        return Some(wide_cell(fault));
    }
    wide_product(multipliers.den, question)
}

// The asked cell, where a denominator times the target is wider than 128 bits.
fn wide_product(den: i128, question: Question) -> Option<u32>
    ensures none { result ≡ None → FitsSigned w128 (den *ℤ question.target) }
    ensures cell { IfSome result (λ cell. cell ≡ question.cell) }
    ensures wide { IfSome result (λ _. ¬ FitsSigned w128 (den *ℤ question.target)) }
{
    match den.checked_mul(question.target) {
        Some(_) => None,
        None => Some(question.cell),
    }
}

// The cell of a fault that is a number wider than 128 bits.
fn wide_cell(fault: RefutationFault) -> u32
    requires { IsWideFault fault }
    ensures { fault ≡ refutation.Wide result }
{
    match fault {
        RefutationFault::Wide(cell) => cell,
        _ => 0,
    }
}
