ghost use Rattle.std.specs.Prelude.{◌≡◌, ◌≤◌, ◌<◌, ◌^◌, length, All, IfOk};
ghost use Rattle.sdc_base.specs.Forms.{form_times};
ghost use Rattle.interval_audit.specs.CellNumbers.{AreZeros, AreCoefficients};
ghost use Rattle.interval_audit.specs.FormSigns.{IsFormSign};

use sdc_base::{Memory, Relation};
use std::alloc::Global;

// A relation's form as multiples of cells, taken 1 or -1 times.
pub(crate) fn form_terms(
    alloc: Global,
    relation: &Relation,
    times: i128,
) -> Result<Vec<(u32, i128)>, Memory>
    requires { IsFormSign times }
    ensures { IfOk result (λ terms. terms.items ≡ form_times times relation.now) }
{
    let turned = -times;
    let mut terms = Vec::new(alloc);
    terms.push((relation.total, times))?;
    'parts: for part in relation.parts.as_slice() {
        terms.push((*part, turned))?;
    }
    Ok(terms)
}

// Adds multiples of cells, each 1 or -1, to the cells' numbers, which are all 0.
pub(crate) fn add_terms(numbers: &mut [i128], terms: &[(u32, i128)])
    requires named { All (λ term. term.0 < length numbers.old) terms.now }
    requires signs { All (λ term. IsFormSign term.1) terms.now }
    requires at_most_2_32 { length terms.now ≤ 2 ^ 32 }
    requires zeros { AreZeros numbers.old }
    ensures length { length numbers.new ≡ length numbers.old }
    ensures each { AreCoefficients numbers.new terms.now }
{
    'terms: for term in terms {
        let place = term.0 as usize;
        let sum = numbers[place] + term.1;
        numbers[place] = sum;
    }
}

// Takes multiples of cells from the cells' numbers, which are their coefficients: all are 0 again.
pub(crate) fn take_terms(numbers: &mut [i128], terms: &[(u32, i128)])
    requires named { All (λ term. term.0 < length numbers.old) terms.now }
    requires signs { All (λ term. IsFormSign term.1) terms.now }
    requires at_most_2_32 { length terms.now ≤ 2 ^ 32 }
    requires each { AreCoefficients numbers.old terms.now }
    ensures length { length numbers.new ≡ length numbers.old }
    ensures zeros { AreZeros numbers.new }
{
    'terms: for term in terms {
        let place = term.0 as usize;
        let rest = numbers[place] - term.1;
        numbers[place] = rest;
    }
}
