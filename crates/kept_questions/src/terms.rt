ghost use Rattle.std.specs.Prelude.{◌≡◌, ◌++◌, ◌∷◌, [], ℕ, ◌+ℤ◌, ◌*ℤ◌, pos, IfOk, OnOk};
ghost use Rattle.sdc_base.specs.Forms.{coefficient};
ghost use Rattle.tableau.specs.OptimalPairs.{IsNotBelowZeros};
ghost use Rattle.kept_questions.specs.TermLists.{AddsTimes, ascends, first_number};

use crate::exact::{product, sum};
use crate::unfit::Unfit;
use std::alloc::Global;

// Puts the terms of a list behind others, each so many times.
pub(crate) fn push_times(
    terms: &mut Vec<(u32, i128)>,
    list: &[(u32, i128)],
    times: i128,
) -> Result<(), Unfit>
    ensures { OnOk result (AddsTimes terms.old.items terms.new.items times list.now) }
{
    'list: for term in list {
        let number = product(times, term.1)?;
        push_term(terms, term.0, number)?;
    }
    Ok(())
}

// Puts a term behind others.
pub(crate) fn push_term(terms: &mut Vec<(u32, i128)>, place: u32, number: i128) -> Result<(), Unfit>
    ensures { OnOk result (terms.new.items ≡ terms.old.items ++ (place, number) ∷ []) }
{
    terms.push((place, number))?;
    Ok(())
}

// The same terms with each place once, ascending.
pub(crate) fn gathered(alloc: Global, terms: Vec<(u32, i128)>) -> Result<Vec<(u32, i128)>, Unfit>
    ensures { IfOk result (λ made. (place : ℕ) → coefficient made.items place ≡ coefficient terms.items place) }
{
    let mut sorted = terms;
    sorted.sort_by_key(|term| term.0)?;
    let list = sorted.as_slice();
    let made = combined(alloc, list)?;
    Ok(made)
}

// The same terms, those of one place that follow each other added up.
fn combined(alloc: Global, terms: &[(u32, i128)]) -> Result<Vec<(u32, i128)>, Unfit>
    ensures { IfOk result (λ made. (place : ℕ) → coefficient made.items place ≡ coefficient terms.now place) }
{
    let mut made = Vec::new(alloc);
    'terms: for term in terms {
        add_last(&mut made, term.0, term.1)?;
    }
    Ok(made)
}

// Adds a number to the last term, if it has that place, or else puts it behind.
fn add_last(terms: &mut Vec<(u32, i128)>, place: u32, number: i128) -> Result<(), Unfit>
    ensures { OnOk result ((at : ℕ) → coefficient terms.new.items at
        ≡ coefficient terms.old.items at +ℤ coefficient ((place, number) ∷ []) at) }
{
    let Some(last) = terms.pop() else {
        return push_term(terms, place, number);
    };
    if last.0 == place {
        let both = sum(last.1, number)?;
        return push_term(terms, place, both);
    }
    push_term(terms, last.0, last.1)?;
    push_term(terms, place, number)
}

// That the first number that isn't 0, if there is one, is above 0.
pub(crate) fn check_not_below(terms: &[(u32, i128)]) -> Result<(), Unfit>
    ensures { OnOk result ((size : ℕ) → IsNotBelowZeros size (coefficient terms.now)) }
{
    let ascending = is_ascending(terms);
    let first = first_of(terms);
    if !ascending || first < 0 {
        return Err(Unfit);
    }
    Ok(())
}

// Whether the places ascend.
fn is_ascending(terms: &[(u32, i128)]) -> bool
    ensures { result ≡ ascends 0 terms.now }
{
    let mut least: u64 = 0;
    'terms: for term in terms {
        let place = u64::from(term.0);
        if place < least {
            return false;
        }
        least = place + 1;
    }
    true
}

// The first number that isn't 0, or 0 where there is none.
fn first_of(terms: &[(u32, i128)]) -> i128
    ensures { result ≡ first_number terms.now }
{
    'terms: for term in terms {
        if term.1 != 0 {
            return term.1;
        }
    }
    0
}

// That all numbers are 0.
pub(crate) fn check_zeros(terms: &[(u32, i128)]) -> Result<(), Unfit>
    ensures { OnOk result ((place : ℕ) → coefficient terms.now place ≡ pos 0) }
{
    let first = first_of(terms);
    if first != 0 {
        return Err(Unfit);
    }
    Ok(())
}
