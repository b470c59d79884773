ghost use Rattle.std.specs.Prelude.{◌≡◌, ◌++◌, ◌∷◌, [], if◌then◌else◌, ◌*ℤ◌, ◌<ℤ◌, ◌^◌, FitsSigned, All, true, pos, neg_ℤ, IfOk, IfSome, OnOk};
ghost use Rattle.std.specs.Int.{w128};
ghost use Rattle.std.specs.Ordering.{int_eq};
ghost use Rattle.sdc_base.specs.HiddenSets.{is_hidden};
ghost use Rattle.sdc_base.specs.Signs.{HasNone};
ghost use Rattle.sdc_base.specs.Systems as spec;
ghost use Rattle.worlds.specs.RefutationFaults.{IsGivenSum};
ghost use Rattle.interval_audit.specs.Readings.{nonzero_terms};
ghost use Rattle.kept_questions.specs.KeptAnswers.{IsKeptStop};

use crate::component::component_of;
use crate::exact::product;
use crate::lists::number_at;
use crate::pair::check_pair;
use crate::pair_read::pair_of;
use crate::unfit::Unfit;
use compact_search::MoveLists;
use interval_audit::{Question, lowest_multipliers, move_pair_stops};
use std::alloc::Global;
use worlds::{Multipliers, Pattern, bound_sum};

// The multipliers of a question's answer, where what a search found shows that it stops short.
pub(crate) fn check_stop(
    alloc: Global,
    pattern: &Pattern<'_>,
    question: Question,
    found: &MoveLists,
) -> Option<Multipliers>
    requires hidden { is_hidden pattern.now.hidden.now.flags question.cell ≡ true }
    ensures { HasNone pattern.now.system.now.relations → IfSome result (λ multipliers. IsKeptStop
        pattern.now.system.now pattern.now.cells.now pattern.now.hidden.now.flags question multipliers) }
{
    match stop_of(alloc, pattern, question, found) {
        Ok(multipliers) => Some(multipliers),
        Err(_) => None,
    }
}

// The same, or why they aren't given.
fn stop_of(
    alloc: Global,
    pattern: &Pattern<'_>,
    question: Question,
    found: &MoveLists,
) -> Result<Multipliers, Unfit>
    requires hidden { is_hidden pattern.now.hidden.now.flags question.cell ≡ true }
    ensures { HasNone pattern.now.system.now.relations → IfOk result (λ multipliers. IsKeptStop pattern.now.system.now
        pattern.now.cells.now pattern.now.hidden.now.flags question multipliers) }
{
    let component = component_of(alloc, pattern, question.cell)?;
    let pair = pair_of(alloc, pattern, &component, found)?;
    check_pair(alloc, pattern, &component, question, &pair)?;
    let weights = pair.weights.as_slice();
    let terms = terms_of(alloc, weights, component.met.as_slice())?;
    let multipliers = lowest_multipliers(alloc, pair.q, terms.as_slice())?;
    check_sum(alloc, pattern, question, &multipliers)?;
    // for the proof: what such a pair says of the question's walk
    move_pair_stops();
    Ok(multipliers)
}

// The weights of these relations, without those of 0.
fn terms_of(alloc: Global, weights: &[i128], met: &[u32]) -> Result<Vec<(u32, i128)>, Unfit>
    ensures terms { IfOk result (λ terms. terms.items ≡ nonzero_terms (spec.number_at weights.now) met.now) }
    ensures held { IfOk result (λ terms. All (λ term. neg_ℤ (pos (2 ^ 127)) <ℤ term.1) terms.items) }
{
    let mut terms = Vec::new(alloc);
    'met: for number in met {
        let weight = number_at(weights, *number);
        if weight <= i128::MIN {
            return Err(Unfit);
        }
        push_weight(&mut terms, *number, weight)?;
    }
    Ok(terms)
}

// Puts the weight of a relation behind others, where it isn't 0.
fn push_weight(terms: &mut Vec<(u32, i128)>, number: u32, weight: i128) -> Result<(), Unfit>
    ensures { OnOk result (terms.new.items
        ≡ terms.old.items ++ (if int_eq weight (pos 0) then [] else (number, weight) ∷ [])) }
{
    if weight == 0 {
        return Ok(());
    }
    terms.push((number, weight))?;
    Ok(())
}

// That multipliers have a bound sum, with the target as level, and no number on the way to it leaves 128 bits.
fn check_sum(
    alloc: Global,
    pattern: &Pattern<'_>,
    question: Question,
    multipliers: &Multipliers,
) -> Result<(), Unfit>
    ensures sum { OnOk result (IsGivenSum pattern.now.system.now pattern.now.cells.now pattern.now.hidden.now.flags
        question.cell question.side multipliers.now) }
    ensures product { OnOk result (FitsSigned w128 (multipliers.now.den *ℤ question.target)) }
{
    if question.cell >= pattern.system.cells {
        return Err(Unfit);
    }
    product(multipliers.den, question.target)?;
    let mut scratch = Vec::from_elem(alloc, 0, pattern.system.cells as usize)?;
    let found = bound_sum(
        pattern.system,
        pattern.cells,
        pattern.hidden,
        question.cell,
        question.side,
        multipliers,
        &mut scratch,
    );
    match found {
        Ok(_) => Ok(()),
        Err(_) => Err(Unfit),
    }
}
