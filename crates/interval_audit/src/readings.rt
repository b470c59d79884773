ghost use Rattle.std.specs.Prelude.{◌≡◌, ◌<◌, ◌≤◌, ◌+◌, ◌*◌, ◌^◌, ◌++◌, ◌∷◌, [], length, All, IfOk, OnOk, if◌then◌else◌, pos, ◌≤ℤ◌, ◌<ℤ◌, neg_ℤ};
ghost use Rattle.std.specs.Ordering.{int_eq};
ghost use Rattle.sdc_base.specs.Systems.{Numbers};
ghost use Rattle.worlds.specs.NumberLists.{terms_of};
ghost use Rattle.interval_audit.specs.LowestTerms.{AreLowestTermsOf};
ghost use Rattle.interval_audit.specs.Readings.{AreDifferences, nonzero_terms, HasLowestTerms};

use crate::lowest_terms::lowest_terms_of;
use sdc_base::{Items, Memory};
use std::alloc::Global;
use worlds::{Move, Multipliers, World};

// The world whose moves are differences of numbers, over a denominator, in lowest terms: for each cell in a list, by
// its place, one number less the next.
pub(crate) fn read_world(
    alloc: Global,
    members: &[u32],
    values: &[i128],
    den: i128,
) -> Result<World, Memory>
    requires fewer_than_2_32 { length values.now < 2 ^ 32 }
    requires long { length values.now ≡ 2 * length members.now }
    requires from_zero { All (λ value. pos 0 ≤ℤ value) values.now }
    requires positive { pos 1 ≤ℤ den }
    ensures read { (moves : Numbers) → AreDifferences members.now values.now 0 1 moves
        → IfOk result
        (λ world. AreLowestTermsOf den (nonzero_terms moves members.now) world.den (terms_of world.moves)) }
    ensures held { IfOk result (λ world. All (λ term. neg_ℤ (pos (2 ^ 127)) <ℤ term.1) (terms_of world.moves)) }
{
    let terms = differences(alloc, members, values, 0, 1)?;
    let lower = lowest_terms_of(alloc, den, terms.as_slice())?;
    let moves = moves_from(alloc, lower.terms.as_slice())?;
    Ok(World {
        den: lower.den,
        moves: Items::new(moves),
    })
}

// The multipliers that are differences of numbers from a place on, over a denominator, in lowest terms: for each
// relation in a list, by its place, the second number of a pair less the first.
pub(crate) fn read_multipliers(
    alloc: Global,
    met: &[u32],
    slacks: &[i128],
    caps: usize,
    den: i128,
) -> Result<Multipliers, Memory>
    requires fewer_than_2_32 { length slacks.now < 2 ^ 32 }
    requires long { caps + 2 * length met.now ≤ length slacks.now }
    requires from_zero { All (λ slack. pos 0 ≤ℤ slack) slacks.now }
    requires positive { pos 1 ≤ℤ den }
    ensures { (multipliers : Numbers) → AreDifferences met.now slacks.now (caps + 1) caps multipliers
        → IfOk result (λ read. HasLowestTerms read den multipliers met.now) }
{
    let terms = differences(alloc, met, slacks, caps + 1, caps)?;
    lowest_multipliers(alloc, den, terms.as_slice())
}

/// Multipliers of relations, none of 0, over a denominator, in lowest terms.
///
/// The relations have multipliers in the order in which they are given. The denominator is 1 or more, and no multiplier
/// is the least number of 128 bits. It goes twice through them; its one refusal is want of memory. The rule is argus's
/// own.
pub fn lowest_multipliers(
    alloc: Global,
    den: i128,
    by_relation: &[(u32, i128)],
) -> Result<Multipliers, Memory>
    requires positive { pos 1 ≤ℤ den }
    requires held { All (λ term. neg_ℤ (pos (2 ^ 127)) <ℤ term.1) by_relation.now }
    ensures { IfOk result (λ lower. AreLowestTermsOf den by_relation.now lower.den lower.by_relation) }
{
    let lower = lowest_terms_of(alloc, den, by_relation)?;
    Ok(Multipliers {
        den: lower.den,
        by_relation: Items::new(lower.terms),
    })
}

// For each in a list, by its place, a number less another, without those of 0.
fn differences(
    alloc: Global,
    list: &[u32],
    numbers: &[i128],
    plus: usize,
    minus: usize,
) -> Result<Vec<(u32, i128)>, Memory>
    requires fewer_than_2_32 { length numbers.now < 2 ^ 32 }
    requires plus_within { plus + 2 * length list.now ≤ length numbers.now + 1 }
    requires minus_within { minus + 2 * length list.now ≤ length numbers.now + 1 }
    requires from_zero { All (λ number. pos 0 ≤ℤ number) numbers.now }
    ensures terms { (given : Numbers) → AreDifferences list.now numbers.now plus minus given
        → IfOk result (λ terms. terms.items ≡ nonzero_terms given list.now) }
    ensures held { IfOk result (λ terms. All (λ term. neg_ℤ (pos (2 ^ 127)) <ℤ term.1) terms.items) }
{
    let mut terms = Vec::new(alloc);
    'list: for (place, one) in list.iter().enumerate() {
        let more = numbers[plus + 2 * place];
        let less = numbers[minus + 2 * place];
        push_term(&mut terms, *one, more - less)?;
    }
    Ok(terms)
}

// Puts a number of one at the end of terms, where it isn't 0.
fn push_term(terms: &mut Vec<(u32, i128)>, one: u32, number: i128) -> Result<(), Memory>
    ensures { OnOk result (terms.new.items
        ≡ terms.old.items ++ (if int_eq number (pos 0) then [] else (one, number) ∷ [])) }
{
    if number == 0 {
        return Ok(());
    }
    terms.push((one, number))?;
    Ok(())
}

// Numbers of cells as moves.
fn moves_from(alloc: Global, terms: &[(u32, i128)]) -> Result<Vec<Move>, Memory>
    ensures { IfOk result (λ moves. terms_of moves.items ≡ terms.now) }
{
    let mut moves = Vec::new(alloc);
    'terms: for term in terms {
        moves.push(Move {
            cell: term.0,
            by: term.1,
        })?;
    }
    Ok(moves)
}
