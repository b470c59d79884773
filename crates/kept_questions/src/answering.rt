// What a search found, as the answer of a question once it is checked.
ghost use Rattle.std.specs.Prelude.{◌≡◌, ◌<◌, length, IfSome, true};
ghost use Rattle.sdc_base.specs.Forms.{coefficient};
ghost use Rattle.sdc_base.specs.Refutations as spec;
ghost use Rattle.worlds.specs.RefutationFaults.{IsGivenSum, terms_added};
ghost use Rattle.worlds.specs.WorldFaults.{IsGivenWorld};
ghost use Rattle.interval_audit.specs.Answers.{IsTrueAnswer, asked_move_in};

use crate::products::{are_same_products, has_product, is_below_product, is_product};
use compact_search::Found;
use interval_audit::{Answer, Question, move_of};
use sdc_base::{Fraction, Side};
use worlds::{Multipliers, Pattern, World, bound_sum, check_world};

/// The answer of a question that a search found, if it is right; none also where a number leaves 128 bits when it is
/// checked.
///
/// A world has to be one for the pattern's hidden cells. It has to take the asked cell exactly to the target; or as far
/// as multipliers let it, short of the target. Target and moves are in units, the latter over the world's denominator.
/// The scratch has a place for each cell of the system, and may hold any numbers, before and afterwards. It goes once
/// through the moves of the world and the parts of all relations, and as often through those of the multipliers. That
/// multipliers bound a cell is linear duality.
pub fn checked_answer(
    pattern: &Pattern<'_>,
    question: Question,
    found: Found,
    scratch: &mut [i128],
) -> Option<Answer>
    requires scratch { length scratch.old ≡ pattern.now.system.now.cells }
    requires asked { question.cell < pattern.now.system.now.cells }
    ensures { IfSome result (IsTrueAnswer pattern.now.system.now pattern.now.cells.now pattern.now.hidden.now.flags
        question) }
{
    match found {
        Found::Reaches(world) => reached(pattern, question, world, scratch),
        Found::Stops(stop) => stopped(pattern, question, stop.world, stop.multipliers, scratch),
    }
}

// The answer where a world takes the cell exactly to the target.
fn reached(
    pattern: &Pattern<'_>,
    question: Question,
    world: World,
    scratch: &mut [i128],
) -> Option<Answer>
    requires scratch { length scratch.old ≡ pattern.now.system.now.cells }
    ensures { IfSome result (IsTrueAnswer pattern.now.system.now pattern.now.cells.now pattern.now.hidden.now.flags
        question) }
{
    if !is_world(pattern, &world, scratch) {
        return None;
    }
    let moved = asked_move(question, &world)?;
    if !is_product(moved, world.den, question.target) {
        return None;
    }
    Some(Answer::Reaches(world))
}

// The answer where a world takes the cell as far as multipliers let it, short of the target.
fn stopped(
    pattern: &Pattern<'_>,
    question: Question,
    world: World,
    multipliers: Multipliers,
    scratch: &mut [i128],
) -> Option<Answer>
    requires scratch { length scratch.old ≡ pattern.now.system.now.cells }
    requires asked { question.cell < pattern.now.system.now.cells }
    ensures { IfSome result (IsTrueAnswer pattern.now.system.now pattern.now.cells.now pattern.now.hidden.now.flags
        question) }
{
    if !is_world(pattern, &world, scratch) {
        return None;
    }
    let moved = asked_move(question, &world)?;
    let sum = sum_of(pattern, question, &multipliers, scratch)?;
    if !are_same_products(sum, world.den, multipliers.den, moved) {
        return None;
    }
    if !is_below_product(moved, world.den, question.target) {
        return None;
    }
    if !has_product(multipliers.den, question.target) {
        return None;
    }
    let best = Fraction {
        num: moved,
        den: world.den,
    };
    Some(Answer::Stops {
        best,
        world,
        multipliers,
    })
}

// Whether a world is one for the hidden set.
fn is_world(pattern: &Pattern<'_>, world: &World, scratch: &mut [i128]) -> bool
    requires scratch { length scratch.old ≡ pattern.now.system.now.cells }
    ensures world { result ≡ true → IsGivenWorld pattern.now.system.now pattern.now.cells.now
        pattern.now.hidden.now.flags world.now }
    ensures length { length scratch.new ≡ length scratch.old }
{
    let checked = check_world(
        pattern.system,
        pattern.cells,
        pattern.hidden,
        world,
        scratch,
    );
    checked.is_ok()
}

// How far a world moves the asked cell to its side, over its denominator; none where that leaves 128 bits.
fn asked_move(question: Question, world: &World) -> Option<i128>
    ensures { IfSome result (λ moved. moved ≡ asked_move_in question world.now) }
{
    let by = move_of(world.moves.as_slice(), question.cell);
    match question.side {
        Side::Above => Some(by),
        Side::Below => by.checked_neg(),
    }
}

// The bound sum of multipliers, if they have one.
fn sum_of(
    pattern: &Pattern<'_>,
    question: Question,
    multipliers: &Multipliers,
    scratch: &mut [i128],
) -> Option<i128>
    requires scratch { length scratch.old ≡ pattern.now.system.now.cells }
    requires asked { question.cell < pattern.now.system.now.cells }
    ensures given { IfSome result (λ _. IsGivenSum pattern.now.system.now pattern.now.cells.now
        pattern.now.hidden.now.flags question.cell question.side multipliers.now) }
    ensures sum { IfSome result (λ sum. sum ≡ spec.bound_sum pattern.now.cells.now pattern.now.hidden.now.flags
        (coefficient (terms_added pattern.now.system.now question.cell question.side multipliers.now))) }
    ensures length { length scratch.new ≡ length scratch.old }
{
    let found = bound_sum(
        pattern.system,
        pattern.cells,
        pattern.hidden,
        question.cell,
        question.side,
        multipliers,
        scratch,
    );
    match found {
        Ok(sum) => Some(sum),
        Err(_) => None,
    }
}
