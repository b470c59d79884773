ghost use Rattle.std.specs.Prelude.{◌≡◌, ◌<◌, ◌≤◌, ◌*◌, ◌^◌, ◌*ℤ◌, ◌<ℤ◌, ◌≤ℤ◌, All, pos, IfOk, true, neg_ℤ};
ghost use Rattle.tableau.specs.Steps.{IsReached, IsBlocked};
ghost use Rattle.tableau.specs.TableLaws.{value};
ghost use Rattle.tableau.specs.Problems.{variable_count};
ghost use Rattle.tableau.specs.Tableaus.{IsTableauWalk};
ghost use Rattle.interval_audit.specs.WalkStates.{state_of, objective_of, IsAtPoint, IsAtTarget, IsAtOptimum};
ghost use Rattle.worlds.specs.NumberLists.{terms_of, number_given};
ghost use Rattle.interval_audit.specs.Answers.{HasEnded, asked_move_in};
ghost use Rattle.interval_audit.specs.Inquiries as inquiries;

use crate::answer::{Answer, AskFault, Walk, WidePlace};
use crate::checking::wide_at;
use crate::group::members_of;
use crate::inquiry::Inquiry;
use crate::question::Question;
use crate::readings::{read_multipliers, read_world};
use sdc_base::{Fraction, Memory, Side};
use std::alloc::Global;
use tableau::Tableau;
use worlds::{Move, Multipliers, World};

// The answer where a walk has ended.
pub(crate) fn finish(
    alloc: Global,
    inquiry: &Inquiry<'_, '_>,
    tableau: Tableau,
) -> Result<Answer, AskFault>
    requires problem { tableau.problem ≡ inquiries.problem_for inquiry.now }
    requires ended { HasEnded tableau }
    ensures { inquiries.IsOutcomeOfWalk inquiry.now tableau result }
{
    // for the proof: what is known of a walk
    read_state(&tableau);
    let world = world_of(alloc, inquiry, &tableau)?;
    let num = asked_in(inquiry.question, &world);
    if is_product(num, world.den, inquiry.question.target) {
        return Ok(Answer::Reaches(world));
    }
    stop(alloc, inquiry, tableau, world, num)
}

// Reads where a walk stands, so that it is known.
pub(crate) fn read_state(tableau: &Tableau)
    ensures walked { IsTableauWalk tableau.now }
    ensures short { tableau.now.improved < 2 ^ variable_count tableau.now.problem }
    ensures stands { IsAtPoint (state_of tableau.now) }
    ensures reached { IsReached tableau.now.problem tableau.now.table → IsAtTarget (state_of tableau.now) }
    ensures blocked { IsBlocked tableau.now.problem tableau.now.table → IsAtOptimum (state_of tableau.now) }
    ensures objective { objective_of (state_of tableau.now) ≡ value tableau.now.table }
    ensures bounded { value tableau.now.table ≤ℤ (tableau.now.table.den *ℤ tableau.now.problem.target) }
{
    // for the proof: read, so that what holds of each is known
    let _improved = tableau.improved();
    let _den = tableau.den();
    let _values = tableau.values();
    let _slacks = tableau.slacks();
}

// The world that a walk gives, in lowest terms.
fn world_of(alloc: Global, inquiry: &Inquiry<'_, '_>, tableau: &Tableau) -> Result<World, Memory>
    requires problem { tableau.now.problem
        ≡ inquiries.problem_for inquiry.now }
    requires stands { IsAtPoint (state_of tableau.now) }
    ensures world { IfOk result (λ world. inquiries.IsWorldOfWalk inquiry.now tableau.now world) }
    ensures held { IfOk result (λ world. All (λ term. neg_ℤ (pos (2 ^ 127)) <ℤ term.1) (terms_of world.moves)) }
{
    let members = members_of(
        alloc,
        inquiry.of,
        inquiry.question.cell,
        inquiry.pattern.system.cells,
    )?;
    read_world(alloc, members.as_slice(), tableau.values(), tableau.den())
}

// How far a world moves the asked cell to its side, over its denominator.
fn asked_in(question: Question, world: &World) -> i128
    requires { All (λ term. neg_ℤ (pos (2 ^ 127)) <ℤ term.1) (terms_of world.now.moves) }
    ensures { result ≡ asked_move_in question world.now }
{
    let by = move_of(world.moves.as_slice(), question.cell);
    match question.side {
        Side::Above => by,
        Side::Below => -by,
    }
}

/// What moves give for a cell: of several the last, and 0 where none is given. It goes once through the moves.
pub fn move_of(moves: &[Move], cell: u32) -> i128
    ensures { result ≡ number_given (terms_of moves.now) cell }
{
    let mut by = 0;
    'moves: for one in moves {
        if one.cell == cell {
            by = one.by;
        }
    }
    by
}

// Whether a number is the product of two others.
fn is_product(number: i128, one: i128, other: i128) -> bool
    ensures yes { result ≡ true → number ≡ one *ℤ other }
    ensures no { number ≡ one *ℤ other → result ≡ true }
{
    match one.checked_mul(other) {
        Some(product) => product == number,
        None => false,
    }
}

// The answer where a walk is blocked, and the world that it gives.
fn stop(
    alloc: Global,
    inquiry: &Inquiry<'_, '_>,
    tableau: Tableau,
    world: World,
    num: i128,
) -> Result<Answer, AskFault>
    requires problem { tableau.problem ≡ inquiries.problem_for inquiry.now }
    requires walked { IsTableauWalk tableau }
    requires blocked { IsBlocked tableau.problem tableau.table }
    requires stuck { IsAtOptimum (state_of tableau) }
    requires world { inquiries.IsWorldOfWalk inquiry.now tableau world }
    requires num { num ≡ asked_move_in inquiry.now.question world }
    ensures { inquiries.IsOutcomeOfWalk inquiry.now tableau result }
{
    let multipliers = multipliers_of(alloc, inquiry, &tableau)?;
    let mut scratch = Vec::from_elem(alloc, 0, inquiry.pattern.system.cells as usize)?;
    let wide = wide_at(inquiry, &multipliers, &mut scratch);
    if let Some(cell) = wide {
        let walk = Walk {
            question: inquiry.question,
            tableau,
        };
        return Err(AskFault::Wide(walk, WidePlace::Refutation(cell)));
    }
    let best = Fraction {
        num,
        den: world.den,
    };
    Ok(Answer::Stops {
        best,
        world,
        multipliers,
    })
}

// The multipliers that a blocked walk gives, in lowest terms.
fn multipliers_of(
    alloc: Global,
    inquiry: &Inquiry<'_, '_>,
    tableau: &Tableau,
) -> Result<Multipliers, Memory>
    requires problem { tableau.now.problem
        ≡ inquiries.problem_for inquiry.now }
    requires stuck { IsAtOptimum (state_of tableau.now) }
    ensures { IfOk result (λ read. (ended : IsAtOptimum (state_of tableau.now))
        → inquiries.AreMultipliersOfWalk inquiry.now tableau.now ended.weights read) }
{
    let met = inquiry.met;
    let slacks = tableau.slacks();
    let forms = 2 * met.len();
    let caps = slacks.len() - 1 - forms;
    read_multipliers(alloc, met, slacks, caps, tableau.den())
}
