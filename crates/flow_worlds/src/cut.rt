ghost use Rattle.std.specs.Prelude.{◌≡◌, ◌<◌, ◌≤◌, ◌^◌, [], All, length, pos, true, false, IfOk};
ghost use Rattle.worlds.specs.NumberLists.{IsListed};
ghost use Rattle.flow_worlds.specs.Searches.{IsSearchOf, IsGone, IsOpenStep, is_reached};
ghost use Rattle.flow_worlds.specs.Cuts.{AddUpToWeights, IsCut, IsOne};
ghost use Rattle.flow_worlds.specs.Cuts as spec;
ghost use Rattle.flow_worlds.specs.Flows.{IsFlow};
ghost use Rattle.flow_worlds.specs.Tasks.{IsTask};

use crate::search::{Search, search_from};
use crate::steps::step_of;
use crate::task::Task;
use sdc_base::{Items, Memory};
use signed_network::is_same;
use std::alloc::Global;
use worlds::Multipliers;

// Multipliers for the relations that a search forward has reached, which doesn't go round, or for those that a search
// backward reaches: where one of them reaches the outside, for those of the other, and else for those of the shorter.
pub(crate) fn cut_of(
    alloc: Global,
    task: &Task<'_>,
    moves: &[i128],
    forward: &Search,
) -> Result<Multipliers, Memory>
    requires task { IsTask task.now }
    requires flow { IsFlow task.now moves.now }
    requires open { IsOpenStep task.now moves.now true task.now.asked }
    requires search { IsSearchOf task.now moves.now true task.now.asked forward.now }
    requires gone { IsGone task.now moves.now true forward.now }
    requires unmet { is_reached forward.now.reached.items task.now.asked.start ≡ false }
    ensures { IfOk result (λ multipliers. IsCut task.now moves.now multipliers) }
{
    let outside = task.system.relations.as_slice().len();
    let asked = task.asked;
    let turned = step_of(asked.cell, task.arcs[asked.cell as usize], !asked.up);
    let backward = search_from(alloc, task, moves, false, turned)?;
    if is_forward_less(forward, &backward, outside) {
        let multipliers = multipliers_of(alloc, task.signs, forward.reached.as_slice(), true)?;
        return Ok(multipliers);
    }
    let multipliers = multipliers_of(alloc, task.signs, backward.reached.as_slice(), false)?;
    Ok(multipliers)
}

// Whether a search forward hasn't reached the outside, and one backward has, or has gone as many steps.
fn is_forward_less(forward: &Search, backward: &Search, outside: usize) -> bool
    requires forward { outside < length forward.now.reached.items }
    requires backward { outside < length backward.now.reached.items }
    ensures forward { result ≡ true → is_reached forward.now.reached.items outside ≡ false }
    ensures backward { result ≡ false → is_reached forward.now.reached.items outside ≡ false
        → is_reached backward.now.reached.items outside ≡ false }
{
    if forward.reached[outside] {
        return false;
    }
    if backward.reached[outside] {
        return true;
    }
    forward.visits.len() <= backward.visits.len()
}

// No multipliers.
pub(crate) fn no_multipliers(alloc: Global) -> Multipliers
    ensures whole { result.den ≡ pos 1 }
    ensures none { result.by_relation ≡ [] }
{
    Multipliers {
        den: 1,
        by_relation: Items::empty(alloc),
    }
}

// A multiplier for each relation that a search has reached.
fn multipliers_of(
    alloc: Global,
    signs: &[bool],
    reached: &[bool],
    forward: bool,
) -> Result<Multipliers, Memory>
    requires points { length signs.now < length reached.now }
    requires fewer_than_2_32 { length signs.now ≤ 2 ^ 30 }
    ensures whole { IfOk result (λ m. m.den ≡ pos 1) }
    ensures listed { IfOk result (λ m. IsListed (length signs.now) m.by_relation) }
    ensures ones { IfOk result (λ m. All (λ one. IsOne one.1) m.by_relation) }
    ensures coefficients { IfOk result (λ m. AddUpToWeights signs.now reached.now forward m.by_relation) }
{
    let mut by_relation = Vec::new(alloc);
    'relations: for (number, sign) in signs.iter().enumerate() {
        if !reached[number] {
            continue;
        }
        by_relation.push((number as u32, multiplier_of(*sign, forward)))?;
    }
    Ok(Multipliers {
        den: 1,
        by_relation: Items::new(by_relation),
    })
}

// The multiplier of a relation with this sign that a search has reached.
fn multiplier_of(sign: bool, forward: bool) -> i128
    ensures { result ≡ spec.multiplier_of sign forward }
{
    if is_same(sign, forward) { -1 } else { 1 }
}
