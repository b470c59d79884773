ghost use Rattle.std.specs.Prelude.{◌≡◌, ◌<◌, ◌≤◌, ◌^◌, ℕ, Bool, List, length, slice_get, IfOk, IfNone, IfSome, Some, true, false};
ghost use Rattle.sdc_base.specs.declared.links.Link.{Link as AnyLink};
ghost use Rattle.sdc_base.specs.Ends.{AreEnds, AreKnown, ends_at};
ghost use Rattle.sdc_base.specs.Links.{AreLinks, Follow, Oppose};
ghost use Rattle.sdc_base.specs.Links as spec;
ghost use Rattle.sdc_base.specs.Signs.{AreSigns, HasNone, sign_of};

use crate::ends::Ends;
use crate::memory::Memory;
use crate::system::System;
use std::alloc::Global;

/// What a relation's sign is tied to.
#[derive(Clone, Copy)]
pub(crate) struct Link {
    /// The number of the relation that it goes by: itself or a lower one.
    pub(crate) to: u32,
    /// Whether it has the same sign as that one, or else the opposite.
    pub(crate) same: bool,
}

// Links the relations that count one cell, cell by cell. None where two are tied otherwise already: then no signs are.
pub(crate) fn links_of(
    alloc: Global,
    system: &System,
    ends: &[Ends],
) -> Result<Option<Vec<Link>>, Memory>
    requires ends { AreEnds system.now.relations ends.now }
    ensures links { IfOk result (λ found. IfSome found (λ links. AreLinks links.items)) }
    ensures each { IfOk result (λ found. IfSome found (λ links. length links.items ≡ length system.now.relations)) }
    ensures opposed { IfOk result (λ found. IfSome found
        (λ links. (signs : List Bool) → Follow signs links.items → (cell : ℕ) → Oppose signs (ends_at ends.now cell))) }
    ensures none { IfOk result (λ found. IfNone found (HasNone system.now.relations)) }
{
    let mut links = each_itself(alloc, system.relations.as_slice().len() as u32)?;
    'cells: for at in ends {
        if !link_ends(*at, &mut links) {
            return Ok(None);
        }
    }
    Ok(Some(links))
}

// Each relation linked to itself alone.
fn each_itself(alloc: Global, count: u32) -> Result<Vec<Link>, Memory>
    ensures links { IfOk result (λ links. AreLinks links.items) }
    ensures each { IfOk result (λ links. length links.items ≡ count) }
    ensures any { IfOk result (λ links. (signs : List Bool) → Follow signs links.items) }
{
    let mut links = Vec::new(alloc);
    'relations: for to in 0..count {
        links.push(Link { to, same: true })?;
    }
    Ok(links)
}

// Links the relations that count a cell. No where they are tied otherwise already.
fn link_ends(ends: Ends, links: &mut Vec<Link>) -> bool
    requires links { AreLinks links.old.items }
    requires known { AreKnown (length links.old.items) ends }
    ensures links { AreLinks links.new.items }
    ensures each { length links.new.items ≡ length links.old.items }
    ensures on { (signs : List Bool) → Follow signs links.old.items → Oppose signs ends → Follow signs links.new.items }
    ensures back { (signs : List Bool) → Follow signs links.new.items → Follow signs links.old.items }
    ensures opposed { result ≡ true → (signs : List Bool) → Follow signs links.new.items → Oppose signs ends }
    ensures none { result ≡ false → (signs : List Bool) → Follow signs links.old.items → Oppose signs ends → ⊥ }
{
    match ends {
        Ends::Two(one, other) => {
            tie(
                one.relation,
                other.relation,
                sign_by_link(one.plus, !other.plus),
                links,
            )
        }
        _ => true,
    }
}

// Ties two relations to the same sign or to opposite ones. No where they are tied otherwise already.
fn tie(one: u32, other: u32, same: bool, links: &mut Vec<Link>) -> bool
    requires links { AreLinks links.old.items }
    requires one { one < length links.old.items }
    requires other { other < length links.old.items }
    ensures links { AreLinks links.new.items }
    ensures each { length links.new.items ≡ length links.old.items }
    ensures on { (signs : List Bool) → Follow signs links.old.items
        → sign_of signs one ≡ spec.sign_by_link same (sign_of signs other) → Follow signs links.new.items }
    ensures back { (signs : List Bool) → Follow signs links.new.items → Follow signs links.old.items }
    ensures tied { result ≡ true → (signs : List Bool) → Follow signs links.new.items
        → sign_of signs one ≡ spec.sign_by_link same (sign_of signs other) }
    ensures none { result ≡ false → (signs : List Bool) → Follow signs links.old.items
        → sign_of signs one ≡ spec.sign_by_link same (sign_of signs other) → ⊥ }
{
    let first = last_link(one, links);
    let second = last_link(other, links);
    let between = sign_by_link(first.same, sign_by_link(same, second.same));
    if first.to == second.to {
        return between;
    }
    if first.to < second.to {
        links[second.to as usize] = Link {
            to: first.to,
            same: between,
        };
    } else {
        links[first.to as usize] = Link {
            to: second.to,
            same: between,
        };
    }
    true
}

// The relation that links lead to from this one in the end, and whether it has the same sign. Each second relation on
// the way is linked past the next one, so that later ways are shorter.
fn last_link(number: u32, links: &mut Vec<Link>) -> Link
    requires links { AreLinks links.old.items }
    requires known { number < length links.old.items }
    ensures links { AreLinks links.new.items }
    ensures each { length links.new.items ≡ length links.old.items }
    ensures on { (signs : List Bool) → Follow signs links.old.items → Follow signs links.new.items }
    ensures back { (signs : List Bool) → Follow signs links.new.items → Follow signs links.old.items }
    ensures tied { (signs : List Bool) → Follow signs links.new.items
        → sign_of signs number ≡ spec.sign_by_link result.same (sign_of signs result.to) }
    ensures last { (link : AnyLink) × (slice_get links.new.items result.to ≡ Some link) × (link.to ≡ result.to) }
    ensures lasts { (root : ℕ) (link : AnyLink) → slice_get links.old.items root ≡ Some link → link.to ≡ root
        → slice_get links.new.items root ≡ Some link }
    ensures within { result.to < length links.new.items }
{
    let mut to = number;
    let mut same = true;
    'steps: while links[to as usize].to != to {
        let next = links[to as usize];
        let past = links[next.to as usize];
        let over = sign_by_link(next.same, past.same);
        links[to as usize] = Link {
            to: past.to,
            same: over,
        };
        same = sign_by_link(same, over);
        to = past.to;
    }
    Link { to, same }
}

// A sign, or the other one where it isn't to be the same.
pub(crate) fn sign_by_link(same: bool, sign: bool) -> bool
    ensures { result ≡ spec.sign_by_link same sign }
{
    if same { sign } else { !sign }
}
