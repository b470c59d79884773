ghost use Rattle.std.specs.Prelude.{◌≡◌, ◌≤◌, [], List, OnOk, IfOk, ℕ, ℤ};
ghost use Rattle.sdc_base.specs.Roundings.{IsRounding};
ghost use Rattle.rounding.specs.Fixes.{IsRoundingOf, least_left};
ghost use Rattle.rounding.specs.PartialLists.{IsPartial};
ghost use Rattle.rounding.specs.Tasks.{IsProper};
ghost use Rattle.rounding.specs.Searches.{Stops};

use crate::fault::RoundFault;
use crate::partial::Partial;
use sdc_base::{Items, System};
use std::alloc::Global;

// The values of a rounding, by a search that looks at no more than so many lists of choices.
pub(crate) fn search_values(
    alloc: Global,
    system: &System,
    truths: &[i128],
    base: i128,
    nodes: u64,
) -> Result<Items<i128>, RoundFault>
    requires proper { IsProper system.now truths.now base }
    requires nodes { 1 ≤ nodes }
    ensures rounding { IfOk result (λ values. IsRounding system.now truths.now base values) }
    ensures none { result ≡ Err RoundFault.NoRounding → (values : List ℤ) → IsRounding system.now truths.now base values
        → ⊥ }
    ensures limit { (n : ℕ) → result ≡ Err (RoundFault.Nodes n) → (n ≡ nodes) × Stops system.now truths.now base n }
{
    let Ok(mut partial) = Partial::new(alloc, system, truths, base) else {
        return Err(RoundFault::Memory);
    };
    match search(&mut partial, nodes) {
        Ok(()) => Ok(partial.into_values()),
        Err(fault) => Err(fault),
    }
}

// Goes through lists of choices in the order of the search, until one is a rounding, or so many have been looked at.
// Lists that no rounding extends may be left out.
fn search(partial: &mut Partial<'_>, nodes: u64) -> Result<(), RoundFault>
    requires kept { IsPartial partial.old.bounds partial.old.naming.items partial.old.cells.items
        partial.old.steps.items partial.old.viable }
    requires start { partial.old.steps.items ≡ [] }
    requires nodes { 1 ≤ nodes }
    ensures found { OnOk result (IsRoundingOf partial.old.bounds (least_left partial.new.bounds)) }
    ensures none { result ≡ Err RoundFault.NoRounding → (values : List ℤ)
        → IsRoundingOf partial.old.bounds values → ⊥ }
    ensures limit { (n : ℕ) → result ≡ Err (RoundFault.Nodes n)
        → (n ≡ nodes) × Stops partial.old.bounds.system partial.old.bounds.truths partial.old.bounds.base n }
{
    let mut seen: u64 = 0;
    'lists: loop {
        seen += 1;
        if partial.is_viable() {
            if partial.is_whole() {
                return Ok(());
            }
            if seen == nodes {
                return Err(RoundFault::Nodes(nodes));
            }
            let Ok(()) = partial.go_on() else {
                return Err(RoundFault::Memory);
            };
            continue;
        }
        if seen == nodes {
            return Err(RoundFault::Nodes(nodes));
        }
        let Ok(more) = partial.go_beside() else {
            return Err(RoundFault::Memory);
        };
        if !more {
            return Err(RoundFault::NoRounding);
        }
    }
}
