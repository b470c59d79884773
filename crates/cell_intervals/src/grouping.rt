// The components of a hidden set.
ghost use Rattle.std.specs.Prelude.{◌≡◌, ◌≤◌, length, All, IfSome, true};
ghost use Rattle.sdc_base.specs.Components.{AreComponents};
ghost use Rattle.interval_audit.specs.Groups.{most_members};

use sdc_base::{Grouping, Hidden, System, components};
use std::alloc::Global;

// The most hidden cells that a question is about.
const MOST_MEMBERS: u32 = 4000;

// The components of a hidden set, if each is small enough for questions; none also for want of memory.
pub(crate) fn small_components(alloc: Global, system: &System, hidden: &Hidden) -> Option<Grouping>
    requires each { length hidden.now.flags ≡ system.now.cells }
    ensures components { IfSome result
        (λ found. AreComponents system.now.relations hidden.now.flags found.of found.sizes) }
    ensures small { IfSome result (λ found. All (λ size. size ≤ most_members) found.sizes) }
{
    let Ok(grouping) = components(alloc, system, hidden) else {
        return None;
    };
    if !are_small(grouping.sizes.as_slice()) {
        return None;
    }
    Some(grouping)
}

// Whether each of these sizes is one of a component that is small enough.
fn are_small(sizes: &[u32]) -> bool
    ensures { result ≡ true → All (λ size. size ≤ most_members) sizes.now }
{
    sizes.iter().all(|size| *size <= MOST_MEMBERS)
}

// The number of a cell's component, none where it is shown.
pub(crate) fn component_at(of: &[Option<u32>], cell: u32) -> Option<u32> {
    match of.get(cell as usize) {
        Some(number) => *number,
        None => None,
    }
}
