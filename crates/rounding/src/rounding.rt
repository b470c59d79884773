ghost use Rattle.std.specs.Prelude.{◌≡◌, ◌≢◌, ◌≤◌, ◌+◌, ◌^◌, Bool, List, ℕ, ℤ, IfOk, length};
ghost use Rattle.sdc_base.specs.Roundings.{IsRounding};
ghost use Rattle.sdc_base.specs.Signs.{AreSigns};
ghost use Rattle.rounding.specs.declared.fault.RoundFault.{RoundFault as AnyFault};
ghost use Rattle.rounding.specs.Tasks.{rounded_values};
ghost use Rattle.rounding.specs.Tasks.{IsProper};
ghost use Rattle.rounding.specs.Searches.{Stops, unrounded_count};

use crate::cycles::gone_round;
use crate::fault::RoundFault;
use crate::search::search_values;
use sdc_base::{Items, Memory, System, signs};
use std::alloc::Global;
use std::marker::Model;

/// A rounding: each cell at a multiple of the base, less than one base from its truth, so that every relation holds.
///
/// Contracts see it as the system, the truths, the base and the values.
#[derive(Drop)]
pub struct Rounding<'a> {
    system: &'a System,
    truths: &'a [i128],
    base: i128,
    values: Items<i128>,
}

impl<'a> Model for Rounding<'a> {
    ghost use Rattle.sdc_base.specs.Roundings.{IsRounding};
    ghost use Rattle.rounding.specs.Tasks.{RoundedValues, rounded_values};

    ghost Value = { RoundedValues };

    ghost view = { λ r. rounded_values r.system.now r.truths.now r.base r.values };

    ghost invariant = { λ r. IsRounding r.system.now r.truths.now r.base r.values };
}

impl<'a> Rounding<'a> {
    /// The values, one for each cell.
    pub fn values(&self) -> &[i128]
        ensures values { result.now ≡ self.now.values }
        ensures rounding { IsRounding self.now.system self.now.truths self.now.base self.now.values }
    {
        self.values.as_slice()
    }
}

/// A rounding of truths to a base (zero-restricted controlled rounding; own).
///
/// `truths` has a truth for each cell of `system`, from 0 to 10^29 units, on which the relations hold; `base` is from 1
/// to 10^22 units; `nodes` is how many lists of choices may be looked at where there are no signs, from 1. A truth that
/// is a multiple of the base stays. Which of several roundings is given is free. `Memory` leaves nothing behind.
///
/// Where the relations have signs, as those of a table of one variable and of two flat ones have, each cell is an arc
/// between two points, which are the relations and one more outside. No point has just one cell that isn't a multiple,
/// so from such a cell one can walk on over others until a point comes again. The cells on the way round go up where
/// they are passed along their arcs and down where against, by the least amount at which one of them comes to a
/// multiple. The relations still hold, and fewer cells are left. So there is always a rounding, no list is looked at,
/// and `Memory` is the one refusal. Cells are rounded in ascending number, and at each point a walk goes on over the
/// first other cell that isn't a multiple.
///
/// Else the cells that aren't multiples, in ascending number, are tried at the multiple below and then at the one
/// above. A list of such choices goes on as long as each relation can hold on the numbers left; what a relation forces
/// is fixed before more is chosen, and lists that no rounding extends are left out. `NoRounding` comes only where there
/// is none. `Nodes` comes where so many lists were looked at and none was a rounding, and never where `nodes` is at
/// least twice 2 to the number of cells that aren't multiples.
///
/// With signs there are at most as many walks as cells that aren't multiples. A walk looks at the cells at each of its
/// points, but for those below the cell that is being rounded, until it finds one, and at its own steps for a point
/// that comes again. In the search each cell that is fixed or freed costs one look at each part of each relation that
/// names it, and each relation that has come to one of its extremes one look at each of its parts.
pub fn round<'a>(
    alloc: Global,
    system: &'a System,
    truths: &'a [i128],
    base: i128,
    nodes: u64,
) -> Result<Rounding<'a>, RoundFault>
    requires proper { IsProper system.now truths.now base }
    requires nodes { 1 ≤ nodes }
    ensures value { IfOk result (λ r. r ≡ rounded_values system.now truths.now base r.values) }
    ensures rounding { IfOk result (λ r. IsRounding system.now truths.now base r.values) }
    ensures none { result ≡ Err RoundFault.NoRounding → (values : List ℤ) → IsRounding system.now truths.now base values
        → ⊥ }
    ensures limit { (n : ℕ) → result ≡ Err (RoundFault.Nodes n) → (n ≡ nodes) × Stops system.now truths.now base n }
    ensures enough { 2 ^ (unrounded_count truths.now base + 1) ≤ nodes → (n : ℕ) → result ≢ Err (RoundFault.Nodes n) }
    ensures signed { (signs : List Bool) → AreSigns system.now.relations signs → (fault : AnyFault) → result ≡ Err fault
        → fault ≡ RoundFault.Memory }
{
    match find_values(alloc, system, truths, base, nodes) {
        Ok(values) => Ok(Rounding {
            system,
            truths,
            base,
            values,
        }),
        Err(fault) => Err(fault),
    }
}

// The values of a rounding, by going round cycles where the relations have signs, else by the search.
fn find_values(
    alloc: Global,
    system: &System,
    truths: &[i128],
    base: i128,
    nodes: u64,
) -> Result<Items<i128>, RoundFault>
    requires proper { IsProper system.now truths.now base }
    requires nodes { 1 ≤ nodes }
    ensures rounding { IfOk result (λ values. IsRounding system.now truths.now base values) }
    ensures none { result ≡ Err RoundFault.NoRounding → (values : List ℤ) → IsRounding system.now truths.now base values
        → ⊥ }
    ensures limit { (n : ℕ) → result ≡ Err (RoundFault.Nodes n) → (n ≡ nodes) × Stops system.now truths.now base n }
    ensures signed { (signs : List Bool) → AreSigns system.now.relations signs → (fault : AnyFault) → result ≡ Err fault
        → fault ≡ RoundFault.Memory }
{
    let Ok(found) = signs(alloc, system) else {
        return Err(RoundFault::Memory);
    };
    let Some(signs) = found else {
        return search_values(alloc, system, truths, base, nodes);
    };
    match gone_round(alloc, system, signs.as_slice(), truths, base) {
        Ok(values) => Ok(values),
        Err(Memory) => Err(RoundFault::Memory),
    }
}
