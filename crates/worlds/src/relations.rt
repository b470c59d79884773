ghost use Rattle.std.specs.Prelude.{◌≡◌, ◌<◌, ◌^◌, length, All, pos};
ghost use Rattle.std.specs.Ordering.{int_eq};
ghost use Rattle.sdc_base.specs.Systems.{NamesCells, form, number_at};
ghost use Rattle.worlds.specs.WorldFaults.{relations_fault};

use crate::faults::WorldFault;
use crate::sums::Sum;
use sdc_base::Relation;

// The first relation that doesn't hold on the numbers of the cells.
pub(crate) fn check_relations(relations: &[Relation], numbers: &[i128]) -> Result<(), WorldFault>
    requires named { All (NamesCells (length numbers.now)) relations.now }
    requires fewer_than_2_32 { length relations.now < 2 ^ 32 }
    ensures { result ≡ relations_fault (number_at numbers.now) 0 relations.now }
{
    for (number, relation) in relations.iter().enumerate() {
        if !holds(relation, numbers) {
            return Err(WorldFault::Relation(number as u32));
        }
    }
    Ok(())
}

// Whether a relation's form is 0 on the numbers of the cells.
fn holds(relation: &Relation, numbers: &[i128]) -> bool
    requires { NamesCells (length numbers.now) relation.now }
    ensures { result ≡ int_eq (form (number_at numbers.now) relation.now) (pos 0) }
{
    let mut sum = Sum::zero();
    for part in relation.parts.as_slice() {
        sum.add(numbers[*part as usize]);
    }
    sum.equals(numbers[relation.total as usize])
}
