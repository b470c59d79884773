ghost use Rattle.std.specs.Prelude.{◌≡◌, ◌↔◌, ◌≤ℤ◌, ◌<◌, ◌^◌, pos, length, All, IfNone, IfSome, IsTrue};
ghost use Rattle.sdc_base.specs.Systems.{HoldOn, NamesCells, form, number_at};
ghost use Rattle.rounding_audit.specs.ReaderFaults.{IsFirstBroken};

use sdc_base::Relation;

/// The first relation that doesn't hold on values from 0.
pub(crate) fn first_broken(relations: &[Relation], values: &[i128]) -> Option<u32>
    requires named { All (NamesCells (length values.now)) relations.now }
    requires fewer_than_2_32 { length relations.now < 2 ^ 32 }
    requires from_zero { All (λ value. pos 0 ≤ℤ value) values.now }
    ensures first { IfSome result (IsFirstBroken relations.now values.now) }
    ensures none { IfNone result (HoldOn (number_at values.now) relations.now) }
{
    'relations: for (number, relation) in relations.iter().enumerate() {
        if !holds(relation, values) {
            return Some(number as u32);
        }
    }
    None
}

// Whether a relation holds on values from 0: taken off the total one after another, its parts leave nothing.
fn holds(relation: &Relation, values: &[i128]) -> bool
    requires named { NamesCells (length values.now) relation.now }
    requires from_zero { All (λ value. pos 0 ≤ℤ value) values.now }
    ensures { IsTrue result ↔ (form (number_at values.now) relation.now ≡ pos 0) }
{
    let mut left = values[relation.total as usize];
    for part in relation.parts.as_slice() {
        let value = values[*part as usize];
        if value > left {
            return false;
        }
        left -= value;
    }
    left == 0
}
