ghost use Rattle.std.specs.Prelude.{◌≡◌, ◌<◌, ◌∷◌, ◌++◌, [], List, length, map, All, Err, OnOk, IfErr, neg_ℤ};
ghost use Rattle.sdc_base.specs.Forms.{Term, form_times, weighted_forms};
ghost use Rattle.sdc_base.specs.Systems.{NamesCells};
ghost use Rattle.worlds.specs.BoundedNumbers.{numbers_with_terms};

use crate::faults::RefutationFault;
use sdc_base::Relation;

// Adds the forms of relations to the numbers of the cells, each as many times as its multiplier says.
pub(crate) fn add_forms(
    numbers: &mut [i128],
    relations: &[Relation],
    multipliers: &[(u32, i128)],
) -> Result<(), RefutationFault>
    requires cells { All (NamesCells (length numbers.old)) relations.now }
    requires relations { All (λ m. m.0 < length relations.now) multipliers.now }
    ensures length { length numbers.new ≡ length numbers.old }
    ensures ok { OnOk result ((rest : List Term)
        → numbers_with_terms numbers.old (weighted_forms relations.now multipliers.now ++ rest)
        ≡ numbers_with_terms numbers.new rest) }
    ensures err { IfErr result (λ fault. (rest : List Term)
        → numbers_with_terms numbers.old (weighted_forms relations.now multipliers.now ++ rest) ≡ Err fault) }
{
    for one in multipliers {
        add_weighted(numbers, relations, *one)?;
    }
    Ok(())
}

// Adds the form that a multiplier names, as many times as it says.
fn add_weighted(
    numbers: &mut [i128],
    relations: &[Relation],
    multiplier: (u32, i128),
) -> Result<(), RefutationFault>
    requires cells { All (NamesCells (length numbers.old)) relations.now }
    requires relation { multiplier.0 < length relations.now }
    ensures length { length numbers.new ≡ length numbers.old }
    ensures ok { OnOk result ((rest : List Term)
        → numbers_with_terms numbers.old (weighted_forms relations.now (multiplier ∷ []) ++ rest)
        ≡ numbers_with_terms numbers.new rest) }
    ensures err { IfErr result (λ fault. (rest : List Term)
        → numbers_with_terms numbers.old (weighted_forms relations.now (multiplier ∷ []) ++ rest) ≡ Err fault) }
{
    let (number, times) = multiplier;
    add_form(numbers, &relations[number as usize], times)
}

// Adds the form of a relation so many times: the total, and each part taken away.
fn add_form(numbers: &mut [i128], relation: &Relation, times: i128) -> Result<(), RefutationFault>
    requires { NamesCells (length numbers.old) relation.now }
    ensures length { length numbers.new ≡ length numbers.old }
    ensures ok { OnOk result ((rest : List Term)
        → numbers_with_terms numbers.old (form_times times relation.now ++ rest)
        ≡ numbers_with_terms numbers.new rest) }
    ensures err { IfErr result (λ fault. (rest : List Term)
        → numbers_with_terms numbers.old (form_times times relation.now ++ rest) ≡ Err fault) }
{
    add_at(numbers, relation.total, times)?;
    take_parts(numbers, relation.parts.as_slice(), times)
}

// Takes so much from the number of each part in turn.
fn take_parts(numbers: &mut [i128], parts: &[u32], times: i128) -> Result<(), RefutationFault>
    requires { All (λ part. part < length numbers.old) parts.now }
    ensures length { length numbers.new ≡ length numbers.old }
    ensures ok { OnOk result ((rest : List Term)
        → numbers_with_terms numbers.old (map (λ part. (part, neg_ℤ times)) parts.now ++ rest)
        ≡ numbers_with_terms numbers.new rest) }
    ensures err { IfErr result (λ fault. (rest : List Term)
        → numbers_with_terms numbers.old (map (λ part. (part, neg_ℤ times)) parts.now ++ rest) ≡ Err fault) }
{
    for part in parts {
        take_at(numbers, *part, times)?;
    }
    Ok(())
}

// Adds to a cell's number, or names the cell where the sum leaves 128 bits.
pub(crate) fn add_at(numbers: &mut [i128], cell: u32, by: i128) -> Result<(), RefutationFault>
    requires { cell < length numbers.old }
    ensures length { length numbers.new ≡ length numbers.old }
    ensures ok { OnOk result ((rest : List Term)
        → numbers_with_terms numbers.old ((cell, by) ∷ rest) ≡ numbers_with_terms numbers.new rest) }
    ensures err { IfErr result (λ fault. (rest : List Term)
        → numbers_with_terms numbers.old ((cell, by) ∷ rest) ≡ Err fault) }
{
    let place = cell as usize;
    let Some(sum) = numbers[place].checked_add(by) else {
        return Err(RefutationFault::Wide(cell));
    };
    numbers[place] = sum;
    Ok(())
}

// Takes from a cell's number, or names the cell where the difference leaves 128 bits.
fn take_at(numbers: &mut [i128], cell: u32, by: i128) -> Result<(), RefutationFault>
    requires { cell < length numbers.old }
    ensures length { length numbers.new ≡ length numbers.old }
    ensures ok { OnOk result ((rest : List Term)
        → numbers_with_terms numbers.old ((cell, neg_ℤ by) ∷ rest) ≡ numbers_with_terms numbers.new rest) }
    ensures err { IfErr result (λ fault. (rest : List Term)
        → numbers_with_terms numbers.old ((cell, neg_ℤ by) ∷ rest) ≡ Err fault) }
{
    let place = cell as usize;
    let Some(sum) = numbers[place].checked_sub(by) else {
        return Err(RefutationFault::Wide(cell));
    };
    numbers[place] = sum;
    Ok(())
}
