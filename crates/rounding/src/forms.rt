ghost use Rattle.std.specs.Prelude.{◌≡◌, ◌==◌, ◌≤◌, ◌≤ℤ◌, ◌^◌, neg_ℤ, pos, length};
ghost use Rattle.std.specs.List.{count_by};
ghost use Rattle.sdc_base.specs.Forms as spec;

use sdc_base::Relation;

// How often a relation's form counts a cell.
pub(crate) fn count_of(relation: &Relation, cell: u32) -> i128
    ensures value { result ≡ spec.count_of relation.now cell }
    ensures low { neg_ℤ (pos (2 ^ 32)) ≤ℤ result }
    ensures high { result ≤ℤ pos 1 }
{
    let taken = times_in(relation.parts.as_slice(), cell) as i128;
    if relation.total == cell {
        1 - taken
    } else {
        -taken
    }
}

// How often a cell is among parts.
pub(crate) fn times_in(parts: &[u32], cell: u32) -> usize
    ensures value { result ≡ count_by (λ part. part == cell) parts.now }
    ensures no_more_than_parts { result ≤ length parts.now }
{
    parts.iter().filter(|part| **part == cell).count()
}
