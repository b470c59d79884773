ghost use Rattle.std.specs.Prelude.{◌≡◌, ◌≤◌, ◌++◌, ◌∷◌, [], List, pos, ◌≤ℤ◌};
ghost use Rattle.std.specs.Prelude.{◌+ℤ◌};
ghost use Rattle.std.specs.Int.{saturate_signed, w128};
ghost use Rattle.sdc_base.specs.Sums.{weighted_value};
ghost use Rattle.sdc_base.specs.Largest.{contribution};
ghost use Rattle.sdc_base.specs.LargestKept.{KeepsLargest};
ghost use Rattle.sdc_base.specs.declared.tops.Unit.{Unit as Contribution};
ghost use Rattle.sdc_base.specs.declared.rows.Row.{Row as Record};
ghost use Rattle.tabulate.specs.MarkRecords.{HoldsRecords, settings_of};

use linked_tables::Mark;
use sdc_base::{CellFacts, Row, TopList, Tops, weighted_value};

/// Gives a record to the mark of a cell. The sum of a million records has room.
pub(crate) fn add(mark: &mut Mark, row: &Row)
    requires from_zero { pos 0 ≤ℤ row.now.value }
    requires heavy { mark.old.facts.tops.scale ≤ row.now.weight }
    ensures given { (rows : List Record) → HoldsRecords mark.old rows → HoldsRecords mark.new (rows ++ row.now ∷ []) }
    ensures kept { settings_of mark.new ≡ settings_of mark.old }
{
    let facts = &mut mark.facts;
    facts.truth = sum_with_row(facts.truth, row);
    facts.freq = facts.freq.saturating_add(1);
    offer(&mut facts.tops, row);
}

// The sum with a record more.
fn sum_with_row(sum: i128, row: &Row) -> i128
    ensures { result ≡ saturate_signed w128 (sum +ℤ weighted_value row.now) }
{
    sum.saturating_add(weighted_value(row))
}

// Offers a record's contribution.
fn offer(tops: &mut Tops, row: &Row)
    requires heavy { tops.old.scale ≤ row.now.weight }
    ensures tells { (units : List Contribution) → KeepsLargest tops.old units
        → KeepsLargest tops.new (units ++ contribution row.now.value row.now.weight ∷ []) }
    ensures keep { tops.new.keep ≡ tops.old.keep }
    ensures scale { tops.new.scale ≡ tops.old.scale }
{
    tops.offer(row.value, row.weight);
}

/// Gives what another mark was given to the mark of a cell.
pub(crate) fn join(mark: &mut Mark, other: &Mark)
    requires keep { mark.old.facts.tops.keep ≤ other.now.facts.tops.keep }
    requires scale { mark.old.facts.tops.scale ≤ other.now.facts.tops.scale }
    ensures given { (rows more : List Record) → HoldsRecords mark.old rows → HoldsRecords other.now more
        → HoldsRecords mark.new (rows ++ more) }
    ensures kept { settings_of mark.new ≡ settings_of mark.old }
{
    let facts = &mut mark.facts;
    facts.truth = sum_of_both(facts.truth, other.facts.truth);
    facts.freq = facts.freq.saturating_add(other.facts.freq);
    facts.tops.join(&other.facts.tops);
}

// The sum of two.
fn sum_of_both(sum: i128, more: i128) -> i128
    ensures { result ≡ saturate_signed w128 (sum +ℤ more) }
{
    sum.saturating_add(more)
}

/// A mark that was given the same.
pub(crate) fn copy_of(mark: &Mark) -> Mark
    ensures given { (rows : List Record) → HoldsRecords mark.now rows → HoldsRecords result rows }
    ensures kept { settings_of result ≡ settings_of mark.now }
{
    Mark {
        facts: CellFacts {
            truth: mark.facts.truth,
            freq: mark.facts.freq,
            tops: mark.facts.tops.copy(),
        },
        hidden: mark.hidden,
    }
}
