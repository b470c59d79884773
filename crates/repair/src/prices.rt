ghost use Rattle.std.specs.Prelude.{◌≡◌, length, All, IfOk};
ghost use Rattle.cost_rule.specs.Costs.{AreCosted};
ghost use Rattle.repair.specs.HidingOrder.{prices_of};

use cost_rule::{CostRule, TellsCosts};
use linked_tables::Mark;
use sdc_base::{Cell, Memory};
use std::alloc::Global;

/// The price of each cell, without a unit: its own where it has one, else what its facts cost by the rule.
///
/// There is a mark for each cell, in the order of their numbers from 0, with facts that the rule may be asked about. Its
/// one refusal is want of memory. The rule is asked once for each cell without a price.
///
/// Prices are those of the manual's cost variable; that a cell may have one of its own is argus's own.
pub fn list_prices<F: TellsCosts>(
    alloc: Global,
    cells: &[Cell],
    marks: &[Mark],
    rule: &CostRule<F>,
) -> Result<Vec<u64>, Memory>
    requires one_each { length marks.now ≡ length cells.now }
    requires costed { All (λ mark. AreCosted mark.facts) marks.now }
    ensures { IfOk result (λ prices. prices.items ≡ prices_of rule.now cells.now marks.now) }
{
    let mut prices = Vec::new(alloc);
    for (number, cell) in cells.iter().enumerate() {
        prices.push(rule.price(cell, &marks[number].facts))?;
    }
    Ok(prices)
}
