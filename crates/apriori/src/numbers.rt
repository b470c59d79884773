ghost use Rattle.std.specs.Prelude.{◌≡◌, ◌<◌, ◌≤◌, ◌^◌, IfOk, Ok, length, pos, ◌≤ℤ◌};
ghost use Rattle.std.specs.Option.{ForSome};
ghost use Rattle.sdc_base.specs.Answers.{Gives};
ghost use Rattle.sdc_base.specs.Numbers as numbers;
ghost use Rattle.apriori.specs.Faults.{fault_itself};
ghost use Rattle.apriori.specs.Priors.{IsPrice, CanBeLevels, most_units};
ghost use Rattle.apriori.specs.Statements as statements;

use crate::faults::PriorWhy;
use crate::fields::Fields;
use crate::statement::Bounds;
use plain_text::{number_in, read_units};
use sdc_base::Levels;

/// The price in the next field.
#[tactic(auto, unfolding(crate::specs::Statements::price_at))]
pub(crate) fn price_at(fields: &mut Fields) -> Result<u64, PriorWhy>
    ensures exact { Gives fault_itself (λ price. price) result (statements.price_at fields.old) }
    ensures price { IfOk result IsPrice }
{
    let Some(field) = fields.next_field() else {
        return Err(PriorWhy::BadNumber);
    };
    let Some(price) = number_in(1, 1099511627776, field) else {
        return Err(PriorWhy::BadNumber);
    };
    Ok(price)
}

/// The levels in the next two fields, the lower one first.
#[tactic(auto, unfolding(crate::specs::Statements::levels_at))]
pub(crate) fn levels_at(decimals: u8, fields: &mut Fields) -> Result<Levels, PriorWhy>
    requires { decimals ≤ 13 }
    ensures exact { Gives fault_itself (λ levels. levels) result (statements.levels_at decimals fields.old) }
    ensures levels { IfOk result CanBeLevels }
{
    let down = units_at(0, decimals, fields)?;
    let up = units_at(1, decimals, fields)?;
    Ok(Levels { up, down })
}

/// The bounds in the next two fields, the lower one first.
#[tactic(auto, unfolding(crate::specs::Statements::bounds_at))]
pub(crate) fn bounds_at(decimals: u8, fields: &mut Fields) -> Result<Bounds, PriorWhy>
    requires { decimals ≤ 13 }
    ensures exact { Gives fault_itself (λ bounds. bounds) result (statements.bounds_at decimals fields.old) }
    ensures low { IfOk result (λ bounds. pos 0 ≤ℤ bounds.low) }
    ensures high { IfOk result (λ bounds. bounds.high ≤ℤ pos most_units) }
{
    let low = units_at(0, decimals, fields)?;
    let high = units_at(0, decimals, fields)?;
    Ok(Bounds { low, high })
}

// The number of units in the next field, from the least one on.
#[tactic(auto, unfolding(crate::specs::Statements::units_at))]
fn units_at(least: i128, decimals: u8, fields: &mut Fields) -> Result<i128, PriorWhy>
    requires { decimals ≤ 13 }
    ensures exact { Gives fault_itself (λ units. (units, fields.new)) result
        (statements.units_at least decimals fields.old) }
    ensures low { IfOk result (λ units. least ≤ℤ units) }
    ensures high { IfOk result (λ units. units ≤ℤ pos most_units) }
{
    let Some(field) = fields.next_field() else {
        return Err(PriorWhy::BadNumber);
    };
    let Some(units) = units_from(least, decimals, field) else {
        return Err(PriorWhy::BadNumber);
    };
    Ok(units)
}

// The number of units that a field writes, from the least one to the greatest.
fn units_from(least: i128, decimals: u8, field: &[u8]) -> Option<i128>
    requires decimals { decimals ≤ 13 }
    requires fewer_than_2_32 { length field.now < 2 ^ 32 }
    ensures value { result ≡ statements.units_from least (numbers.read_units field.now decimals) }
    ensures low { ForSome result (λ units. least ≤ℤ units) }
    ensures high { ForSome result (λ units. units ≤ℤ pos most_units) }
{
    match read_units(field, decimals) {
        Ok(units) => in_range(least, units),
        Err(_) => None,
    }
}

// A number of units, unless it is below the least or above the greatest one.
fn in_range(least: i128, units: i128) -> Option<i128>
    ensures value { result ≡ statements.units_from least (Ok units) }
    ensures low { ForSome result (λ units. least ≤ℤ units) }
    ensures high { ForSome result (λ units. units ≤ℤ pos most_units) }
{
    if units < least || units > 100000000000000000000000000000 {
        return None;
    }
    Some(units)
}
