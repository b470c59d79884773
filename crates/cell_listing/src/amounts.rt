ghost use Rattle.std.specs.Prelude.{◌≡◌, ◌≤◌, ◌^◌, ◌++◌, ◌∷◌, [], decimal, IfOk, OnOk, pos, neg_ℤ, ◌≤ℤ◌, unsigned_abs};
ghost use Rattle.std.specs.Option.{ForSome};
ghost use Rattle.sdc_base.specs.RuleLevels.{figures_of_facts};
ghost use Rattle.sdc_base.specs.Truths.{IsTruth};
ghost use Rattle.cell_listing.specs.Columns as spec;

use crate::words::add_word;
use cost_rule::CostKind;
use plain_text::print_units;
use sdc_base::{CellFacts, Items, Memory, Text};
use std::alloc::Global;

/// Puts an amount, as a release table shows it, behind the fields that are there.
pub(crate) fn add_amount(
    alloc: Global,
    fields: &mut Items<Text>,
    amount: i128,
    decimals: u8,
) -> Result<(), Memory>
    requires low { neg_ℤ (pos (2 ^ 120)) ≤ℤ amount }
    requires decimals { decimals ≤ 13 }
    ensures { OnOk result (fields.new ≡ fields.old ++ spec.amount_text decimals amount ∷ []) }
{
    fields.push(print_units(alloc, size_of(amount), decimals)?)
}

// An amount without its sign. No amount of a job is below 0.
#[tactic(auto, using(crate::proofs::UnsignedAmounts::size_below, crate::proofs::UnsignedAmounts::size_above))]
fn size_of(amount: i128) -> i128
    requires low { neg_ℤ (pos (2 ^ 120)) ≤ℤ amount }
    ensures size { result ≡ pos (unsigned_abs amount) }
    ensures from_zero { pos 0 ≤ℤ result }
{
    if amount < 0 { -amount } else { amount }
}

/// Puts an upper bound behind the fields that are there, and an empty text where there is none.
pub(crate) fn add_bound(
    alloc: Global,
    fields: &mut Items<Text>,
    bound: Option<i128>,
    decimals: u8,
) -> Result<(), Memory>
    requires low { ForSome bound (λ amount. neg_ℤ (pos (2 ^ 120)) ≤ℤ amount) }
    requires decimals { decimals ≤ 13 }
    ensures { OnOk result (fields.new ≡ fields.old ++ spec.bound_text decimals bound ∷ []) }
{
    match bound {
        Some(amount) => add_amount(alloc, fields, amount, decimals),
        None => add_word(alloc, fields, b""),
    }
}

/// What the records make of a cell: its truth, how many records it has, and the two largest contributions.
pub(crate) fn figure_fields(
    alloc: Global,
    facts: &CellFacts,
    decimals: u8,
) -> Result<Items<Text>, Memory>
    requires truth { IsTruth facts.now.truth }
    requires decimals { decimals ≤ 13 }
    ensures fields { IfOk result (λ fields. fields
        ≡ spec.figure_fields decimals (figures_of_facts facts.now)) }
{
    let mut fields = Items::empty(alloc);
    add_amount(alloc, &mut fields, facts.truth, decimals)?;
    add_number(alloc, &mut fields, u64::from(facts.freq))?;
    add_amount(alloc, &mut fields, largest_of(facts), decimals)?;
    add_amount(alloc, &mut fields, second_of(facts), decimals)?;
    Ok(fields)
}

// The largest contribution.
fn largest_of(facts: &CellFacts) -> i128
    ensures value { result ≡ spec.largest (figures_of_facts facts.now) }
    ensures low { neg_ℤ (pos (2 ^ 120)) ≤ℤ result }
{
    facts.tops.sum_of_largest(1)
}

// What the two largest have beside it.
fn second_of(facts: &CellFacts) -> i128
    ensures value { result ≡ spec.second (figures_of_facts facts.now) }
    ensures low { neg_ℤ (pos (2 ^ 120)) ≤ℤ result }
{
    facts.tops.sum_of_largest(2) - facts.tops.sum_of_largest(1)
}

/// The price of a cell: its own, else the cost of its facts.
#[tactic(auto, using(crate::proofs::UnsignedAmounts::same_cost))]
pub(crate) fn price_by(kind: CostKind, price: Option<u64>, facts: &CellFacts) -> u64
    ensures { result ≡ spec.price_by kind price (figures_of_facts facts.now) }
{
    match price {
        Some(price) => price,
        None => kind.cost(facts),
    }
}

/// Puts a whole number behind the fields that are there.
pub(crate) fn add_number(alloc: Global, fields: &mut Items<Text>, number: u64) -> Result<(), Memory>
    ensures { OnOk result (fields.new ≡ fields.old ++ decimal number ∷ []) }
{
    fields.push(number_text(alloc, number)?)
}

/// The text of a whole number.
pub(crate) fn number_text(alloc: Global, number: u64) -> Result<Text, Memory>
    ensures { IfOk result (λ text. text ≡ decimal number) }
{
    Ok(Text::new(number.to_string(alloc)?.into_bytes()))
}
