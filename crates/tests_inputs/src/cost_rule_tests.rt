ghost use Rattle.std.specs.Prelude.{◌≡◌};
ghost use Rattle.cost_rule.specs.Costs.{IsTold, AreCosted};

use cost_rule::{CostKind, CostRule, TellsCosts};
use sdc_base::{Cell, CellFacts, Kind, Tops};
use std::cell::Cell as Counter;
use std::rt::HostRuntime;

fn facts(truth: i128, freq: u32) -> CellFacts
    ensures truth { result.truth ≡ truth }
    ensures freq { result.freq ≡ freq }
{
    CellFacts {
        truth,
        freq,
        tops: Tops::new(2, 1),
    }
}

// The cost, and the price of a cell without and with a price of its own.
fn told<F: TellsCosts + Drop>(kind: CostKind, f: F, facts: &CellFacts) -> (u64, u64, u64)
    requires told { IsTold F.may_ask F.may_say f kind }
    requires costed { AreCosted facts.now }
{
    let rule = CostRule::new(kind, f);
    (
        rule.cost(facts),
        rule.price(&priced(None), facts),
        rule.price(&priced(Some(5)), facts),
    )
}

// An empty cell with this price of its own.
fn priced(price: Option<u64>) -> Cell {
    Cell {
        truth: 0,
        low: 0,
        high: None,
        up: 0,
        down: 0,
        kind: Kind::Free,
        price,
    }
}

// What is told of a cell of this truth and so many records, and how often it is asked for; nothing where there is no
// such cell.
fn answers(kind: CostKind, truth: i128, freq: u32) -> Option<((u64, u64, u64), u32)> {
    if truth < 0 || freq > 1000000 {
        return None;
    }
    let calls = Counter::new(0u32);
    let f = |facts: &CellFacts| {
        calls.set(calls.get().saturating_add(1));
        kind.cost(facts)
    };
    let costs = told(kind, f, &facts(truth, freq));
    Some((costs, calls.get()))
}

// What a cost is told by, the truth of a cell, how many records it has, and its cost.
const COSTS: [(CostKind, i128, u32, u64); 9] = [
    (CostKind::Value, 0, 0, 1),
    (CostKind::Value, 20, 2, 21),
    (CostKind::Value, 1099511627774, 2, 1099511627775),
    (CostKind::Value, 1099511627775, 2, 1099511627776),
    (CostKind::Value, 1099511627776, 2, 1099511627776),
    (
        CostKind::Value,
        100000000000000000000000000000,
        2,
        1099511627776,
    ),
    (CostKind::Freq, 20, 0, 1),
    (CostKind::Freq, 20, 1000000, 1000001),
    (CostKind::One, 20, 2, 1),
];

#[test]
fn costs(rt: HostRuntime) {
    for (kind, truth, freq, cost) in &COSTS {
        assert_eq!(rt; answers(*kind, *truth, *freq), Some(((*cost, *cost, 5), 2)));
    }
}
