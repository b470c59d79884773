ghost use Rattle.std.specs.Prelude.{◌≡◌, ◌≤◌, true};
ghost use Rattle.primary_rules.specs.Ranges.{IsInRange, AreInRange};

use primary_rules::{keep, level, manual};
use sdc_base::{CellFacts, Few, Rule, Rules, TopList, Tops};
use std::rt::HostRuntime;

fn is_in_range(rule: Rule) -> bool
    ensures { result ≡ true → IsInRange rule }
{
    match rule {
        Rule::Freq { n, r } => 1 <= n && n <= 1000000 && r <= 1000,
        Rule::Nk { n, k } => 1 <= n && n <= 10 && 1 <= k && k <= 100,
        Rule::Percent(p) => 1 <= p && p <= 1000,
        Rule::Pq { p, q } => 1 <= p && p <= 1000 && 1 <= q && q <= 1000,
        Rule::Zero(r) => 1 <= r && r <= 1000000000,
    }
}

fn rules_of(one: Rule, other: Option<Rule>, man: u32) -> Option<Rules>
    ensures { (rules : _) → result ≡ Some rules → AreInRange rules }
{
    if !is_in_range(one) || man > 1000 {
        return None;
    }
    let mut list = Few::empty();
    list.insert(0, one);
    if let Some(rule) = other {
        if !is_in_range(rule) {
            return None;
        }
        list.insert(0, rule);
    }
    Some(Rules {
        list,
        man,
        weighted: false,
    })
}

// The facts of a cell with these contributions of weight 1, as many as the rules look at.
fn facts_of(truth: i128, freq: u32, keep: u8, values: &[i64]) -> CellFacts
    requires at_least_two { 2 ≤ keep }
    requires at_most_ten { keep ≤ 10 }
    ensures truth { result.truth ≡ truth }
    ensures keep { result.tops.keep ≡ keep }
{
    let mut tops = Tops::new(keep, 1);
    for value in values {
        tops.offer(*value, 1);
    }
    CellFacts { truth, freq, tops }
}

// How far up and down a cell must be open, where it is primary.
type Levels = Option<(i128, i128)>;

// The levels by one rule or two.
fn level_by(one: Rule, other: Option<Rule>, truth: i128, freq: u32, values: &[i64]) -> Levels {
    let rules = rules_of(one, other, 20)?;
    if truth < 0 || truth > 100000000000000000000000000000 {
        return None;
    }
    let facts = facts_of(truth, freq, keep(&rules), values);
    let levels = level(&rules, &facts)?;
    Some((levels.up, levels.down))
}

// The levels of a cell of this truth that is declared unsafe.
fn manual_by(man: u32, truth: i128) -> Levels {
    let rules = rules_of(Rule::Percent(1), None, man)?;
    if truth < 0 || truth > 100000000000000000000000000000 {
        return None;
    }
    let levels = manual(&rules, truth);
    Some((levels.up, levels.down))
}

const DOMINANCE: Rule = Rule::Nk { n: 1, k: 75 };

const PERCENT: Rule = Rule::Percent(10);

const FREQUENCY: Rule = Rule::Freq { n: 3, r: 30 };

// The greatest truth of a cell.
const GREATEST: i128 = 100000000000000000000000000000;

// One rule or two, the truth of a cell, how many records it has, its largest contributions, and its levels.
const LEVELS: [(Rule, Option<Rule>, i128, u32, [i64; 3], Levels); 23] = [
    (DOMINANCE, None, 100, 3, [80, 15, 5], Some((7, 7))),
    (PERCENT, None, 100, 3, [80, 15, 5], Some((3, 3))),
    (PERCENT, Some(DOMINANCE), 100, 3, [80, 15, 5], Some((7, 7))),
    (DOMINANCE, Some(PERCENT), 100, 3, [80, 15, 5], Some((7, 7))),
    (DOMINANCE, None, 100, 3, [75, 15, 10], None),
    (PERCENT, None, 100, 3, [80, 12, 8], None),
    (
        Rule::Nk { n: 2, k: 90 },
        None,
        100,
        3,
        [80, 15, 5],
        Some((6, 6)),
    ),
    (Rule::Nk { n: 3, k: 100 }, None, 100, 3, [80, 15, 5], None),
    (FREQUENCY, None, 20, 2, [10, 10, 0], Some((6, 6))),
    (FREQUENCY, None, 30, 3, [10, 10, 10], None),
    (FREQUENCY, None, 0, 0, [0, 0, 0], None),
    (FREQUENCY, None, 0, 1, [0, 0, 0], Some((1, 0))),
    (
        Rule::Freq { n: 3, r: 0 },
        None,
        20,
        2,
        [10, 10, 0],
        Some((1, 1)),
    ),
    (Rule::Percent(1000), None, 5, 1, [5, 0, 0], Some((50, 5))),
    (Rule::Pq { p: 10, q: 100 }, None, 100, 3, [80, 12, 8], None),
    (
        Rule::Pq { p: 11, q: 100 },
        None,
        100,
        3,
        [80, 12, 8],
        Some((1, 1)),
    ),
    (
        Rule::Pq { p: 1, q: 2 },
        None,
        100,
        3,
        [80, 12, 8],
        Some((32, 32)),
    ),
    (
        Rule::Pq { p: 1000, q: 1 },
        None,
        GREATEST,
        1,
        [999999999999999, 0, 0],
        None,
    ),
    (Rule::Zero(5), None, 0, 3, [0, 0, 0], Some((5, 0))),
    (Rule::Zero(5), None, 0, 0, [0, 0, 0], None),
    (Rule::Zero(5), None, 1, 1, [1, 0, 0], None),
    (
        Rule::Zero(5),
        Some(FREQUENCY),
        0,
        1,
        [0, 0, 0],
        Some((5, 0)),
    ),
    (
        Rule::Freq { n: 3, r: 1000 },
        None,
        GREATEST,
        2,
        [0, 0, 0],
        Some((10 * GREATEST, GREATEST)),
    ),
];

#[test]
fn levels_by_rules(rt: HostRuntime) {
    for (one, other, truth, freq, values, wanted) in &LEVELS {
        assert_eq!(rt; level_by(*one, *other, *truth, *freq, values), *wanted);
    }
}

// The percentage for unsafe cells, the truth of a cell, and its levels.
const LEVELS_OF_UNSAFE: [(u32, i128, Levels); 4] = [
    (0, 5, Some((1, 1))),
    (0, 0, Some((1, 0))),
    (20, 117, Some((24, 24))),
    (1000, GREATEST, Some((10 * GREATEST, GREATEST))),
];

#[test]
fn levels_of_cells_declared_unsafe(rt: HostRuntime) {
    for (man, truth, wanted) in &LEVELS_OF_UNSAFE {
        assert_eq!(rt; manual_by(*man, *truth), *wanted);
    }
}
