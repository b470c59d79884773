ghost use Rattle.std.specs.Prelude.{◌≡◌, length, All, true, pos};
ghost use Rattle.sdc_base.specs.Systems.{NamesCells, HoldOn, form, number_at};
ghost use Rattle.rounding.specs.Tasks.{IsProper};
ghost use Rattle.sdc_base.specs.Truths.{IsTruth};

use fixture_cells::{TWO_BY_TWO, system_of};
use rounding::{RoundFault, round};
use sdc_base::{Relation, System};
use std::alloc::Global;
use std::rt::HostRuntime;
use std::test::Fail;

// Relations, each a total and its parts, and a truth for each cell.
#[derive(Clone, Copy)]
struct Table<'a> {
    relations: &'a [(u32, &'a [u32])],
    truths: &'a [i128],
}

// The table 3 4 / 6 2 with its margins.
const COUNTS: Table<'static> = Table {
    relations: &TWO_BY_TWO,
    truths: &[15, 9, 6, 7, 3, 4, 8, 6, 2],
};

// The table 1 1 / 1 1 with its margins.
const ONES: Table<'static> = Table {
    relations: &TWO_BY_TWO,
    truths: &[4, 2, 2, 2, 1, 1, 2, 1, 1],
};

// A total of the greatest truth, whose parts are a unit and the rest.
const GREATEST: Table<'static> = Table {
    relations: &[(0, &[1, 2])],
    truths: &[
        100_000_000_000_000_000_000_000_000_000,
        1,
        99_999_999_999_999_999_999_999_999_999,
    ],
};

// Two, two and three codes with 1 at seven places, whose lines with sum 2 form an odd cycle.
const ODD_CYCLE: Table<'static> = Table {
    relations: &[
        (0, &[12, 24]),
        (0, &[4, 8]),
        (0, &[1, 2, 3]),
        (1, &[13, 25]),
        (1, &[5, 9]),
        (2, &[14, 26]),
        (2, &[6, 10]),
        (3, &[15, 27]),
        (3, &[7, 11]),
        (4, &[16, 28]),
        (4, &[5, 6, 7]),
        (5, &[17, 29]),
        (6, &[18, 30]),
        (7, &[19, 31]),
        (8, &[20, 32]),
        (8, &[9, 10, 11]),
        (9, &[21, 33]),
        (10, &[22, 34]),
        (11, &[23, 35]),
        (12, &[16, 20]),
        (12, &[13, 14, 15]),
        (13, &[17, 21]),
        (14, &[18, 22]),
        (15, &[19, 23]),
        (16, &[17, 18, 19]),
        (20, &[21, 22, 23]),
        (24, &[28, 32]),
        (24, &[25, 26, 27]),
        (25, &[29, 33]),
        (26, &[30, 34]),
        (27, &[31, 35]),
        (28, &[29, 30, 31]),
        (32, &[33, 34, 35]),
    ],
    truths: &[
        7, 2, 3, 2, 4, 2, 1, 1, 3, 0, 2, 1, 4, 1, 1, 2, 2, 1, 0, 1, 2, 0, 1, 1, 3, 1, 2, 0, 2, 1,
        1, 0, 1, 0, 1, 0,
    ],
};

fn system_in(alloc: Global, table: Table<'_>) -> Result<Option<System>, Fail> {
    Ok(system_of(alloc, table.truths.len(), table.relations)?)
}

// Whether a relation holds on numbers, by a sum within 128 bits.
fn holds(relation: &Relation, numbers: &[i128]) -> bool
    requires { NamesCells (length numbers.now) relation.now }
    ensures { result ≡ true → form (number_at numbers.now) relation.now ≡ pos 0 }
{
    let mut sum: i128 = 0;
    'parts: for part in relation.parts.as_slice() {
        let Some(more) = sum.checked_add(numbers[*part as usize]) else {
            return false;
        };
        sum = more;
    }
    sum == numbers[relation.total as usize]
}

fn all_hold(relations: &[Relation], numbers: &[i128]) -> bool
    requires { All (NamesCells (length numbers.now)) relations.now }
    ensures { result ≡ true → HoldOn (number_at numbers.now) relations.now }
{
    'relations: for relation in relations {
        if !holds(relation, numbers) {
            return false;
        }
    }
    true
}

fn are_truths(truths: &[i128]) -> bool
    ensures { result ≡ true → All IsTruth truths.now }
{
    'truths: for truth in truths {
        if *truth < 0 {
            return false;
        }
        if *truth > 100_000_000_000_000_000_000_000_000_000 {
            return false;
        }
    }
    true
}

// Whether a rounding can be asked for.
fn is_proper(system: &System, truths: &[i128], base: i128) -> bool
    ensures { result ≡ true → IsProper system.now truths.now base }
{
    if base < 1 {
        return false;
    }
    if base > 10_000_000_000_000_000_000_000 {
        return false;
    }
    if truths.len() != system.cells as usize {
        return false;
    }
    if !are_truths(truths) {
        return false;
    }
    all_hold(system.relations.as_slice(), truths)
}

// Whether each value is a multiple of the base, less than one base from its truth.
fn are_adjacent(truths: &[i128], values: &[i128], base: i128) -> bool {
    if base < 1 || truths.len() != values.len() {
        return false;
    }
    for (truth, value) in truths.iter().zip(values) {
        let Some(apart) = value.checked_sub(*truth) else {
            return false;
        };
        if *value % base != 0 || apart >= base || apart <= -base {
            return false;
        }
    }
    true
}

// Whether values are a rounding, looked at anew.
fn is_rounding(system: &System, truths: &[i128], values: &[i128], base: i128) -> bool {
    if values.len() != system.cells as usize {
        return false;
    }
    are_adjacent(truths, values, base) && all_hold(system.relations.as_slice(), values)
}

// The values of a rounding, or why there is none; nothing where a rounding can't be asked for.
fn values_of(
    alloc: Global,
    system: &System,
    truths: &[i128],
    base: i128,
    nodes: u64,
) -> Result<Option<Result<Vec<i128>, RoundFault>>, Fail> {
    if nodes < 1 || !is_proper(system, truths, base) {
        return Ok(None);
    }
    match round(alloc, system, truths, base, nodes) {
        Ok(rounding) => Ok(Some(Ok(rounding.values().to_vec(alloc)?))),
        Err(fault) => Ok(Some(Err(fault))),
    }
}

// What becomes of a rounding of a table; nothing where it can't be asked for.
fn rounded_in(
    alloc: Global,
    table: Table<'_>,
    base: i128,
    nodes: u64,
) -> Result<Option<Result<Vec<i128>, RoundFault>>, Fail> {
    let Some(system) = system_in(alloc, table)? else {
        return Ok(None);
    };
    values_of(alloc, &system, table.truths, base, nodes)
}

// Whether values are a rounding of a table, looked at anew; to the base 1 they are its truths.
fn is_rounding_in(
    alloc: Global,
    table: Table<'_>,
    values: &[i128],
    base: i128,
) -> Result<bool, Fail> {
    let Some(system) = system_in(alloc, table)? else {
        return Ok(false);
    };
    Ok(is_rounding(&system, table.truths, values, base) && (base != 1 || values == table.truths))
}

// Whether a table is rounded.
fn is_rounded(alloc: Global, table: Table<'_>, base: i128, nodes: u64) -> Result<bool, Fail> {
    match rounded_in(alloc, table, base, nodes)? {
        Some(Ok(values)) => is_rounding_in(alloc, table, values.as_slice(), base),
        _ => Ok(false),
    }
}

// Tables with their bases and the most nodes that are looked at.
const ROUNDED: [(Table<'static>, i128, u64); 3] = [
    (COUNTS, 5, 512),
    (COUNTS, 1, 2),
    (GREATEST, 10_000_000_000_000_000_000_000, 8),
];

#[test]
fn tables_with_roundings(rt: HostRuntime) -> Result<(), Fail> {
    let alloc = rt.alloc();
    for (table, base, nodes) in &ROUNDED {
        assert!(rt; is_rounded(alloc, *table, *base, *nodes)?);
    }
    Ok(())
}

const ROUNDED_ONES: [i128; 9] = [4, 2, 2, 2, 2, 0, 2, 0, 2];

// The first cell that isn't a multiple goes up, and then down, up and down round the other three: no list is looked at.
#[test]
fn ones_go_round_once(rt: HostRuntime) -> Result<(), Fail> {
    let found = rounded_in(rt.alloc(), ONES, 2, 1)?;
    assert!(rt; matches!(&found, Some(Ok(values)) if values.as_slice() == ROUNDED_ONES.as_slice()));
    Ok(())
}

// Values of the counts to base 5, and whether they are a rounding. Each at its nearest multiple isn't: the first row
// has 5, and 5 and 5 in it.
const JUDGED: [([i128; 9], bool); 2] = [
    ([15, 10, 5, 5, 5, 5, 10, 5, 0], false),
    ([15, 10, 5, 5, 5, 0, 10, 5, 5], true),
];

#[test]
fn nearest_multiples_are_none(rt: HostRuntime) -> Result<(), Fail> {
    let alloc = rt.alloc();
    for (values, wanted) in &JUDGED {
        assert_eq!(rt; is_rounding_in(alloc, COUNTS, values, 5)?, *wanted);
    }
    Ok(())
}

// How many nodes are looked at, and why the odd cycle has no rounding to base 2.
const NONE_OF_ODD_CYCLE: [(u64, RoundFault); 2] = [
    (1, RoundFault::Nodes(1)),
    (524_288, RoundFault::NoRounding),
];

#[test]
fn odd_cycle_has_none(rt: HostRuntime) -> Result<(), Fail> {
    let alloc = rt.alloc();
    for (nodes, why) in &NONE_OF_ODD_CYCLE {
        assert!(rt; rounded_in(alloc, ODD_CYCLE, 2, *nodes)? == Some(Err(*why)));
    }
    Ok(())
}
