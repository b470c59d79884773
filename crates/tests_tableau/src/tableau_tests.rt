ghost use Rattle.std.specs.Prelude.{◌<◌};

use crate::form_check::is_well_formed;
use sdc_base::{Items, Memory};
use std::alloc::Global;
use std::rt::HostRuntime;
use std::test::Fail;
use tableau::{LinRow, Problem, Step, Tableau};

fn row(alloc: Global, entries: &[(u32, i128)], bound: i128) -> Result<LinRow, Memory> {
    Ok(LinRow {
        entries: Items::new(entries.to_vec(alloc)?),
        bound,
    })
}

fn problem(
    alloc: Global,
    columns: u32,
    rows: Vec<LinRow>,
    objective: &[(u32, i128)],
    target: i128,
) -> Result<Problem, Memory> {
    Ok(Problem {
        columns,
        rows: Items::new(rows),
        objective: Items::new(objective.to_vec(alloc)?),
        target,
    })
}

// The tableau that a well-formed problem starts with.
fn started(alloc: Global, problem: Problem) -> Result<Tableau, Fail> {
    if !is_well_formed(&problem) {
        return Err(Fail::new("the problem isn't well formed"));
    }
    Ok(Tableau::start(alloc, problem)?)
}

// What the next step comes to, where it can be counted.
fn next_step(tableau: &mut Tableau) -> Result<Step, Fail> {
    if tableau.improved() == u64::MAX {
        return Err(Fail::new("no more steps can be counted"));
    }
    Ok(tableau.improve()?)
}

// Whether the next steps come to these.
fn makes_steps(tableau: &mut Tableau, steps: &[Step]) -> Result<bool, Fail> {
    for wanted in steps {
        if next_step(tableau)? != *wanted {
            return Ok(false);
        }
    }
    Ok(true)
}

// Whether this den, these values of the columns and these numbers at the slacks are read off.
fn has_table(tableau: &Tableau, den: i128, values: &[i128], slacks: &[i128]) -> bool {
    tableau.den() == den && tableau.values() == values && tableau.slacks() == slacks
}

// A table of a walk: what is read off of it, and what the step from it comes to.
struct Table {
    den: i128,
    values: &'static [i128],
    slacks: &'static [i128],
    step: Step,
}

// Whether this is the table, and the next step comes to that.
fn passes(tableau: &mut Tableau, table: &Table) -> Result<bool, Fail> {
    let same = has_table(tableau, table.den, table.values, table.slacks);
    Ok(same && next_step(tableau)? == table.step)
}

// Two rows whose exchange needs the square of 2^100.
fn wide_rows(alloc: Global) -> Result<Problem, Memory> {
    let wide = 1i128 << 100;
    let mut rows = Vec::new(alloc);
    rows.push(row(alloc, &[(0, wide), (1, 1)], 1)?)?;
    rows.push(row(alloc, &[(0, 1), (1, wide)], 1)?)?;
    problem(alloc, 2, rows, &[(0, 1), (1, 1)], wide)
}

#[test]
fn first_step_is_wide(rt: HostRuntime) -> Result<(), Fail> {
    let mut tableau = started(rt.alloc(), wide_rows(rt.alloc())?)?;
    let step = next_step(&mut tableau)?;
    assert!(rt;
        step == Step::Wide { row: 3, column: 1 } || step == Step::Wide { row: 4, column: 5 }
    );
    assert_eq!(rt; (tableau.improved(), tableau.can_improve()), (0, true));
    assert!(rt; has_table(&tableau, 1, &[0, 0], &[0, 0, 0]));
    Ok(())
}

fn one_row(alloc: Global, target: i128) -> Result<Problem, Memory> {
    let mut rows = Vec::new(alloc);
    rows.push(row(alloc, &[(0, 2)], 4)?)?;
    problem(alloc, 1, rows, &[(0, 1)], target)
}

#[test]
fn target_is_reached(rt: HostRuntime) -> Result<(), Fail> {
    let mut tableau = started(rt.alloc(), one_row(rt.alloc(), 1)?)?;
    assert!(rt; tableau.can_improve());
    assert!(rt; makes_steps(&mut tableau, &[Step::Improved, Step::Reached])?);
    assert_eq!(rt; (tableau.improved(), tableau.can_improve()), (1, false));
    assert!(rt; has_table(&tableau, 1, &[1], &[0, 1]));
    Ok(())
}

#[test]
fn blocked_below_the_target(rt: HostRuntime) -> Result<(), Fail> {
    let mut tableau = started(rt.alloc(), one_row(rt.alloc(), 3)?)?;
    assert!(rt; makes_steps(&mut tableau, &[Step::Improved, Step::Blocked])?);
    assert!(rt; !tableau.can_improve());
    assert!(rt; has_table(&tableau, 2, &[4], &[1, 0]));
    Ok(())
}

// 2 y0 + y1 <= 0, 2 y1 <= 0, -2 y0 + y1 <= 0; 3 y0 + 3 y1 is to come to 3. The slacks are 2, 3, 4 and 5. The tables of
// its walk, by hand, each row as its numbers at the other two and its value:
//
//     den 1         0    1             den 2         2    1             den 4         2    3
//     2             2    1    0        0             1    1    0        0             2   -1    0
//     3             0    2    0        3             0    4    0        1             0    2    0
//     4            -2    1    0        4             2    4    0        4             4   -4    0
//     5             3    3    3        5            -3    3    6        5            -6   -3   12
//     objective    -3   -3    0        objective     3   -3    0        objective     6    3    0
//
// At first columns 0 and 1 tie, and column 0 comes in; members 2 and 5 have a number above 0 there, and 0 / 2 is less
// than 3 / 3. Then column 1 comes in, at the numbers 1, 4 and 4 of the members 0, 3 and 4 with the value 0. At slack 2
// their lists have 1 / 1, 0 / 4 and 2 / 4, so member 3 leaves. The exchange gives den 8 and even numbers, which are
// halved. Where member 0 left the answer would be the slacks 3, 0, 0, 0 over 1, and where member 4 left 9, 0, 3, 0 over
// 4.
fn degenerate(alloc: Global) -> Result<Problem, Memory> {
    let mut rows = Vec::new(alloc);
    rows.push(row(alloc, &[(0, 2), (1, 1)], 0)?)?;
    rows.push(row(alloc, &[(1, 2)], 0)?)?;
    rows.push(row(alloc, &[(0, -2), (1, 1)], 0)?)?;
    problem(alloc, 2, rows, &[(0, 3), (1, 3)], 3)
}

// The tables of the walk above.
const TIES: [Table; 3] = [
    Table {
        den: 1,
        values: &[0, 0],
        slacks: &[0, 0, 0, 0],
        step: Step::Improved,
    },
    Table {
        den: 2,
        values: &[0, 0],
        slacks: &[3, 0, 0, 0],
        step: Step::Improved,
    },
    Table {
        den: 4,
        values: &[0, 0],
        slacks: &[6, 3, 0, 0],
        step: Step::Blocked,
    },
];

#[test]
fn ties_are_broken_by_the_slacks(rt: HostRuntime) -> Result<(), Fail> {
    let mut tableau = started(rt.alloc(), degenerate(rt.alloc())?)?;
    for table in &TIES {
        assert!(rt; passes(&mut tableau, table)?);
    }
    Ok(())
}

// The form of a relation between two hidden cells, total less parts, at most 0, and its opposite. Both cells are parts;
// a cell has a column for its move up and behind it one for its move down.
fn push_relation(alloc: Global, rows: &mut Vec<LinRow>, one: u32, other: u32) -> Result<(), Memory>
    requires one { one < 8 }
    requires other { other < 8 }
{
    let form = [(one, -1), (one + 1, 1), (other, -1), (other + 1, 1)];
    let negated = [(one, 1), (one + 1, -1), (other, 1), (other + 1, -1)];
    rows.push(row(alloc, &form, 0)?)?;
    rows.push(row(alloc, &negated, 0)?)?;
    Ok(())
}

// How far the first of four hidden cells in two rows and two columns, with the truths 20, 50, 30 and 40, may rise, up
// to 6.
fn four_cells(alloc: Global) -> Result<Problem, Memory> {
    let mut rows = Vec::new(alloc);
    rows.push(row(alloc, &[(1, 1)], 20)?)?;
    rows.push(row(alloc, &[(3, 1)], 50)?)?;
    rows.push(row(alloc, &[(5, 1)], 30)?)?;
    rows.push(row(alloc, &[(7, 1)], 40)?)?;
    push_relation(alloc, &mut rows, 0, 4)?;
    push_relation(alloc, &mut rows, 2, 6)?;
    push_relation(alloc, &mut rows, 0, 2)?;
    push_relation(alloc, &mut rows, 4, 6)?;
    problem(alloc, 8, rows, &[(0, 1), (1, -1)], 6)
}

// The tables are those that `bench/walks/exact.py` prints: it solves the rows for each basis by fractions, makes no
// exchange, and knows the choice of what comes in and leaves from the definition alone.
const THIRTEEN_RECORDS: [Table; 5] = [
    Table {
        den: 1,
        values: &[0, 0, 0, 0, 0, 0, 0, 0],
        slacks: &[0, 0, 0, 0, 0, 0, 0, 0, 0, 0, 0, 0, 0],
        step: Step::Improved,
    },
    Table {
        den: 1,
        values: &[0, 0, 0, 0, 0, 0, 0, 0],
        slacks: &[0, 0, 0, 0, 0, 0, 0, 0, 0, 1, 0, 0, 0],
        step: Step::Improved,
    },
    Table {
        den: 1,
        values: &[0, 0, 0, 0, 0, 0, 0, 0],
        slacks: &[0, 0, 0, 0, 0, 0, 1, 0, 0, 1, 0, 0, 0],
        step: Step::Improved,
    },
    Table {
        den: 1,
        values: &[0, 0, 0, 0, 0, 0, 0, 0],
        slacks: &[0, 0, 0, 0, 0, 0, 1, 0, 0, 1, 0, 1, 0],
        step: Step::Improved,
    },
    Table {
        den: 1,
        values: &[6, 0, 0, 6, 0, 6, 6, 0],
        slacks: &[0, 0, 0, 0, 0, 0, 0, 0, 0, 0, 0, 0, 1],
        step: Step::Reached,
    },
];

#[test]
fn question_of_thirteen_records_is_walked(rt: HostRuntime) -> Result<(), Fail> {
    let mut tableau = started(rt.alloc(), four_cells(rt.alloc())?)?;
    for table in &THIRTEEN_RECORDS {
        assert!(rt; passes(&mut tableau, table)?);
    }
    assert_eq!(rt; tableau.improved(), 4);
    Ok(())
}

// Row i is twice 10^(i - j) for each column j below i, and 1 at i itself, with the bound 100^(i - 1).
fn steep_row(alloc: Global, i: u32) -> Result<LinRow, Memory>
    requires { i < 8 }
{
    let mut entries = Vec::new(alloc);
    for j in 0..8u32 {
        if j < i {
            entries.push((j, 2 * POWERS[(i - j) as usize]))?;
        }
        if j == i {
            entries.push((j, 1))?;
        }
    }
    Ok(LinRow {
        entries: Items::new(entries),
        bound: SQUARES[i as usize],
    })
}

const POWERS: [i128; 8] = [1, 10, 100, 1000, 10000, 100000, 1000000, 10000000];

const SQUARES: [i128; 8] = [
    1,
    100,
    10000,
    1000000,
    100000000,
    10000000000,
    1000000000000,
    100000000000000,
];

fn steep(alloc: Global, target: i128) -> Result<Problem, Memory> {
    let mut rows = Vec::new(alloc);
    let mut objective = Vec::new(alloc);
    for i in 0..8u32 {
        rows.push(steep_row(alloc, i)?)?;
        objective.push((i, POWERS[(7 - i) as usize]))?;
    }
    Ok(Problem {
        columns: 8,
        rows: Items::new(rows),
        objective: Items::new(objective),
        target,
    })
}

// Makes steps as long as there are any, but no more than 131,073, and says why there is none at last.
fn last_step(tableau: &mut Tableau) -> Result<Step, Memory> {
    for _ in 0..131073 {
        if tableau.improved() == u64::MAX {
            break;
        }
        let step = tableau.improve()?;
        if step != Step::Improved {
            return Ok(step);
        }
    }
    Ok(Step::Improved)
}

// Whether the last column comes to 10^14.
fn is_steepest(tableau: &Tableau) -> bool {
    tableau.values().last().copied() == tableau.den().checked_mul(100000000000000)
}

// Of the 256 corners of a steep problem in 8 columns the rule of the least number passes every one (Klee and Minty
// 1972).
#[test]
fn steep_problem_goes_through_all_corners(rt: HostRuntime) -> Result<(), Fail> {
    let mut tableau = started(rt.alloc(), steep(rt.alloc(), 100000000000001)?)?;
    assert!(rt; last_step(&mut tableau)? == Step::Blocked);
    assert_eq!(rt; tableau.improved(), 255);
    assert!(rt; is_steepest(&tableau));
    Ok(())
}

// The best of the steep problem is 10^14, where its last column is 10^14 and all others are 0.
#[test]
fn steep_problem_reaches_its_best(rt: HostRuntime) -> Result<(), Fail> {
    let mut tableau = started(rt.alloc(), steep(rt.alloc(), 100000000000000)?)?;
    assert!(rt; last_step(&mut tableau)? == Step::Reached);
    assert!(rt; tableau.improved() <= 131072);
    assert!(rt; is_steepest(&tableau));
    Ok(())
}

// A row for each column, which is to be at most 1; the first one is raised to 1.
fn wide_problem(alloc: Global, columns: u32) -> Result<Problem, Memory> {
    let mut rows = Vec::new(alloc);
    for column in 0..columns {
        rows.push(row(alloc, &[(column, 1)], 1)?)?;
    }
    Ok(Problem {
        columns,
        rows: Items::new(rows),
        objective: Items::new([(0, 1)].as_slice().to_vec(alloc)?),
        target: 1,
    })
}

#[test]
fn million_columns_have_few_numbers(rt: HostRuntime) -> Result<(), Fail> {
    let mut tableau = started(rt.alloc(), wide_problem(rt.alloc(), 1000000)?)?;
    assert!(rt; makes_steps(&mut tableau, &[Step::Improved, Step::Reached])?);
    assert_eq!(rt; tableau.values().first().copied(), Some(1));
    Ok(())
}
