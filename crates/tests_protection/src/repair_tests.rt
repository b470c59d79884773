ghost use Rattle.std.specs.Prelude.{◌≡◌, ◌≢◌, All, true};
ghost use Rattle.sdc_base.specs.declared.cell.Kind.TheVariants.{Primary};
ghost use Rattle.cost_rule.specs.Costs.{IsTold};
ghost use Rattle.sdc_base.specs.HiddenSets.{MayHide};
ghost use Rattle.sdc_base.specs.Trails.{corners_of};
ghost use Rattle.repair.specs.KeptWorlds.{HasModestLevels};

use crate::costs::is_costed;
use crate::lines::{stop_lines, verdict_lines};
use cost_rule::{CostKind, CostRule, TellsCosts};
use fixture_cells::{TWO_BY_TWO, cell_of, shown_cell, system_of};
use linked_tables::Mark;
use repair::protect;
use sdc_base::{Cell, CellFacts, Items, Kind, Place, PlanStep, Tops, Trail};
use std::alloc::Global;
use std::rt::HostRuntime;
use std::test::Fail;

// A cell of a job: its truth, its kind, the level to both sides of a primary one, and bounds where they are stated.
type Row = (u32, Kind, u8, Option<(u32, i128)>);

// An upper bound of more than 64 bits, in which no table is kept: so the walk is asked.
const FAR: i128 = 18_446_744_073_709_551_616;

// What is to be protected: cells, relations, and the corners of one step of the trail, none where there is no step.
#[derive(Clone, Copy)]
struct Job<'a> {
    rows: &'a [Row],
    relations: &'a [(u32, &'a [u32])],
    corners: &'a [u32],
    limit: u64,
}

fn cell_in(row: Row) -> Cell {
    let (truth, kind, level, bounds) = row;
    match kind {
        Kind::Primary => cell_of(truth, Kind::Primary, level),
        Kind::Free => bounded_cell(truth, bounds, Kind::Free),
        Kind::Fixed => bounded_cell(truth, bounds, Kind::Fixed),
    }
}

// A cell that isn't primary, with bounds that the truth is within.
fn bounded_cell(truth: u32, bounds: Option<(u32, i128)>, kind: Kind) -> Cell
    requires kind { kind ≢ Primary }
{
    let Some((low, high)) = bounds else {
        return shown_cell(i128::from(truth), 0, None, kind);
    };
    if low > truth || i128::from(truth) > high {
        return shown_cell(i128::from(truth), 0, None, kind);
    }
    shown_cell(i128::from(truth), i128::from(low), Some(high), kind)
}

fn cells_of(alloc: Global, job: Job<'_>) -> Result<Vec<Cell>, Fail> {
    let mut cells = Vec::new(alloc);
    for row in job.rows {
        cells.push(cell_in(*row))?;
    }
    Ok(cells)
}

// A mark for each cell, with its truth.
fn marks_of(alloc: Global, job: Job<'_>) -> Result<Vec<Mark>, Fail> {
    let mut marks = Vec::new(alloc);
    for (truth, ..) in job.rows {
        marks.push(Mark {
            facts: CellFacts {
                truth: i128::from(*truth),
                freq: 2,
                tops: Tops::new(2, 1),
            },
            hidden: false,
        })?;
    }
    Ok(marks)
}

// The trail of one step with the job's corners.
fn trail_of(alloc: Global, job: Job<'_>) -> Result<Trail, Fail> {
    let mut steps = Vec::new(alloc);
    steps.push(PlanStep {
        table: 0,
        parents: Place::empty(),
        cell: 0,
        corners: Items::new(job.corners.to_vec(alloc)?),
    })?;
    Ok(Trail {
        steps: Items::new(steps),
    })
}

// Whether no level is above 2^110.
fn is_modest(cell: &Cell) -> bool
    ensures { result ≡ true → HasModestLevels cell.now }
{
    cell.up <= 1 << 110 && cell.down <= 1 << 110
}

// Whether there is a cell with this number that isn't fixed.
fn may_hide(cells: &[Cell], number: u32) -> bool
    ensures { result ≡ true → MayHide cells.now number }
{
    if number as usize >= cells.len() {
        return false;
    }
    let cell = &cells[number as usize];
    !cell.kind.is_fixed()
}

// Whether these are all numbers of such cells.
fn all_may_hide(cells: &[Cell], numbers: &[u32]) -> bool
    ensures { result ≡ true → All (MayHide cells.now) numbers.now }
{
    numbers.iter().all(|number| may_hide(cells, *number))
}

// Whether all corners are.
fn corners_may_hide(cells: &[Cell], steps: &[PlanStep]) -> bool
    ensures { result ≡ true → All (MayHide cells.now) (corners_of steps.now) }
{
    'steps: for step in steps {
        if !all_may_hide(cells, step.corners.as_slice()) {
            return false;
        }
    }
    true
}

// What a cost rule by truths makes of a job: the lines of the verdict, and none where something lacks.
fn protect_by<F: TellsCosts + Drop>(
    alloc: Global,
    f: F,
    job: Job<'_>,
) -> Result<Option<String>, Fail>
    requires { IsTold F.may_ask F.may_say f CostKind.Value }
{
    let rule = CostRule::new(CostKind::Value, f);
    let Some(system) = system_of(alloc, job.rows.len(), job.relations)? else {
        return Ok(None);
    };
    let cells = cells_of(alloc, job)?;
    let marks = marks_of(alloc, job)?;
    let trail = trail_of(alloc, job)?;
    let size = system.cells as usize;
    if cells.len() != size || marks.len() != size || job.limit == 0 {
        return Ok(None);
    }
    if !marks.iter().all(is_costed) || !cells.iter().all(is_modest) {
        return Ok(None);
    }
    if !corners_may_hide(&cells, trail.steps.as_slice()) {
        return Ok(None);
    }
    let outcome = protect(alloc, &system, &cells, &marks, &rule, &trail, job.limit);
    match outcome {
        Ok(verdict) => Ok(Some(verdict_lines(alloc, &verdict)?)),
        Err(stopped) => Ok(Some(stop_lines(alloc, &stopped)?)),
    }
}

// The lines of what a job comes to.
fn lines_of(alloc: Global, job: Job<'_>) -> Result<Option<String>, Fail> {
    let kind = CostKind::Value;
    protect_by(alloc, |facts: &CellFacts| kind.cost(facts), job)
}

// Whether a job comes to these lines.
fn comes_to(alloc: Global, job: Job<'_>, meant: &str) -> Result<bool, Fail> {
    let lines = lines_of(alloc, job)?;
    Ok(lines.as_deref() == Some(meant))
}

// The cells of a table of two by two, the first inner cell primary, with margins that are always shown.
const SHOWN_MARGINS: [Row; 9] = [
    (140, Kind::Fixed, 0, None),
    (50, Kind::Fixed, 0, None),
    (90, Kind::Fixed, 0, None),
    (70, Kind::Fixed, 0, None),
    (20, Kind::Primary, 6, None),
    (50, Kind::Free, 0, None),
    (70, Kind::Fixed, 0, None),
    (30, Kind::Free, 0, None),
    (40, Kind::Free, 0, None),
];

// The same with free margins.
const FREE_MARGINS: [Row; 9] = [
    (140, Kind::Free, 0, None),
    (50, Kind::Free, 0, None),
    (90, Kind::Free, 0, None),
    (70, Kind::Free, 0, None),
    (20, Kind::Primary, 6, None),
    (50, Kind::Free, 0, None),
    (70, Kind::Free, 0, None),
    (30, Kind::Free, 0, None),
    (40, Kind::Free, 0, None),
];

// Both again, where cell 5 can fall by 2 alone.
const SHOWN_MARGINS_NARROW: [Row; 9] = [
    (140, Kind::Fixed, 0, None),
    (50, Kind::Fixed, 0, None),
    (90, Kind::Fixed, 0, None),
    (70, Kind::Fixed, 0, None),
    (20, Kind::Primary, 6, None),
    (50, Kind::Free, 0, Some((48, 52))),
    (70, Kind::Fixed, 0, None),
    (30, Kind::Free, 0, None),
    (40, Kind::Free, 0, None),
];

const FREE_MARGINS_NARROW: [Row; 9] = [
    (140, Kind::Free, 0, None),
    (50, Kind::Free, 0, None),
    (90, Kind::Free, 0, None),
    (70, Kind::Free, 0, None),
    (20, Kind::Primary, 6, None),
    (50, Kind::Free, 0, Some((48, 52))),
    (70, Kind::Free, 0, None),
    (30, Kind::Free, 0, None),
    (40, Kind::Free, 0, None),
];

// Without 5, relation 4 alone holds the primary cell, and without 7 relation 2. Without 8, cell 7 can't move, by
// relation 5, and so neither can cell 4.
const PLANNED: &str = "hidden 4 5 7 8\n\
need 5 4 above 1 4:1\n\
need 7 4 above 1 2:1\n\
need 8 4 above 1 2:1 5:-1\n\
world 1 4:6 5:-6 7:-6 8:6\n\
world 1 4:-6 5:6 7:6 8:-6\n";

// Relation 2 holds cell 4, and among the cells that count in it 7 has the lowest price: with free margins 31, before
// the 51 of cell 1. Then relation 4 holds it, where 5 does, before the 71 of cell 3. Then 7 is held by relation 5,
// where 8 counts.
const REPAIRED: &str = "hidden 4 5 7 8\n\
repair 7 4 above 1 2:1\n\
repair 5 4 above 1 4:1\n\
repair 8 4 above 1 2:1 5:-1\n\
need 5 4 above 1 4:1\n\
need 7 4 above 1 2:1\n\
need 8 4 above 1 2:1 5:-1\n\
world 1 4:6 5:-6 7:-6 8:6\n\
world 1 4:-6 5:6 7:6 8:-6\n";

// The corners are 4 and 7 and the margins of their rows. Without 3 cell 4 is held by relation 4, without 7 by relation
// 2, and without 6 cell 7 is held by relation 5.
const MARGINS_HIDDEN: &str = "hidden 3 4 6 7\n\
need 3 4 above 1 4:1\n\
need 6 4 above 1 2:1 5:-1\n\
need 7 4 above 1 2:1\n\
world 1 3:6 4:6 6:-6 7:-6\n\
world 1 3:-6 4:-6 6:6 7:6\n";

// The cells of tables of two by two, the corners, the limit, and the lines.
const TABLES: [(&[Row], &[u32], u64, &str); 6] = [
    (&SHOWN_MARGINS, &[4, 5, 7, 8], 100000, PLANNED),
    // the table has signs, so that no question is a walk
    (&SHOWN_MARGINS, &[4, 5, 7, 8], 1, PLANNED),
    (&SHOWN_MARGINS, &[], 100000, REPAIRED),
    (&FREE_MARGINS, &[], 100000, REPAIRED),
    // with shown margins relation 4 leaves no other cell, and 2 is less than 6
    (
        &SHOWN_MARGINS_NARROW,
        &[4, 5, 7, 8],
        100000,
        "cannot 4 above 1 4:1\n",
    ),
    (&FREE_MARGINS_NARROW, &[3, 4, 6, 7], 100000, MARGINS_HIDDEN),
];

#[test]
fn tables_of_two_by_two(rt: HostRuntime) -> Result<(), Fail> {
    let alloc = rt.alloc();
    for (rows, corners, limit, lines) in &TABLES {
        let job = Job {
            rows,
            relations: &TWO_BY_TWO,
            corners,
            limit: *limit,
        };
        assert!(rt; comes_to(alloc, job, lines)?);
    }
    Ok(())
}

// A table of two levels.
const HIERARCHICAL: Job<'static> = Job {
    rows: &[
        (117, Kind::Free, 0, None),
        (75, Kind::Free, 0, None),
        (60, Kind::Free, 0, None),
        (15, Kind::Free, 0, None),
        (42, Kind::Primary, 3, None),
        (42, Kind::Primary, 3, None),
    ],
    relations: &[(0, &[1, 4]), (1, &[2, 3]), (4, &[5])],
    corners: &[1, 3, 4],
    limit: 100000,
};

// One code has all of the total, which is always shown.
const ALONE: Job<'static> = Job {
    rows: &[(100, Kind::Fixed, 0, None), (100, Kind::Primary, 20, None)],
    relations: &[(0, &[1])],
    corners: &[],
    limit: 100000,
};

// Cells 2 and 3 cost the same.
const EQUAL_PRICES: Job<'static> = Job {
    rows: &[
        (25, Kind::Fixed, 0, None),
        (5, Kind::Primary, 5, None),
        (10, Kind::Free, 0, None),
        (10, Kind::Free, 0, None),
    ],
    relations: &[(0, &[1, 2, 3])],
    corners: &[],
    limit: 100000,
};

// Corner 2 can fall by 2, which is less than 5.
const NEEDLESS_CORNER: Job<'static> = Job {
    rows: &[
        (17, Kind::Fixed, 0, None),
        (5, Kind::Primary, 5, None),
        (2, Kind::Free, 0, None),
        (10, Kind::Free, 0, None),
    ],
    relations: &[(0, &[1, 2, 3])],
    corners: &[1, 2],
    limit: 100000,
};

const VERDICTS: [(Job<'static>, &str); 4] = [
    (
        HIERARCHICAL,
        "hidden 1 3 4 5\n\
need 1 4 above 1 0:1\n\
need 3 4 above 1 0:1 1:1\n\
world 1 1:-3 3:-3 4:3 5:3\n\
world 1 1:3 3:3 4:-3 5:-3\n\
world 1 1:-3 3:-3 4:3 5:3\n\
world 1 1:3 3:3 4:-3 5:-3\n",
    ),
    (ALONE, "cannot 1 above 1 0:1\n"),
    // of cells with one price the first is hidden
    (
        EQUAL_PRICES,
        "hidden 1 2\n\
repair 2 1 above 1 0:1\n\
need 2 1 above 1 0:1\n\
world 1 1:5 2:-5\n\
world 1 1:-5 2:5\n",
    ),
    // 3 is hidden as well, and then corner 2 isn't needed any more: with 2 shown, 3 falls by 5. Without 3 nothing moves
    (
        NEEDLESS_CORNER,
        "hidden 1 3\n\
repair 3 1 above 1 0:1\n\
need 3 1 above 1 0:1\n\
world 1 1:5 3:-5\n\
world 1 1:-5 3:5\n",
    ),
];

#[test]
fn verdicts_on_other_tables(rt: HostRuntime) -> Result<(), Fail> {
    let alloc = rt.alloc();
    for (job, lines) in &VERDICTS {
        assert!(rt; comes_to(alloc, *job, lines)?);
    }
    Ok(())
}

// Beside six shown cells in a ring of three relations: a system with them has no signs. Cell 1 rises as 2 falls, two
// improvements, and is open by 2 alone. Once 3 is hidden, which falls by 2 as well, the same question takes a third, and
// is still without a complete table.
const REPAIR_BESIDE_A_RING: Job<'static> = Job {
    rows: &[
        (17, Kind::Fixed, 0, None),
        (5, Kind::Primary, 5, None),
        (2, Kind::Free, 0, Some((0, FAR))),
        (2, Kind::Free, 0, None),
        (8, Kind::Free, 0, None),
        (20, Kind::Fixed, 0, None),
        (20, Kind::Fixed, 0, None),
        (20, Kind::Fixed, 0, None),
        (10, Kind::Fixed, 0, None),
        (10, Kind::Fixed, 0, None),
        (10, Kind::Fixed, 0, None),
    ],
    relations: &[
        (0, &[1, 2, 3, 4]),
        (5, &[8, 9]),
        (6, &[9, 10]),
        (7, &[8, 10]),
    ],
    corners: &[1, 2],
    limit: 2,
};

// Beside such a ring, cell 1 rises as 2 falls, two improvements. With 2 shown, 3 falls, and with it 4, which takes a
// third.
const NEED_BESIDE_A_RING: Job<'static> = Job {
    rows: &[
        (25, Kind::Fixed, 0, None),
        (5, Kind::Primary, 5, None),
        (10, Kind::Free, 0, None),
        (10, Kind::Free, 0, None),
        (4, Kind::Free, 0, Some((0, FAR))),
        (6, Kind::Free, 0, None),
        (20, Kind::Fixed, 0, None),
        (20, Kind::Fixed, 0, None),
        (20, Kind::Fixed, 0, None),
        (10, Kind::Fixed, 0, None),
        (10, Kind::Fixed, 0, None),
        (10, Kind::Fixed, 0, None),
    ],
    relations: &[
        (0, &[1, 2, 3]),
        (3, &[4, 5]),
        (6, &[9, 10]),
        (7, &[10, 11]),
        (8, &[9, 11]),
    ],
    corners: &[1, 2, 3, 4],
    limit: 2,
};

// Work that is cut off after a repair, and while a cell is tried.
const CUT_OFF: [(Job<'static>, &str); 2] = [
    (
        REPAIR_BESIDE_A_RING,
        "work 1 above 2\nrepair 3 1 above 1 0:1\nshown\n",
    ),
    (NEED_BESIDE_A_RING, "work 1 above 2\nshown 2\n"),
];

#[test]
fn work_is_cut_off(rt: HostRuntime) -> Result<(), Fail> {
    let alloc = rt.alloc();
    for (job, lines) in &CUT_OFF {
        assert!(rt; comes_to(alloc, *job, lines)?);
    }
    Ok(())
}
