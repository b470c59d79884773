ghost use Rattle.std.specs.Prelude.{◌≡◌, ◌≤◌, true, length};
ghost use Rattle.apriori.specs.CellLevels.{HasLevelsInRange};
ghost use Rattle.cost_rule.specs.Costs.{AreCosted};
ghost use Rattle.cell_protection.specs.Protections.{AreNarrow, HasText};

use crate::costs::is_costed;
use cell_protection::{ProtectionOutcome, protect_cells};
use certificate::write_certificate;
use cost_rule::CostKind;
use fixture_cells::{bounded_cell, cell_of, set_truth};
use fixture_records::{pairs, places};
use hierarchy::{CodeTree, from_lead};
use interval_audit::AskFault;
use linked_tables::{Book, Mark};
use relations::relations_of;
use sdc_base::{Cell, Kind, Method, System, Text};
use std::alloc::Global;
use std::rt::HostRuntime;
use std::test::Fail;

// A cell of a job: its truth, its kind, and the level to both sides of a primary one.
type Row = (u32, Kind, u8);

// A table of two variables with two codes each, whose margins are always shown, with a primary inner cell.
const SHOWN_MARGINS: [Row; 9] = [
    (140, Kind::Fixed, 0),
    (50, Kind::Fixed, 0),
    (90, Kind::Fixed, 0),
    (70, Kind::Fixed, 0),
    (20, Kind::Primary, 6),
    (50, Kind::Free, 0),
    (70, Kind::Fixed, 0),
    (30, Kind::Free, 0),
    (40, Kind::Free, 0),
];

// The total, 1 with 11 and 12 below it, and 2 with 21 below it.
const INDUSTRIES: [Row; 6] = [
    (117, Kind::Free, 0),
    (75, Kind::Free, 0),
    (60, Kind::Free, 0),
    (15, Kind::Free, 0),
    (42, Kind::Primary, 3),
    (42, Kind::Primary, 3),
];

fn cells_of(alloc: Global, rows: &[Row]) -> Result<Vec<Cell>, Fail> {
    let mut cells = Vec::new(alloc);
    for row in rows {
        cells.push(cell_of(row.0, row.1, row.2))?;
    }
    Ok(cells)
}

fn set_truths(book: &mut Book, rows: &[Row]) {
    for (cell, (truth, ..)) in rows.iter().enumerate() {
        if cell < 100 {
            set_truth(book, cell as u32, *truth);
        }
    }
}

// Whether there is one table, of one to eight variables.
fn is_narrow(book: &Book) -> bool
    ensures { result ≡ true → AreNarrow book.now.tables }
{
    if book.tables() != 1 {
        return false;
    }
    match book.spans(0) {
        Some(table) => table.len() >= 1 && table.len() <= 8,
        None => false,
    }
}

fn is_modest(cell: &Cell) -> bool
    ensures { result ≡ true → HasLevelsInRange cell.now }
{
    cell.up <= 1000 && cell.down <= 1000
}

// The certificate, or what can't be protected, or why it stopped; nothing where the cells aren't those of the book.
fn answer(
    alloc: Global,
    book: &mut Book,
    cells: &[Cell],
    method: Method,
    limit: u64,
) -> Result<Option<Vec<u8>>, Fail> {
    let system = relations_of(alloc, book)?;
    let counts = (cells.len(), book.marks().len());
    if counts != (system.cells as usize, system.cells as usize) || limit == 0 {
        return Ok(None);
    }
    answer_in(alloc, book, &system, cells, method, limit)
}

// The same, where there is one cell for each of the system and each mark.
fn answer_in(
    alloc: Global,
    book: &mut Book,
    system: &System,
    cells: &[Cell],
    method: Method,
    limit: u64,
) -> Result<Option<Vec<u8>>, Fail>
    requires one_each { length cells.now ≡ system.now.cells }
    requires marks { length cells.now ≡ length book.old.marks }
    requires limit { 1 ≤ limit }
{
    if !is_narrow(book) || !book.marks().iter().all(is_costed) || !cells.iter().all(is_modest) {
        return Ok(None);
    }
    let made = protect_cells(alloc, book, system, cells, method, CostKind::Value, limit)?;
    Ok(Some(bytes_of(alloc, &made)?))
}

// The certificate, or what can't be protected, or the question that took too much work.
fn bytes_of(alloc: Global, made: &ProtectionOutcome<'_>) -> Result<Vec<u8>, Fail>
    requires { HasText made.now }
{
    match made {
        ProtectionOutcome::Protected { certificate, .. } => Ok(write_certificate(
            alloc,
            certificate,
        )?),
        ProtectionOutcome::Cannot(unprotected) => {
            let number = unprotected.cell;
            let word = unprotected.side.word();
            let den = unprotected.multipliers.den;
            let line = format!(in alloc; "cannot {number} {word} {den}\n")?;
            Ok(Vec::from_slice(alloc, line.as_bytes())?)
        }
        ProtectionOutcome::Undecided(stopped) => stop_line(alloc, &stopped.fault),
    }
}

fn stop_line(alloc: Global, fault: &AskFault) -> Result<Vec<u8>, Fail> {
    let line = match fault {
        AskFault::Work(walk) => {
            let cell = walk.question.cell;
            let word = walk.question.side.word();
            let steps = walk.tableau.improved();
            format!(in alloc; "work {cell} {word} {steps}\n")?
        }
        _ => format!(in alloc; "other\n")?,
    };
    Ok(Vec::from_slice(alloc, line.as_bytes())?)
}

// A job over the table of two variables with two codes each: the kind of its margins, whether one cell is known within
// narrow bounds, the method and the limit.
#[derive(Clone, Copy)]
struct Job {
    margin: Kind,
    narrow: bool,
    method: Method,
    limit: u64,
}

// The cells of a job.
fn cells_in(alloc: Global, job: &Job) -> Result<Vec<Cell>, Fail> {
    let mut cells = Vec::new(alloc);
    for (truth, kind, level) in &SHOWN_MARGINS {
        let kind = match *kind {
            Kind::Fixed => job.margin,
            other => other,
        };
        cells.push(cell_of(*truth, kind, *level))?;
    }
    if job.narrow && cells.len() > 5 {
        cells[5] = bounded_cell();
    }
    Ok(cells)
}

// The book of the table.
fn two_way(alloc: Global) -> Result<Book, Fail> {
    let mut book = Book::new(alloc, pairs(alloc, 2)?, places(alloc, &[&[0, 1]])?)?;
    set_truths(&mut book, &SHOWN_MARGINS);
    Ok(book)
}

// Whether this becomes of a job.
fn comes_to(alloc: Global, job: &Job, meant: &[u8]) -> Result<bool, Fail> {
    let cells = cells_in(alloc, job)?;
    let mut book = two_way(alloc)?;
    let made = answer(alloc, &mut book, &cells, job.method, job.limit)?;
    Ok(made.as_deref() == Some(meant))
}

const ALL_INNER_HIDDEN: &[u8] =
    b"argus certificate 2\nmethod MOD\ncells 9\nrelations 6\nhidden 4 5 7 8\n\
step 1 0,0 4 4,5,7,8\n\
need 5 4 above 1 4:1\nneed 7 4 above 1 2:1\nneed 8 4 above 1 2:1 5:-1\n\
world 4 above 1 4:6 5:-6 7:-6 8:6\nworld 4 below 1 4:-6 5:6 7:6 8:-6\nend\n";

const MARGINS_HIDDEN: &[u8] =
    b"argus certificate 2\nmethod GH 2\ncells 9\nrelations 6\nhidden 3 4 6 7\n\
step 1 0,0 4 3,4,6,7\n\
need 3 4 above 1 4:1\nneed 6 4 above 1 2:1 5:-1\nneed 7 4 above 1 2:1\n\
world 4 above 1 3:6 4:6 6:-6 7:-6\nworld 4 below 1 3:-6 4:-6 6:6 7:6\nend\n";

// Jobs, and what becomes of them.
const JOBS: [(Job, &[u8]); 4] = [
    // margins that are shown: the plan's one cube protects, and each of its cells is needed
    (
        Job {
            margin: Kind::Fixed,
            narrow: false,
            method: Method::Modular,
            limit: 100000,
        },
        ALL_INNER_HIDDEN,
    ),
    // the table has signs, so that no question is a walk
    (
        Job {
            margin: Kind::Fixed,
            narrow: false,
            method: Method::Modular,
            limit: 1,
        },
        ALL_INNER_HIDDEN,
    ),
    // a cell within narrow bounds: with shown margins nothing protects
    (
        Job {
            margin: Kind::Fixed,
            narrow: true,
            method: Method::Modular,
            limit: 100000,
        },
        b"cannot 4 above 1\n",
    ),
    // with free margins another cube does, and a second pass hides nothing more
    (
        Job {
            margin: Kind::Free,
            narrow: true,
            method: Method::Gh(2),
            limit: 100000,
        },
        MARGINS_HIDDEN,
    ),
];

#[test]
fn two_by_two_is_protected_or_refused(rt: HostRuntime) -> Result<(), Fail> {
    let alloc = rt.alloc();
    for (job, meant) in &JOBS {
        assert!(rt; comes_to(alloc, job, meant)?);
    }
    Ok(())
}

// The book of a table of one variable of two levels.
fn book_of_industries(alloc: Global) -> Result<Option<Book>, Fail> {
    let lead = Text::from_slice(alloc, b"@")?;
    if lead.as_slice().is_empty() {
        return Ok(None);
    }
    let tree = from_lead(
        alloc,
        b"1\n@11\n@12\n2\n@21\n",
        &lead,
        &Text::from_slice(alloc, b"Total")?,
    )?;
    Ok(Some(book_over(alloc, tree)?))
}

fn book_over(alloc: Global, tree: CodeTree) -> Result<Book, Fail> {
    let trees = vec![in alloc; tree]?;
    let mut book = Book::new(alloc, trees, places(alloc, &[&[0]])?)?;
    set_truths(&mut book, &INDUSTRIES);
    Ok(book)
}

const INDUSTRIES_CERTIFICATE: &[u8] =
    b"argus certificate 2\nmethod MOD\ncells 6\nrelations 3\nhidden 1 3 4 5\n\
step 1 0 4 1,4\nstep 1 1 1 1,3\nneed 1 4 above 1 0:1\nneed 3 4 above 1 0:1 1:1\n\
world 4 above 1 1:-3 3:-3 4:3 5:3\nworld 4 below 1 1:3 3:3 4:-3 5:-3\n\
world 5 above 1 1:-3 3:-3 4:3 5:3\nworld 5 below 1 1:3 3:3 4:-3 5:-3\nend\n";

// Whether the industries are protected with that certificate.
fn are_industries_protected(alloc: Global) -> Result<bool, Fail> {
    let Some(mut book) = book_of_industries(alloc)? else {
        return Ok(false);
    };
    let cells = cells_of(alloc, &INDUSTRIES)?;
    let made = answer(alloc, &mut book, &cells, Method::Modular, 100000)?;
    Ok(made.as_deref() == Some(INDUSTRIES_CERTIFICATE))
}

#[test]
fn two_levels(rt: HostRuntime) -> Result<(), Fail> {
    assert!(rt; are_industries_protected(rt.alloc())?);
    Ok(())
}
