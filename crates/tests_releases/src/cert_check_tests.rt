ghost use Rattle.std.specs.Prelude.{◌≡◌, ◌<◌, ◌+◌, ℕ, [], true, length, map, slice_index_or, All};
ghost use Rattle.sdc_base.specs.Trails.{corners_of};
ghost use Rattle.cert_check.specs.Cases.{IsCase};

use cert_check::{Case, CheckFault, accept};
use certificate::{Certificate, read_certificate};
use fixture_cells::{SHOWN_MARGINS, cell_of, set_truth};
use fixture_records::{pairs, places, texts};
use linked_tables::{Book, Mark};
use relations::relations_of;
use sdc_base::{Cell, Few, Items, Kind, Method, PlanStep, Side, System, Text, Trail};
use std::alloc::Global;
use std::rt::HostRuntime;
use std::test::Fail;
use worlds::{RefutationFault, WorldFault};

// A cell of a job: its truth and its kind.
type Row = (u32, Kind);

// The truths of a table of two by two, all small counts.
const SMALL_COUNTS: [Row; 9] = [
    (15, Kind::Free),
    (9, Kind::Free),
    (6, Kind::Free),
    (7, Kind::Free),
    (3, Kind::Free),
    (4, Kind::Free),
    (8, Kind::Free),
    (6, Kind::Free),
    (2, Kind::Free),
];

// The tables of [`SHOWN_MARGINS`] with cells 4, 5, 7 and 8 hidden, and of the small counts rounded to the base 5.
const SUPPRESSED: &str =
    "A,B,V\nTotal,Total,140\nTotal,1,50\nTotal,2,90\n1,Total,70\n1,1,x\n1,2,x\n2,Total,70\n2,1,x\n2,2,x\n";

const ROUNDED: &str =
    "A,B,V\nTotal,Total,15\nTotal,1,10\nTotal,2,5\n1,Total,5\n1,1,5\n1,2,0\n2,Total,10\n2,1,5\n2,2,5\n";

// A certificate of a plan, one of repairs alone, and one of a rounding.
const PLANNED: &str =
    "argus certificate 2\nmethod MOD\ncells 9\nrelations 6\nhidden 4 5 7 8\nstep 1 0,0 4 4,5,7,8\nneed 5 4 above 1 4:1\nneed 7 4 above 1 3:-1 4:1 5:1\nneed 8 4 above 1 3:-1 4:1\nworld 4 above 1 4:6 5:-6 7:-6 8:6\nworld 4 below 1 4:-6 5:6 7:6 8:-6\nend\n";

const REPAIRED: &str =
    "argus certificate 2\nmethod MOD\ncells 9\nrelations 6\nhidden 4 5 7 8\nrepair 5 4 above 1 4:1\nrepair 8 4 above 1 3:-1 4:1\nrepair 7 4 above 1 3:-1 4:1 5:1\nneed 5 4 above 1 4:1\nneed 7 4 above 1 3:-1 4:1 5:1\nneed 8 4 above 1 3:-1 4:1\nworld 4 above 1 4:6 5:-6 7:-6 8:6\nworld 4 below 1 4:-6 5:6 7:6 8:-6\nend\n";

const ROUNDING: &str = "argus certificate 2\nmethod RND 5\ncells 9\nrelations 6\nend\n";

fn cells_of(alloc: Global, rows: &[Row]) -> Result<Vec<Cell>, Fail> {
    let mut cells = Vec::new(alloc);
    for row in rows {
        cells.push(cell_of(row.0, row.1, 6))?;
    }
    Ok(cells)
}

fn set_truths(book: &mut Book, rows: &[Row]) {
    for (cell, (truth, _)) in rows.iter().enumerate() {
        set_truth(book, cell.min(100) as u32, *truth);
    }
}

// The trail of one step.
fn trail_of(alloc: Global, is_planned: bool) -> Result<Trail, Fail> {
    let mut steps = Vec::new(alloc);
    if is_planned {
        steps.push(PlanStep {
            table: 0,
            parents: Few::of(&[0, 0]),
            cell: 4,
            corners: Items::new(Vec::from_slice(alloc, &[4, 5, 7, 8])?),
        })?;
    }
    Ok(Trail {
        steps: Items::new(steps),
    })
}

// Whether marks have the truths of cells.
fn have_truths(marks: &[Mark], cells: &[Cell]) -> bool
    ensures { result ≡ true → map (λ mark. mark.facts.truth) marks.now ≡ map (λ cell. cell.truth) cells.now }
{
    if marks.len() != cells.len() {
        return false;
    }
    for (k, mark) in marks.iter().enumerate() {
        if !has_truth(mark, &cells[k]) {
            return false;
        }
    }
    true
}

fn has_truth(mark: &Mark, cell: &Cell) -> bool
    ensures { result ≡ true → mark.now.facts.truth ≡ cell.now.truth }
{
    mark.facts.truth == cell.truth
}

// Whether the corners of steps are cells.
fn are_corners(steps: &[PlanStep], cells: usize) -> bool
    ensures { result ≡ true → All (λ corner. corner < cells) (corners_of steps.now) }
{
    for step in steps {
        if !are_below(step.corners.as_slice(), cells) {
            return false;
        }
    }
    true
}

fn are_below(numbers: &[u32], cells: usize) -> bool
    ensures { result ≡ true → All (λ number. number < cells) numbers.now }
{
    numbers.iter().all(|number| (*number as usize) < cells)
}

// Whether each table has its names.
fn are_named(book: &Book, names: &[Items<Text>]) -> bool
    requires { length names.now ≡ length book.now.tables }
    ensures { result ≡ true → (t : ℕ) → t < length book.now.tables
        → length (slice_index_or names.now t []) ≡ length (slice_index_or book.now.tables t []) + 1 }
{
    let tables = book.tables();
    'tables: for t in 0..tables {
        if !has_names(book, t, names[t as usize].as_slice()) {
            return false;
        }
    }
    true
}

fn has_names(book: &Book, t: u32, names: &[Text]) -> bool
    ensures { result ≡ true → length names.now ≡ length (slice_index_or book.now.tables t []) + 1 }
{
    match book.spans(t) {
        Some(table) => names.len() == table.len() + 1,
        None => false,
    }
}

// Whether a certificate can be judged by a case.
fn is_case(case: &Case<'_>, release: &[Text]) -> bool
    ensures { result ≡ true → IsCase case.now release.now }
{
    if case.cells.len() != case.system.cells as usize || case.decimals > 13 || case.base < 1 {
        return false;
    }
    let tables = case.book.tables() as usize;
    if case.names.len() != tables || release.len() != tables {
        return false;
    }
    have_truths(case.book.marks(), case.cells)
        && are_corners(case.trail.steps.as_slice(), case.cells.len())
        && are_named(case.book, case.names)
}

// A table of two variables with two codes each, with the relations between its cells.
#[derive(Drop)]
struct Table {
    book: Book,
    system: System,
}

// The book of that table, whose cells have the truths of these rows.
fn two_way(alloc: Global, rows: &[Row]) -> Result<Book, Fail> {
    let mut book = Book::new(alloc, pairs(alloc, 2)?, places(alloc, &[&[0, 1]])?)?;
    set_truths(&mut book, rows);
    Ok(book)
}

fn table_of(alloc: Global, rows: &[Row]) -> Result<Table, Fail> {
    let book = two_way(alloc, rows)?;
    let system = relations_of(alloc, &book)?;
    Ok(Table { book, system })
}

// The cells of the table, the trail by which some are hidden, and the names of its first line.
#[derive(Drop)]
struct Plan {
    cells: Vec<Cell>,
    trail: Trail,
    names: Vec<Items<Text>>,
}

fn names_of(alloc: Global) -> Result<Vec<Items<Text>>, Fail> {
    Ok(vec![in alloc; Items::new(texts(alloc, &[b"A", b"B", b"V"])?)]?)
}

fn plan_of(alloc: Global, rows: &[Row], is_planned: bool) -> Result<Plan, Fail> {
    let cells = cells_of(alloc, rows)?;
    let trail = trail_of(alloc, is_planned)?;
    let names = names_of(alloc)?;
    Ok(Plan {
        cells,
        trail,
        names,
    })
}

// What a release is judged by: the rows of its table, the method, and whether the trail has its one step.
#[derive(Clone, Copy)]
struct Job {
    rows: &'static [Row],
    method: Method,
    is_planned: bool,
}

const PLANNED_JOB: Job = Job {
    rows: &SHOWN_MARGINS,
    method: Method::Modular,
    is_planned: true,
};

const REPAIRED_JOB: Job = Job {
    rows: &SHOWN_MARGINS,
    method: Method::Modular,
    is_planned: false,
};

const ROUNDING_JOB: Job = Job {
    rows: &SMALL_COUNTS,
    method: Method::Rnd(5),
    is_planned: false,
};

// The case of a table and a plan by a method.
fn case_of<'a>(judged: &'a Table, plan: &'a Plan, method: Method) -> Case<'a> {
    Case {
        book: &judged.book,
        system: &judged.system,
        cells: &plan.cells,
        trail: &plan.trail,
        method,
        base: 5,
        names: &plan.names,
        decimals: 0,
    }
}

// The first fault of a release of this table with its certificate, for a case.
fn fault_for(
    alloc: Global,
    case: &Case<'_>,
    table: &str,
    certificate: &Certificate,
) -> Result<Option<CheckFault>, Fail> {
    let release = texts(alloc, &[table.as_bytes()])?;
    if !is_case(case, &release) {
        return Err(Fail::new("no case that a release may be judged by"));
    }
    Ok(accept(alloc, case, &release, certificate).err())
}

// The first fault of a release of a table, and of its certificate, for a job.
fn fault_in(
    alloc: Global,
    job: Job,
    table: &str,
    certificate: &Certificate,
) -> Result<Option<CheckFault>, Fail> {
    let judged = table_of(alloc, job.rows)?;
    let plan = plan_of(alloc, job.rows, job.is_planned)?;
    fault_for(
        alloc,
        &case_of(&judged, &plan, job.method),
        table,
        certificate,
    )
}

// The same where the words are those of a certificate.
fn fault_of(alloc: Global, job: Job, table: &str, words: &str) -> Result<Option<CheckFault>, Fail> {
    let Ok(certificate) = read_certificate(alloc, words.as_bytes()) else {
        return Err(Fail::new("words that no certificate has"));
    };
    fault_in(alloc, job, table, &certificate)
}

// Jobs, their tables and their certificates.
const ACCEPTED: [(Job, &str, &str); 3] = [
    (PLANNED_JOB, SUPPRESSED, PLANNED),
    (REPAIRED_JOB, SUPPRESSED, REPAIRED),
    (ROUNDING_JOB, ROUNDED, ROUNDING),
];

#[test]
fn accepted(rt: HostRuntime) -> Result<(), Fail> {
    let alloc = rt.alloc();
    for (job, table, words) in &ACCEPTED {
        assert_eq!(rt; fault_of(alloc, *job, table, words)?, None);
    }
    Ok(())
}

// The first fault of the suppressed table where words of a certificate are replaced.
fn fault_of_words(
    alloc: Global,
    job: Job,
    words: &str,
    old: &str,
    new: &str,
) -> Result<Option<CheckFault>, Fail> {
    let replaced = words.replace(alloc, old, new)?;
    fault_of(alloc, job, SUPPRESSED, &replaced)
}

// Words of the certificate of a plan, those in their place, and the fault.
const FAULTS_OF_PLANS: [(&str, &str, CheckFault); 17] = [
    ("cells 9", "cells 8", CheckFault::Counts),
    ("need 5 4", "need 5 9", CheckFault::Counts),
    ("method MOD", "method GH 1", CheckFault::Method),
    ("step 1 0,0 4", "step 1 0,1 4", CheckFault::Step(0)),
    ("step 1 0,0 4 4,5,7,8\n", "", CheckFault::Step(0)),
    (
        "need 5 4",
        "step 1 0,0 4 4,5\nneed 5 4",
        CheckFault::Step(1),
    ),
    (
        "need 5 4",
        "repair 5 4 above 1 4:1\nneed 5 4",
        CheckFault::RepairCell(0),
    ),
    ("world 4 below", "world 4 above", CheckFault::WorldCell(1)),
    (
        "world 4 below 1 4:-6 5:6 7:6 8:-6\n",
        "",
        CheckFault::WorldCell(1),
    ),
    (
        "above 1 4:6 5:-6",
        "above 1 4:7 5:-6",
        CheckFault::World(0, WorldFault::Relation(2)),
    ),
    (
        "above 1 4:6",
        "above 1 3:1 4:6",
        CheckFault::World(0, WorldFault::Shown(3)),
    ),
    (
        "7:-6 8:6\n",
        "7:-6 9:6\n",
        CheckFault::World(0, WorldFault::Order(3)),
    ),
    (
        "below 1 4:-6 5:6 7:6 8:-6",
        "below 1 4:-5 5:5 7:5 8:-5",
        CheckFault::NotReached(4, Side::Below),
    ),
    (
        "need 8 4 above 1 3:-1 4:1\nworld 4 above 1 4:6",
        "world 4 above 1 4:7",
        CheckFault::World(0, WorldFault::Relation(2)),
    ),
    ("need 7 4", "need 8 4", CheckFault::NeedCell(1)),
    ("need 8 4 above 1 3:-1 4:1\n", "", CheckFault::NeedCell(2)),
    (
        "need 5 4 above 1 4:1",
        "need 5 4 above 1 3:1",
        CheckFault::Need(0, RefutationFault::Unbounded(4)),
    ),
];

#[test]
fn faults_of_certificates(rt: HostRuntime) -> Result<(), Fail> {
    let alloc = rt.alloc();
    for (old, new, fault) in &FAULTS_OF_PLANS {
        let found = fault_of_words(alloc, PLANNED_JOB, PLANNED, old, new)?;
        assert_eq!(rt; found, Some(*fault));
    }
    Ok(())
}

// Words of the certificate of repairs alone, those in their place, and the fault.
const FAULTS_OF_REPAIRS: [(&str, &str, CheckFault); 5] = [
    ("repair 8 4", "repair 3 4", CheckFault::RepairCell(1)),
    ("repair 8 4", "repair 5 4", CheckFault::RepairCell(1)),
    (
        "repair 5 4 above 1 4:1",
        "repair 7 4 above 1 4:1",
        CheckFault::RepairCell(0),
    ),
    (
        "repair 5 4 above 1 4:1",
        "repair 5 4 above 1 3:1",
        CheckFault::Repair(0, RefutationFault::Unbounded(4)),
    ),
    (
        "repair 7 4 above 1 3:-1 4:1 5:1\n",
        "",
        CheckFault::Outside(7),
    ),
];

#[test]
fn faults_of_repairs(rt: HostRuntime) -> Result<(), Fail> {
    let alloc = rt.alloc();
    for (old, new, fault) in &FAULTS_OF_REPAIRS {
        let found = fault_of_words(alloc, REPAIRED_JOB, REPAIRED, old, new)?;
        assert_eq!(rt; found, Some(*fault));
    }
    Ok(())
}

// Certificates that hide too little and too much.
const FAULTS_OF_HIDDEN_SETS: [(&str, CheckFault); 2] = [
    (
        "argus certificate 2\nmethod MOD\ncells 9\nrelations 6\nhidden 5 7 8\nend\n",
        CheckFault::PrimaryShown(4),
    ),
    (
        "argus certificate 2\nmethod MOD\ncells 9\nrelations 6\nhidden 3 4 5\nend\n",
        CheckFault::FixedHidden(3),
    ),
];

#[test]
fn faults_of_hidden_sets(rt: HostRuntime) -> Result<(), Fail> {
    let alloc = rt.alloc();
    for (words, fault) in &FAULTS_OF_HIDDEN_SETS {
        let found = fault_of(alloc, PLANNED_JOB, SUPPRESSED, words)?;
        assert_eq!(rt; found, Some(*fault));
    }
    Ok(())
}

// The first fault where a part of a table is replaced.
fn fault_of_table(
    alloc: Global,
    job: Job,
    table: &str,
    old: &str,
    new: &str,
    words: &str,
) -> Result<Option<CheckFault>, Fail> {
    let replaced = table.replace(alloc, old, new)?;
    fault_of(alloc, job, &replaced, words)
}

// Parts of the suppressed table, those in their place, and the line at fault.
const FAULTS_OF_TABLES: [(&str, &str, u32); 6] = [
    ("A,B,V", "A,B,W", 1),
    ("Total,1,50", "Total,1,51", 3),
    ("1,2,x", "1,2,x ", 7),
    ("2,2,x\n", "", 10),
    ("2,2,x\n", "2,2,x", 10),
    ("2,2,x\n", "2,2,x\n\n", 11),
];

#[test]
fn faults_of_tables(rt: HostRuntime) -> Result<(), Fail> {
    let alloc = rt.alloc();
    for (old, new, line) in &FAULTS_OF_TABLES {
        let found = fault_of_table(alloc, PLANNED_JOB, SUPPRESSED, old, new, PLANNED)?;
        let line = *line;
        assert_eq!(rt; found, Some(CheckFault::Release { table: 0, line }));
    }
    Ok(())
}

// Parts of the rounded table, those in their place, and the fault.
const FAULTS_OF_ROUNDINGS: [(&str, &str, CheckFault); 4] = [
    (
        "1,2,0\n2,Total,10\n2,1,5\n2,2,5",
        "1,2,5\n2,Total,10\n2,1,5\n2,2,0",
        CheckFault::Relation(4),
    ),
    ("2,2,5\n", "2,2,10\n", CheckFault::Rounded(8)),
    ("2,2,5\n", "2,2,4\n", CheckFault::Rounded(8)),
    (
        "2,2,5\n",
        "2,2,x\n",
        CheckFault::Release { table: 0, line: 10 },
    ),
];

#[test]
fn faults_of_roundings(rt: HostRuntime) -> Result<(), Fail> {
    let alloc = rt.alloc();
    for (old, new, fault) in &FAULTS_OF_ROUNDINGS {
        let found = fault_of_table(alloc, ROUNDING_JOB, ROUNDED, old, new, ROUNDING)?;
        assert_eq!(rt; found, Some(*fault));
    }
    Ok(())
}

#[test]
fn certificate_of_a_rounding_hides_nothing(rt: HostRuntime) -> Result<(), Fail> {
    let alloc = rt.alloc();
    let words = ROUNDING.replace(alloc, "end", "hidden 4\nend")?;
    let found = fault_of(alloc, ROUNDING_JOB, ROUNDED, &words)?;
    assert_eq!(rt; found, Some(CheckFault::Method));
    Ok(())
}
