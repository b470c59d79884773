ghost use Rattle.std.specs.Prelude.{◌≡◌, ◌≤ℤ◌, ◌^◌, All, true, pos};

use fixture_cells::{TWO_BY_TWO, cell_of, system_of};
use rounding_audit::{AuditFault, AuditedCell, ReaderFault, audit_of, audit_text, exposed_in};
use sdc_base::{Cell, Items, Kind, System};
use std::alloc::Global;
use std::rt::HostRuntime;
use std::test::Fail;

// The truths of a table of two by two, each inner cell primary with its level above, and lower ones where a truth is
// less.
const CELLS: [(u32, u8); 9] = [
    (15, 0),
    (9, 0),
    (6, 0),
    (7, 0),
    (3, 2),
    (4, 3),
    (8, 0),
    (6, 4),
    (2, 2),
];

// A rounding of these truths to base 5.
const ROUNDED: [i128; 9] = [15, 10, 5, 5, 5, 0, 10, 5, 5];

fn cells_in(alloc: Global) -> Result<Vec<Cell>, Fail> {
    let mut cells = Vec::new(alloc);
    for (truth, level) in &CELLS {
        let kind = if *level > 0 {
            Kind::Primary
        } else {
            Kind::Free
        };
        cells.push(cell_of(*truth, kind, *level))?;
    }
    Ok(cells)
}

// Whether no truth is above the greatest.
fn are_in_range(cells: &[Cell]) -> bool
    ensures { result ≡ true → All (λ cell. cell.truth ≤ℤ pos (10 ^ 29)) cells.now }
{
    cells.iter().all(|cell| cell.truth <= 100_000_000_000_000_000_000_000_000_000)
}

// The audit of values of the table, to base 5 and with a limit of 100; none where it can't be asked so.
fn audit_in(
    alloc: Global,
    system: &System,
    cells: &[Cell],
    values: &[i128],
) -> Option<Result<Items<AuditedCell>, AuditFault>> {
    if cells.len() != system.cells as usize || values.len() != cells.len() || !are_in_range(cells) {
        return None;
    }
    Some(audit_of(alloc, system, cells, values, 5, 100))
}

// The audited cells of the rounding; none where there is no audit.
fn audited_cells(alloc: Global) -> Result<Option<Items<AuditedCell>>, Fail> {
    let Some(system) = system_of(alloc, 9, &TWO_BY_TWO)? else {
        return Ok(None);
    };
    let cells = cells_in(alloc)?;
    match audit_in(alloc, &system, cells.as_slice(), &ROUNDED) {
        Some(Ok(audited)) => Ok(Some(audited)),
        _ => Ok(None),
    }
}

// How many of the cells of the rounding aren't covered on some side; none where there is no audit.
fn exposed_cells(alloc: Global) -> Result<Option<usize>, Fail> {
    match audited_cells(alloc)? {
        Some(audited) => Ok(Some(exposed_in(audited.as_slice()))),
        None => Ok(None),
    }
}

// The file of the rounding's audit; none where there is no audit.
fn audited_text(alloc: Global) -> Result<Option<Items<u8>>, Fail> {
    let Some(audited) = audited_cells(alloc)? else {
        return Ok(None);
    };
    match audit_text(alloc, audited.as_slice()) {
        Ok(text) => Ok(Some(text)),
        Err(_) => Ok(None),
    }
}

// Why values have no audit; none where they have one.
fn fault_in(alloc: Global, values: &[i128]) -> Result<Option<ReaderFault>, Fail> {
    let Some(system) = system_of(alloc, 9, &TWO_BY_TWO)? else {
        return Ok(None);
    };
    let cells = cells_in(alloc)?;
    match audit_in(alloc, &system, cells.as_slice(), values) {
        Some(Err(AuditFault::Reader(why))) => Ok(Some(why)),
        _ => Ok(None),
    }
}

// Of the sides of the four cells five are covered, so that three cells are exposed.
#[test]
fn three_cells_are_exposed(rt: HostRuntime) -> Result<(), Fail> {
    assert_eq!(rt; exposed_cells(rt.alloc())?, Some(3));
    Ok(())
}

// Whether a text starts with the lines of the four cells, and has 21 lines in all. A reader knows that cell 5 is at
// most 4, since it shows 0 to base 5; that is its truth, so the table that attains it moves nothing.
fn is_audit(text: &[u8]) -> bool {
    let ends =
        b"cell,low,high,below,above\n4,1,9,yes,yes\n5,0,4,yes,no\n7,1,9,yes,no\n8,1,9,no,yes\n".as_slice();
    let still = b"\nworld 5 above 1\nstop 5 above 1\n".as_slice();
    text.starts_with(ends)
        && text.windows(still.len()).any(|part| part == still)
        && text.iter().filter(|byte| **byte == b'\n').count() == 21
}

#[test]
fn four_cells_are_audited(rt: HostRuntime) -> Result<(), Fail> {
    let text = audited_text(rt.alloc())?;
    assert!(rt; matches!(&text, Some(text) if is_audit(text.as_slice())));
    Ok(())
}

// Values of the table, and why they have no audit.
const REFUSED: [([i128; 9], Option<ReaderFault>); 4] = [
    // each truth at its nearest multiple of 5, which is no rounding: cell 3 isn't the sum of cells 4 and 5
    (
        [15, 10, 5, 5, 5, 5, 10, 5, 0],
        Some(ReaderFault::Relation(4)),
    ),
    // one value isn't a multiple
    (
        [15, 10, 5, 5, 4, 0, 10, 5, 5],
        Some(ReaderFault::Rounded(4)),
    ),
    // one value lies a base away
    (
        [15, 10, 5, 5, 5, 0, 10, 5, 10],
        Some(ReaderFault::Rounded(8)),
    ),
    (ROUNDED, None),
];

#[test]
fn other_values_have_no_audit(rt: HostRuntime) -> Result<(), Fail> {
    let alloc = rt.alloc();
    for (values, why) in &REFUSED {
        assert_eq!(rt; fault_in(alloc, values)?, *why);
    }
    Ok(())
}
