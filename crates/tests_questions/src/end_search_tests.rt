use crate::cases::{Case, FOUR_HIDDEN, RING_OF_THREE, case_of};
use cell_intervals::EndSearch;
use interval_audit::{Answer, SignedSystem, TwoEnds};
use std::alloc::Global;
use std::rt::HostRuntime;
use std::test::Fail;

// The two ends for a cell of a system whose signs are known by searches, with a limit of 100; none where the case can't
// be asked so, or there are no searches.
fn ends_found(alloc: Global, signed: &SignedSystem<'_>, case: &Case, cell: u32) -> Option<TwoEnds> {
    let size = signed.system().cells as usize;
    let flags = case.hidden.flags.as_slice();
    if case.cells.len() != size || flags.len() != size || cell as usize >= size {
        return None;
    }
    if !flags[cell as usize] {
        return None;
    }
    let mut search = EndSearch::of(alloc, signed, &case.cells, &case.hidden)?;
    search.ends_of(alloc, signed, &case.cells, &case.hidden, cell, 100)
}

// How far a cell lies to a side at most, as a fraction, where no world goes further.
fn best_of(answer: &Answer) -> Option<(i128, i128)> {
    match answer {
        Answer::Stops { best, .. } => Some((best.num, best.den)),
        Answer::Reaches(_) => None,
    }
}

#[test]
fn ends_of_a_ring_are_found(rt: HostRuntime) -> Result<(), Fail> {
    let alloc = rt.alloc();
    let Some(ring) = case_of(alloc, RING_OF_THREE)? else {
        assert!(rt; false);
        return Ok(());
    };
    let signed = SignedSystem::of(alloc, &ring.system)?;
    let Some(ends) = ends_found(alloc, &signed, &ring, 4) else {
        assert!(rt; false);
        return Ok(());
    };
    assert_eq!(rt; best_of(&ends.below), Some((1, 2)));
    assert_eq!(rt; best_of(&ends.above), Some((1, 1)));
    Ok(())
}

#[test]
fn system_with_signs_has_no_searches(rt: HostRuntime) -> Result<(), Fail> {
    let alloc = rt.alloc();
    let Some(table) = case_of(alloc, FOUR_HIDDEN)? else {
        assert!(rt; false);
        return Ok(());
    };
    let signed = SignedSystem::of(alloc, &table.system)?;
    assert!(rt; ends_found(alloc, &signed, &table, 4).is_none());
    Ok(())
}
