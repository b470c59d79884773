ghost use Rattle.std.specs.Prelude.{◌≡◌, ◌++◌, ◌∷◌, [], filter, if◌then◌else◌, IfOk, OnOk};
ghost use Rattle.std.specs.List.{range_with_len};
ghost use Rattle.sdc_base.specs.HiddenSets as hidden_set;
ghost use Rattle.sdc_base.specs.Kinds.{is_primary};
ghost use Rattle.cell_listing.specs.Flags.{AreHiddenCells, is_flagged, outcome_in};
ghost use Rattle.cell_listing.specs.Outcomes as spec;

use crate::outcome::{Origin, Outcome};
use certificate::{Certificate, Extra};
use repair::hide_subjects;
use sdc_base::{Hidden, Items, Kind, Memory, is_hidden};
use std::alloc::Global;

/// What a certificate and extra cells say of cells, by a flag for each.
#[derive(Drop)]
pub(crate) struct HiddenCells {
    /// The certificate hides them.
    pub hidden: Items<bool>,
    /// They are corners of its steps.
    pub corners: Items<bool>,
    /// They are subjects of its repairs.
    pub subjects: Items<bool>,
    /// They are hidden beside its own.
    pub extra: Items<bool>,
}

/// What a certificate and extra cells say of so many cells.
pub(crate) fn hidden_cells(
    alloc: Global,
    cells: u32,
    certificate: &Certificate,
    extra: &Option<Extra>,
) -> Result<HiddenCells, Memory>
    ensures { IfOk result (AreHiddenCells certificate.now extra.now cells) }
{
    let mut hidden = Hidden::of_none(alloc, cells)?;
    hidden.hide_all(certificate.hidden.as_slice());
    let mut corners = Hidden::of_none(alloc, cells)?;
    corners.hide_corners(certificate.steps.as_slice());
    let mut subjects = Hidden::of_none(alloc, cells)?;
    hide_subjects(&mut subjects, certificate.repairs.as_slice());
    let mut beside = Hidden::of_none(alloc, cells)?;
    beside.hide_all(cells_in(extra));
    Ok(HiddenCells {
        hidden: hidden.flags,
        corners: corners.flags,
        subjects: subjects.flags,
        extra: beside.flags,
    })
}

// The extra cells, none where there is no list of them.
fn cells_in(extra: &Option<Extra>) -> &[u32]
    ensures { result.now ≡ spec.cells_in extra.now }
{
    match extra {
        Some(extra) => extra.cells.as_slice(),
        None => &[],
    }
}

/// Whether a cell with this number, of this kind, is hidden, and by what it came to that.
pub(crate) fn hidden_or_shown(cells: &HiddenCells, number: u32, kind: Kind) -> Outcome
    ensures { result ≡ outcome_in cells.now number kind }
{
    if is_hidden(cells.hidden.as_slice(), number as usize) {
        Outcome::Hidden(origin_of(cells, number, kind))
    } else if is_hidden(cells.extra.as_slice(), number as usize) {
        Outcome::Hidden(Some(Origin::Extra))
    } else {
        Outcome::Shown
    }
}

/// The numbers of the hidden cells among so many, ascending.
pub(crate) fn hidden_numbers(
    alloc: Global,
    count: u32,
    cells: &HiddenCells,
) -> Result<Items<u32>, Memory>
    ensures { IfOk result (λ numbers. numbers ≡ filter (is_flagged cells.now) (range_with_len 0 count)) }
{
    let mut numbers = Items::empty(alloc);
    'each: for number in 0..count {
        add_hidden(&mut numbers, cells, number)?;
    }
    Ok(numbers)
}

// Adds the number of a cell, where it is hidden.
fn add_hidden(numbers: &mut Items<u32>, cells: &HiddenCells, number: u32) -> Result<(), Memory>
    ensures { OnOk result (numbers.new ≡
        (if is_flagged cells.now number then numbers.old ++ number ∷ [] else numbers.old)) }
{
    if is_hidden(cells.hidden.as_slice(), number as usize)
        || is_hidden(cells.extra.as_slice(), number as usize)
    {
        numbers.push(number)?;
    }
    Ok(())
}

// By what a cell came to be hidden, where something says so.
fn origin_of(cells: &HiddenCells, number: u32, kind: Kind) -> Option<Origin>
    ensures { result ≡ spec.origin_by (is_primary kind) (hidden_set.is_hidden cells.now.corners number)
        (hidden_set.is_hidden cells.now.subjects number) }
{
    if kind.is_primary() {
        Some(Origin::Primary)
    } else if is_hidden(cells.corners.as_slice(), number as usize) {
        Some(Origin::Step)
    } else if is_hidden(cells.subjects.as_slice(), number as usize) {
        Some(Origin::Repair)
    } else {
        None
    }
}
