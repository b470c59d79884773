ghost use Rattle.std.specs.Prelude.{◌≡◌, ◌<◌, ◌==◌, ◌||◌, [], ℕ, if◌then◌else◌, length, All};
ghost use Rattle.std.specs.List.{list_any};
ghost use Rattle.sdc_base.specs.Kinds as spec;
ghost use Rattle.hypercube.specs.LeastCubes.{is_marked};
ghost use Rattle.modular_plan.specs.Plans.{AreMarked, IsSameButHidden};

use linked_tables::Book;
use sdc_base::{Cell, Corner};

/// Marks the primary cells as hidden, and all others as shown.
pub(crate) fn mark_primary(book: &mut Book, cells: &[Cell])
    requires one_each { length cells.now ≡ length book.old.marks }
    ensures same { IsSameButHidden book.old book.new }
    ensures marked { AreMarked book.new cells.now [] }
{
    'cells: for cell in 0..book.cells() {
        set_hidden(book, cell, is_primary(cells, cell));
    }
}

// Whether a cell is primary.
fn is_primary(cells: &[Cell], cell: u32) -> bool
    ensures { result ≡ spec.is_primary_at cells.now cell }
{
    match cells.get(cell as usize) {
        Some(one) => one.kind.is_primary(),
        None => false,
    }
}

/// Marks the corners of a cube as hidden.
pub(crate) fn hide(book: &mut Book, corners: &[Corner])
    requires within { All (λ corner. corner.cell < length book.old.marks) corners.now }
    ensures same { IsSameButHidden book.old book.new }
    ensures marked { (cell : ℕ) → is_marked book.new cell
        ≡ (is_marked book.old cell || list_any (λ corner. corner.cell == cell) corners.now) }
{
    for corner in corners {
        set_hidden(book, corner.cell, true);
    }
}

// Marks a cell as hidden or shown.
fn set_hidden(book: &mut Book, cell: u32, hidden: bool)
    ensures same { IsSameButHidden book.old book.new }
    ensures marked { (other : ℕ) → cell < length book.old.marks
        → is_marked book.new other ≡ (if other == cell then hidden else is_marked book.old other) }
{
    if let Some(mark) = book.mark_mut(cell) {
        mark.hidden = hidden;
    }
}
