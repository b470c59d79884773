//! What is asked of in tests: a system, its cells and which are hidden.

use fixture_cells::{TWO_BY_TWO, cell_within, hidden_of, system_of};
use sdc_base::{Cell, Hidden, System};
use std::alloc::Global;
use std::test::Fail;

// What is asked of: a system, its cells and which are hidden.
#[derive(Drop)]
pub(crate) struct Case {
    pub(crate) system: System,
    pub(crate) cells: Vec<Cell>,
    pub(crate) hidden: Hidden,
}

// What a case is made of: relations, truths, the bounds of one cell, and the numbers of the hidden cells.
#[derive(Clone, Copy)]
pub(crate) struct Sketch<'a> {
    pub(crate) relations: &'a [(u32, &'a [u32])],
    pub(crate) truths: &'a [i128],
    pub(crate) bounded: (u32, i128, Option<i128>),
    pub(crate) hidden: &'a [u32],
}

const TABLE: [i128; 9] = [140, 50, 90, 70, 20, 50, 70, 30, 40];

// A table of two by two whose four inner cells are hidden, without upper bounds.
pub(crate) const FOUR_HIDDEN: Sketch<'static> = Sketch {
    relations: &TWO_BY_TWO,
    truths: &TABLE,
    bounded: (5, 0, None),
    hidden: &[4, 5, 7, 8],
};

// The same, where the cell beside the first inner one is at least 45 and at most 60.
pub(crate) const FOUR_HIDDEN_BOUNDED: Sketch<'static> = Sketch {
    relations: &TWO_BY_TWO,
    truths: &TABLE,
    bounded: (5, 45, Some(60)),
    hidden: &[4, 5, 7, 8],
};

// Cells 3, 4 and 5 in a ring: 3 and 4, and 4 and 5, have shown sums, and cell 2 is the sum of 3 and 5. It may rise by 1
// and fall by 2.
pub(crate) const RING_OF_THREE: Sketch<'static> = Sketch {
    relations: &[(0, &[3, 4]), (1, &[4, 5]), (2, &[3, 5])],
    truths: &[20, 20, 20, 10, 10, 10],
    bounded: (2, 18, Some(21)),
    hidden: &[2, 3, 4, 5],
};

// The cells of truths, with no bounds but 0 and those of one cell.
fn cells_of(
    alloc: Global,
    truths: &[i128],
    bounded: (u32, i128, Option<i128>),
) -> Result<Option<Vec<Cell>>, Fail> {
    let mut cells = Vec::new(alloc);
    for (number, truth) in truths.iter().enumerate() {
        let made = if number == bounded.0 as usize {
            cell_within(*truth, bounded.1, bounded.2)
        } else {
            cell_within(*truth, 0, None)
        };
        let Some(cell) = made else {
            return Ok(None);
        };
        cells.push(cell)?;
    }
    Ok(Some(cells))
}

// The case that a sketch is of; none where a truth is outside of its bounds, or a relation names no cell.
pub(crate) fn case_of(alloc: Global, sketch: Sketch<'_>) -> Result<Option<Case>, Fail> {
    let Some(cells) = cells_of(alloc, sketch.truths, sketch.bounded)? else {
        return Ok(None);
    };
    let count = cells.len();
    let Some(system) = system_of(alloc, count, sketch.relations)? else {
        return Ok(None);
    };
    let hidden = hidden_of(alloc, count, sketch.hidden)?;
    Ok(Some(Case {
        system,
        cells,
        hidden,
    }))
}

// A total with so many parts, of which all but the total are hidden, and the bounds of one cell.
pub(crate) fn parts_hidden(
    alloc: Global,
    parts: u32,
    bounded: (u32, i128, Option<i128>),
) -> Result<Option<Case>, Fail> {
    let mut numbers = Vec::new(alloc);
    let mut truths = Vec::new(alloc);
    truths.push(i128::from(parts))?;
    for part in 1..=parts {
        numbers.push(part)?;
        truths.push(1)?;
    }
    let hidden = numbers.as_slice();
    let relations = [(0, hidden)];
    case_of(
        alloc,
        Sketch {
            relations: &relations,
            truths: truths.as_slice(),
            bounded,
            hidden,
        },
    )
}
