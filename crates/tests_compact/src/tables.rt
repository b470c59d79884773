// Small tables: a system with its cells, and the hidden ones.
use fixture_cells::{cell_of, hidden_of, system_of};
use sdc_base::{Cell, Hidden, Kind, System};
use std::alloc::{AllocError, Global};

// The relations of a table of three variables with two codes each: the cell of places a, b and c has the number
// 9 a + 3 b + c, and the place 0 is the total.
pub(crate) const TWO_BY_TWO_BY_TWO: [(u32, &[u32]); 27] = [
    (0, &[9, 18]),
    (0, &[3, 6]),
    (0, &[1, 2]),
    (1, &[10, 19]),
    (1, &[4, 7]),
    (2, &[11, 20]),
    (2, &[5, 8]),
    (3, &[12, 21]),
    (3, &[4, 5]),
    (4, &[13, 22]),
    (5, &[14, 23]),
    (6, &[15, 24]),
    (6, &[7, 8]),
    (7, &[16, 25]),
    (8, &[17, 26]),
    (9, &[12, 15]),
    (9, &[10, 11]),
    (10, &[13, 16]),
    (11, &[14, 17]),
    (12, &[13, 14]),
    (15, &[16, 17]),
    (18, &[21, 24]),
    (18, &[19, 20]),
    (19, &[22, 25]),
    (20, &[23, 26]),
    (21, &[22, 23]),
    (24, &[25, 26]),
];

// Each cell within has 10.
pub(crate) const TENS: [u32; 27] = [
    80, 40, 40, 40, 20, 20, 40, 20, 20, 40, 20, 20, 20, 10, 10, 20, 10, 10, 40, 20, 20, 20, 10, 10,
    20, 10, 10,
];

// The eight cells within.
pub(crate) const CORNERS: [u32; 8] = [13, 14, 16, 17, 22, 23, 25, 26];

// The relations of a table of two variables with three codes each: the cell of places a and b has the number 4 a + b.
pub(crate) const THREE_BY_THREE: [(u32, &[u32]); 8] = [
    (0, &[4, 8, 12]),
    (0, &[1, 2, 3]),
    (4, &[5, 6, 7]),
    (8, &[9, 10, 11]),
    (12, &[13, 14, 15]),
    (1, &[5, 9, 13]),
    (2, &[6, 10, 14]),
    (3, &[7, 11, 15]),
];

// Its truths.
pub(crate) const THREES: [u32; 16] = [88, 32, 25, 31, 30, 7, 12, 11, 29, 20, 0, 9, 29, 5, 13, 11];

// A system with its cells and its hidden ones.
#[derive(Drop)]
pub(crate) struct Small {
    pub(crate) system: System,
    pub(crate) cells: Vec<Cell>,
    pub(crate) hidden: Hidden,
    pub(crate) relations: Vec<u32>,
}

// That of these relations, truths and hidden cells.
pub(crate) fn make_small(
    alloc: Global,
    relations: &[(u32, &[u32])],
    truths: &[u32],
    shown: &[u32],
) -> Result<Option<Small>, AllocError> {
    let Some(system) = system_of(alloc, truths.len(), relations)? else {
        return Ok(None);
    };
    let mut cells = Vec::new(alloc);
    for truth in truths {
        cells.push(cell_of(*truth, Kind::Free, 0))?;
    }
    let hidden = hidden_of(alloc, truths.len(), shown)?;
    let mut numbers = Vec::new(alloc);
    for place in 0..relations.len() {
        if let Ok(number) = u32::try_from(place) {
            numbers.push(number)?;
        }
    }
    Ok(Some(Small {
        system,
        cells,
        hidden,
        relations: numbers,
    }))
}

// A table of three variables with three codes each.
pub(crate) const CUBE: [(u32, &[u32]); 48] = [
    (0, &[1, 2, 3]),
    (0, &[4, 8, 12]),
    (0, &[16, 32, 48]),
    (4, &[5, 6, 7]),
    (1, &[5, 9, 13]),
    (1, &[17, 33, 49]),
    (8, &[9, 10, 11]),
    (2, &[6, 10, 14]),
    (2, &[18, 34, 50]),
    (12, &[13, 14, 15]),
    (3, &[7, 11, 15]),
    (3, &[19, 35, 51]),
    (16, &[17, 18, 19]),
    (16, &[20, 24, 28]),
    (4, &[20, 36, 52]),
    (20, &[21, 22, 23]),
    (17, &[21, 25, 29]),
    (5, &[21, 37, 53]),
    (24, &[25, 26, 27]),
    (18, &[22, 26, 30]),
    (6, &[22, 38, 54]),
    (28, &[29, 30, 31]),
    (19, &[23, 27, 31]),
    (7, &[23, 39, 55]),
    (32, &[33, 34, 35]),
    (32, &[36, 40, 44]),
    (8, &[24, 40, 56]),
    (36, &[37, 38, 39]),
    (33, &[37, 41, 45]),
    (9, &[25, 41, 57]),
    (40, &[41, 42, 43]),
    (34, &[38, 42, 46]),
    (10, &[26, 42, 58]),
    (44, &[45, 46, 47]),
    (35, &[39, 43, 47]),
    (11, &[27, 43, 59]),
    (48, &[49, 50, 51]),
    (48, &[52, 56, 60]),
    (12, &[28, 44, 60]),
    (52, &[53, 54, 55]),
    (49, &[53, 57, 61]),
    (13, &[29, 45, 61]),
    (56, &[57, 58, 59]),
    (50, &[54, 58, 62]),
    (14, &[30, 46, 62]),
    (60, &[61, 62, 63]),
    (51, &[55, 59, 63]),
    (15, &[31, 47, 63]),
];

// Its truths.
pub(crate) const CUBE_TRUTHS: [u32; 64] = [
    143, 54, 39, 50, 38, 10, 4, 24, 57, 18, 27, 12, 48, 26, 8, 14, 67, 20, 23, 24, 15, 5, 2, 8, 23,
    2, 13, 8, 29, 13, 8, 8, 44, 16, 13, 15, 18, 5, 0, 13, 17, 3, 13, 1, 9, 8, 0, 1, 32, 18, 3, 11,
    5, 0, 2, 3, 17, 13, 1, 3, 10, 5, 0, 5,
];

// Its hidden cells.
pub(crate) const CUBE_HIDDEN: [u32; 33] = [
    0, 11, 13, 15, 17, 21, 22, 23, 25, 26, 27, 29, 30, 31, 35, 37, 38, 39, 41, 42, 43, 45, 46, 47,
    53, 54, 55, 57, 58, 59, 61, 62, 63,
];
