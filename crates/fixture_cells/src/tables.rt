use sdc_base::Kind;

/// The relations of a table of two variables with two codes each, a total and its parts in each, in their order.
pub const TWO_BY_TWO: [(u32, &[u32]); 6] = [
    (0, &[3, 6]),
    (0, &[1, 2]),
    (1, &[4, 7]),
    (2, &[5, 8]),
    (3, &[4, 5]),
    (6, &[7, 8]),
];

/// Truths of that table, the margins always shown and the cell of the first codes primary.
pub const SHOWN_MARGINS: [(u32, Kind); 9] = [
    (140, Kind::Fixed),
    (50, Kind::Fixed),
    (90, Kind::Fixed),
    (70, Kind::Fixed),
    (20, Kind::Primary),
    (50, Kind::Free),
    (70, Kind::Fixed),
    (30, Kind::Free),
    (40, Kind::Free),
];

/// The truths of a table A by B and a table A by C, each variable with two codes.
pub const LINKED: [u32; 15] = [140, 50, 90, 70, 20, 50, 70, 30, 40, 55, 85, 30, 40, 25, 45];
