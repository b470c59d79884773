use sdc_base::Items;

/// What a cell moves by in a world, in units over the world's denominator.
#[derive(Clone, Copy)]
pub struct Move {
    /// The number of the cell.
    pub cell: u32,
    /// The move, over the denominator.
    pub by: i128,
}

/// A complete table by its moves away from the truths: a cell's value is its truth and its move over the denominator.
#[derive(Drop)]
pub struct World {
    /// The denominator of all moves.
    pub den: i128,
    /// The moves, ascending by cells and none of 0; a cell without a move has 0.
    pub moves: Items<Move>,
}
