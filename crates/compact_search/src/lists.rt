// Lists of moves, as a blocked table has them.

/// What a number of a list stands at: its value, or the small amount of a bound.
#[derive(Clone, Copy)]
pub enum ListPlace {
    /// The value itself.
    Value,
    /// The upper bound of the cell with this number.
    CapAbove(u32),
    /// Its lower bound.
    CapBelow(u32),
    /// That the form of the relation with this number isn't above 0.
    Form(u32),
    /// That it isn't below 0.
    Negated(u32),
}

/// A number of a list at its place.
#[derive(Clone, Copy)]
pub struct ListTerm {
    /// Where it stands.
    pub place: ListPlace,
    /// The number, over the den of all lists.
    pub number: i128,
}

/// How a cell moves.
#[derive(Drop)]
pub struct MoveList {
    /// The number of the cell.
    pub cell: u32,
    /// The list of its move, each place at most once.
    pub terms: Vec<ListTerm>,
}

/// What a blocked table says, unchecked: lists of the cells' moves over a den, and weights of the relations over
/// another number.
#[derive(Drop)]
pub struct MoveLists {
    /// The den of all lists.
    pub den: i128,
    /// The cells of the component, ascending.
    pub moves: Vec<MoveList>,
    /// What the weights are over.
    pub q: i128,
    /// How often each relation is added to the asked cell's move, by its number, none of 0.
    pub weights: Vec<(u32, i128)>,
}
