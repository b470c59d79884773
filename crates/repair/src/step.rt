/// What asking once comes to on the way of a search for a hidden set.
#[derive(Drop)]
pub enum Step<U> {
    /// A complete table serves.
    Served,
    /// A cell more is hidden.
    Widened,
    /// No hidden set serves.
    Cannot(U),
}
