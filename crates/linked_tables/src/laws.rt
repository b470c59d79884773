//! Laws of the definitions, each the contract of a function with an empty body.

ghost use Rattle.linked_tables.specs.Laws.{CellsByCode, TurnedShareAll, ApartShareTotal, NumbersAreNames, WrittenStand};

/// A table names exactly the cells that have a code of the tree for each variable that it spans, and the total for
/// each other one.
#[tactic(auto, using(crate::proofs::Sharing::cells_by_code))]
pub fn cells_by_code()
    ensures { CellsByCode }
{}

/// Tables over the same variables in another order share all their cells.
#[tactic(auto, using(crate::proofs::Sharing::turned_share_all))]
pub fn turned_tables_share_all_cells()
    ensures { TurnedShareAll }
{}

/// Tables that share no variable share exactly the grand total.
#[tactic(auto, using(crate::proofs::Sharing::apart_share_total))]
pub fn tables_apart_share_the_total()
    ensures { ApartShareTotal }
{}

/// Two places have one number exactly where they have one name.
#[tactic(auto, using(crate::proofs::Numbers::numbers_are_names))]
pub fn numbers_are_names()
    ensures { NumbersAreNames }
{}

/// Marks that are written to a table's own cells stand there, and all other marks stay.
#[tactic(auto, using(crate::proofs::Numbers::written_stand))]
pub fn written_marks_stand()
    ensures { WrittenStand }
{}
