//! Laws of the definitions, each the contract of a function with an empty body.

ghost use Rattle.hypercube.specs.CornerLaws.{CubesAreWhole};
ghost use Rattle.hypercube.specs.LeastLaws.{LeastIsFirst};

/// The corners of the least cube are those of a cube that serves, and no cube that serves costs less, or costs as much
/// and has lower numbers; there are none only where no cube serves.
#[tactic(auto, using(crate::proofs::LeastLaw::least_is_first))]
pub fn least_is_first()
    ensures { LeastIsFirst }
{}

/// Each cube of a cell in a subtable of a book has 2 to the number of the table's variables corners, since a cell
/// stands at each choice of one end of each edge; and their numbers strictly ascend, since no two are one cell.
#[tactic(auto, using(crate::proofs::WholeCubes::cubes_are_whole))]
pub fn cubes_are_whole()
    ensures { CubesAreWhole }
{}
