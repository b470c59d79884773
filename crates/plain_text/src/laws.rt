//! Laws from the text that is written to what is read, as contracts of functions that do nothing.

ghost use Rattle.plain_text.specs.Laws.{AreReadAgain, AreReadWithReturns, AreZerosPassed, IsLastRead, IsPrintedRead, HasAllPlaces};
ghost use Rattle.plain_text.specs.Spelling.{AreSpelled};

/// Lines that were joined, each with LF at its end, are read again.
#[tactic(auto, using(crate::proofs::Joined::read_again))]
pub fn joined_lines()
    ensures { AreReadAgain }
{}

/// Lines that were joined, each with CR and LF at its end, are read again.
#[tactic(auto, using(crate::proofs::Joined::read_with_returns))]
pub fn joined_lines_with_returns()
    ensures { AreReadWithReturns }
{}

/// A last line without its end is read as the others are.
#[tactic(auto, using(crate::proofs::Joined::last_read))]
pub fn last_line_without_end()
    ensures { IsLastRead }
{}

/// Every text is lines, each with LF or CR and LF behind it, and then perhaps a last one without an
/// end; and these are its lines.
#[tactic(auto, using(crate::proofs::Spelled::are_spelled))]
pub fn spelled_lines()
    ensures { AreSpelled }
{}

/// The text of a number of units is read as that number: each number from 0 and below `10^37`, at
/// each number of decimals. Above 0 decimals exactly so many digits stand behind its point.
#[tactic(auto, using(crate::proofs::ReadBack::printed_read, crate::proofs::ReadBack::all_places))]
pub fn printed_units()
    ensures read { IsPrintedRead }
    ensures places { HasAllPlaces }
{}

/// Leading zeros are accepted: with zeros in front a number is read as without them.
pub fn leading_zeros()
    ensures { AreZerosPassed }
{}
