//! Laws of audits, each the contract of a function that does nothing.

ghost use Rattle.rounding_audit.specs.Laws.{SizeIsLarge};
ghost use Rattle.rounding_audit.specs.Readers.{ReaderWorldsAreWorlds};

/// The worlds of a rounded release are those of the cells with the reader's bounds, all cells hidden.
pub fn reader_worlds_are_worlds()
    ensures { ReaderWorldsAreWorlds }
{}

/// A component is too large, among the faults of an audit, exactly where it has more than 4,000 cells.
pub fn size_is_large()
    ensures { SizeIsLarge }
{}
