//! Laws of release tables, each the contract of a function with an empty body.

ghost use Rattle.release_writer.specs.Laws.{OnlyWhatIsShownEnters, HiddenShowNothing};
ghost use Rattle.release_writer.specs.ReadingLaws.{HiddenAreReadBack, HiddenHaveTexts, RoundedHaveTexts};

/// Nothing enters the text of a table but the names, the decimals, the codes and what its cells show; and a hidden cell
/// shows nothing of its truth.
pub fn only_what_is_shown_enters()
    ensures texts { OnlyWhatIsShownEnters }
    ensures hidden { HiddenShowNothing }
{}

/// The texts that are written for a hidden set are read as that set, and bytes that are read as a hidden set are its
/// texts.
pub fn hidden_sets_are_read_back()
    ensures written { HiddenAreReadBack }
    ensures read { HiddenHaveTexts }
{}

/// Bytes that are read as numbers are the texts of these numbers, each of which is from 0 and not too wide.
pub fn rounded_numbers_have_texts()
    ensures { RoundedHaveTexts }
{}
