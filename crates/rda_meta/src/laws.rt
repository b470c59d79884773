//! Laws of metadata, as contracts of functions that do nothing.

ghost use Rattle.rda_meta.specs.Rows.{FourLines, ReadsRealisticMetadata, Files, LateClash, SomeCanonical};
ghost use Rattle.rda_meta.specs.Laws.{IsLenient, IsLenientToEnds, IsLenientToLineEnds, IsInOrder, IsReadAgain, IsRoundTrip, IsSpelling};
ghost use Rattle.rda_meta.specs.Meaning.{IsMeant, IsCounted};

/// Line ends, blank lines and blanks at the ends of lines change nothing but the line of a fault; and
/// where no line is put in or taken out, nothing at all. So LF, CR and LF, and no end of the last line
/// are alike.
#[tactic(auto, using(crate::proofs::Lenient::lenient, crate::proofs::Lenient::lenient_to_ends))]
pub fn leniency()
    ensures lines { IsLenient }
    ensures ends { IsLenientToEnds }
    ensures line_ends { IsLenientToLineEnds }
{}

/// The fault that is given is that of the first line that has one; where no line has one, that of the
/// first variable of which the lines say what doesn't go together, at the variable's line.
#[tactic(auto, using(crate::proofs::FirstFault::in_order))]
pub fn first_fault_is_given()
    ensures { IsInOrder }
{}

/// There is one variable for each variable line, in their order. It has a keyword's value exactly where
/// a keyword line between its own line and the next variable line says so, and else the default; and
/// the lines that are passed over are counted.
#[tactic(auto, using(crate::proofs::OwnLines::meant, crate::proofs::PassedOver::counted))]
pub fn metadata_are_as_stated()
    ensures variables { IsMeant }
    ensures passed_over { IsCounted }
{}

/// Any metadata within the limits are read from their canonical text, and from every text that has its
/// lines with other blanks at their ends, other line ends and blank lines between them.
#[tactic(auto, using(crate::proofs::SpelledText::spelled_again))]
pub fn metadata_are_read_again()
    ensures round_trip { IsRoundTrip }
    ensures text { IsReadAgain }
    ensures lines { IsSpelling }
{}

/// Worked texts and what they say.
#[tactic(auto, using(crate::proofs::RowsHold::four_lines, crate::proofs::RowsHold::realistic, crate::proofs::RowsHold::files, crate::proofs::RowsHold::late_clash, crate::proofs::RowsHold::some_canonical))]
pub fn worked_texts()
    ensures four_lines { FourLines }
    ensures realistic { ReadsRealisticMetadata }
    ensures files { Files }
    ensures late_clash { LateClash }
    ensures canonical { SomeCanonical }
{}
