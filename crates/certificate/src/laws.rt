//! Laws of certificates, as contracts of functions that do nothing.

ghost use Rattle.certificate.specs.Laws.{IsReadBack, HasOneSpelling};
ghost use Rattle.certificate.specs.ExtraTexts.{IsExtraReadBack, HasOneExtraSpelling};
ghost use Rattle.certificate.specs.WorkedTexts.{ReadsOpenCertificate, ReadsFirstVersion, ReadsSecondVersion, WritesSecondVersion, FindsVersion, FindsMoveOfZero, FindsOrderOfMoves, FindsFormOfMoves, FindsShapeFirst, FindsNumberNext, FindsOrderLast};

/// The text of a certificate in a version in which it has one is read as that certificate.
#[tactic(auto, using(crate::proofs::ReadBack::read_back))]
pub fn text_is_read_back()
    ensures { IsReadBack }
{}

/// Bytes that are read as a certificate are its text in one of the versions, so it has one spelling in each.
pub fn one_spelling()
    ensures { HasOneSpelling }
{}

/// The text of extra cells that have one is read as those extra cells.
#[tactic(auto, using(crate::proofs::ExtraBack::extra_read_back))]
pub fn extra_text_is_read_back()
    ensures { IsExtraReadBack }
{}

/// Bytes that are read as extra cells are their text, so they have one spelling.
pub fn one_extra_spelling()
    ensures { HasOneExtraSpelling }
{}

/// Worked texts are read as they should be: certificates of both versions, and the faults of a line in their order.
#[tactic(auto, using(crate::proofs::WorkedTextsHold::open_release, crate::proofs::WorkedTextsHold::first_version, crate::proofs::WorkedTextsHold::second_version, crate::proofs::WorkedTextsHold::written_version, crate::proofs::WorkedTextsHold::other_version, crate::proofs::WorkedTextsHold::zero_move, crate::proofs::WorkedTextsHold::moves_order, crate::proofs::WorkedTextsHold::moves_form, crate::proofs::WorkedTextsHold::shape_first, crate::proofs::WorkedTextsHold::number_first, crate::proofs::WorkedTextsHold::order_last))]
pub fn worked_texts()
    ensures nothing_hidden { ReadsOpenCertificate }
    ensures first_version { ReadsFirstVersion }
    ensures second_version { ReadsSecondVersion }
    ensures written { WritesSecondVersion }
    ensures other_version { FindsVersion }
    ensures zero_move { FindsMoveOfZero }
    ensures moves_order { FindsOrderOfMoves }
    ensures moves_form { FindsFormOfMoves }
    ensures shape { FindsShapeFirst }
    ensures number { FindsNumberNext }
    ensures order { FindsOrderLast }
{}
