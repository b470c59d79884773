//! Laws of the definitions, each the contract of a function with an empty body.

ghost use Rattle.hierarchy.specs.Laws.{ListGivesItsCodes};
ghost use Rattle.hierarchy.specs.LeadText.{LeadTextIsRead};

/// The text of a tree in the lead form is read as that tree, for codes that the form can write.
#[tactic(auto, using(crate::proofs::LeadLaw::lead_text_is_read))]
pub fn lead_text_is_read()
    ensures { LeadTextIsRead }
{}

/// A code list gives the codes of its lines, but the empty one and the total, each once.
pub fn list_gives_its_codes()
    ensures { ListGivesItsCodes }
{}
