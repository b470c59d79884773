//! Laws of contributors as attackers, as contracts of functions that do nothing.

ghost use Rattle.attackers.specs.Laws.{HaveText, GuardsEach};

/// Extra cells without a fault have a text, where the rows can be said.
#[tactic(auto, using(crate::proofs::Saying::have_text))]
pub fn extra_has_text()
    ensures { HaveText }
{}

/// Where a hidden set guards against all listed attacks, it guards against each attack: none is left out.
#[tactic(auto, using(crate::proofs::EachAttack::guards_each))]
pub fn every_attack_is_guarded()
    ensures { GuardsEach }
{}
