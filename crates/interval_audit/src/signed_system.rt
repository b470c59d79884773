ghost use Rattle.std.specs.Prelude.{◌≡◌, false, IfOk};
ghost use Rattle.sdc_base.specs.Signs.{HasNone};
ghost use Rattle.interval_audit.specs.Outcomes.{CanBeAsked, IsQuestionOutcome};

use crate::answer::{Answer, AskFault};
use crate::asking::{ask_flow, ask_walk};
use crate::question::Question;
use sdc_base::{Cell, Hidden, Items, Memory, System, signs};
use std::alloc::Global;
use std::marker::Model;

/// A system with its signs, which are looked for once: one for each relation, true for plus, or none where the system
/// has none ([`sdc_base::signs`]).
///
/// Contracts see it as the system.
#[derive(Drop)]
pub struct SignedSystem<'a> {
    system: &'a System,
    signs: Option<Items<bool>>,
}

impl<'a> Model for SignedSystem<'a> {
    ghost use Rattle.sdc_base.specs.declared.system.System.{System as AnySystem};
    ghost use Rattle.interval_audit.specs.SignedSystems.{AreFound};

    ghost Value = { AnySystem };

    ghost view = { λ s. s.system.now };

    ghost invariant = { λ s. AreFound s.system.now.relations s.signs };
}

impl<'a> SignedSystem<'a> {
    /// Looks for the signs of a system. It goes once through the relations and their parts; its one refusal is want of
    /// memory.
    pub fn of(alloc: Global, system: &'a System) -> Result<SignedSystem<'a>, Memory>
        ensures { IfOk result (λ signed. signed ≡ system.now) }
    {
        let signs = match signs(alloc, system)? {
            Some(found) => Some(Items::new(found)),
            None => None,
        };
        Ok(SignedSystem { system, signs })
    }

    /// The system.
    pub fn system(&self) -> &'a System
        ensures { result.now ≡ self.now }
    {
        self.system
    }

    /// Whether the system has signs. It takes one look.
    pub fn has_signs(&self) -> bool
        ensures none { result ≡ false → HasNone self.now.relations }
        ensures some { HasNone self.now.relations → result ≡ false }
    {
        match &self.signs {
            Some(_) => true,
            None => false,
        }
    }

    /// What [`crate::ask`] answers to a question of the system, under the same conditions and with the same refusals,
    /// without looking for the signs again.
    pub fn ask(
        &self,
        alloc: Global,
        cells: &[Cell],
        hidden: &Hidden,
        question: Question,
        limit: u64,
    ) -> Result<Answer, AskFault>
        requires { CanBeAsked self.now cells.now hidden.now.flags question.cell limit }
        ensures { IsQuestionOutcome self.now cells.now hidden.now.flags question limit result }
    {
        let system = self.system;
        match &self.signs {
            Some(signs) => ask_flow(alloc, system, cells, hidden, signs.as_slice(), question),
            None => ask_walk(alloc, system, cells, hidden, question, limit),
        }
    }
}
