ghost use Rattle.std.specs.Prelude.{◌≡◌, ◌≤◌, ◌^◌};
ghost use Rattle.cost_rule.specs.Costs.{cost_of, price_of, AreCosted, IsTold};

use crate::kind::CostKind;
use crate::tells::TellsCosts;
use sdc_base::{Cell, CellFacts};
use std::marker::Model;

/// A cost rule: a closure, kept beside the fact that it may be asked about all facts of cells and tells the costs of a
/// kind. Contracts see the kind.
///
/// The costs are those of the tau-ARGUS manual, one added so that none is 0; the bound of the value is this project's
/// own.
#[derive(Drop)]
pub struct CostRule<F: TellsCosts> {
    kind: CostKind,
    f: F,
}

impl<F: TellsCosts> Model for CostRule<F> {
    ghost use Rattle.cost_rule.specs.Costs.{IsTold};
    ghost use Rattle.cost_rule.specs.declared.kind.CostKind.{CostKind as Kind};

    ghost Value = { Kind };

    ghost view = { λ rule. rule.kind };

    ghost invariant = { λ rule. IsTold F.may_ask F.may_say rule.f rule.kind };
}

impl<F: TellsCosts> CostRule<F> {
    /// The rule of this kind, told by `f`.
    ///
    /// `f` must be one that may be asked about all facts with a truth from 0 and at most 1,000,000 records, and that
    /// tells the costs of the kind for them. Nothing is refused. It doesn't ask `f`, and takes no memory.
    pub fn new(kind: CostKind, f: F) -> CostRule<F>
        requires told { IsTold F.may_ask F.may_say f kind }
        ensures kind { result ≡ kind }
    {
        CostRule { kind, f }
    }

    /// What hiding a cell with these facts costs, from 1 to `2^40`.
    ///
    /// The truth must be from 0, in units, and the records at most 1,000,000. Nothing is refused. `f` is asked once;
    /// beside that it takes no memory.
    pub fn cost(&self, facts: &CellFacts) -> u64
        requires costed { AreCosted facts.now }
        ensures value { result ≡ cost_of self.now facts.now }
        ensures from_one { 1 ≤ result }
        ensures at_most { result ≤ 2 ^ 40 }
    {
        self.f.ask(facts)
    }

    /// The price of a cell with these facts: its own where it has one, whatever that is, else what its facts cost.
    ///
    /// The truth must be from 0, in units, and the records at most 1,000,000, also where the cell has a price of its
    /// own. Nothing is refused. `f` is asked once, or not at all where the cell has a price; beside that it takes no
    /// memory.
    ///
    /// That a price may be given for a cell is this project's own.
    pub fn price(&self, cell: &Cell, facts: &CellFacts) -> u64
        requires costed { AreCosted facts.now }
        ensures value { result ≡ price_of self.now cell.now.price facts.now }
    {
        match cell.price {
            Some(price) => price,
            None => self.cost(facts),
        }
    }
}
