ghost use Rattle.attackers.specs.ContributorTaskParts.{IsContributorTask};

use crate::attack::Attack;
use interval_audit::SignedSystem;
use sdc_base::Cell;

/// What is to be guarded: a system with its cells, which contributor alone makes up which, what it costs to hide each
/// cell, the attacks that are asked about in their order, and how many steps each question may take.
#[derive(Drop)]
pub(crate) struct ContributorTask<'a> {
    pub(crate) system: &'a SignedSystem<'a>,
    pub(crate) cells: &'a [Cell],
    pub(crate) soles: &'a [Option<u32>],
    pub(crate) prices: &'a [u64],
    pub(crate) attacks: &'a [Attack],
    pub(crate) limit: u64,
    ghost fits: { IsContributorTask system.now cells.now soles.now prices.now attacks.now limit },
}
