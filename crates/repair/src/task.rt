ghost use Rattle.repair.specs.KeptWorlds.{IsTask};

use interval_audit::SignedSystem;
use sdc_base::{Cell, Side};

/// What is to be protected: a system with its cells, what it costs to hide each, what is asked in its order, and how
/// many steps each question may take.
#[derive(Drop)]
pub(crate) struct Task<'a, 'b> {
    pub(crate) system: &'b SignedSystem<'a>,
    pub(crate) cells: &'a [Cell],
    pub(crate) prices: &'b [u64],
    pub(crate) questions: &'b [(u32, Side)],
    pub(crate) limit: u64,
    ghost fits: { IsTask system.now cells.now prices.now questions.now limit },
}
