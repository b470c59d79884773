ghost use Rattle.std.specs.Prelude.{◌≡◌};
ghost use Rattle.repair.specs.Stops.{no_memory};
ghost use Rattle.repair.specs.WantOfMemory.{list_with_fault};

use interval_audit::AskFault;
use sdc_base::Items;
use std::alloc::Global;
use worlds::Refuted;

/// A protection that stopped short of a verdict.
#[derive(Drop)]
pub struct Stopped {
    /// Why.
    pub fault: AskFault,
    /// The repairs so far.
    pub repairs: Items<Refuted>,
    /// The cells that were shown again, ascending; the last may be one that was being tried.
    pub shown: Items<u32>,
}

// A protection that stopped with these lists; under want of memory both are empty.
pub(crate) fn stop_with(
    alloc: Global,
    fault: AskFault,
    repairs: Items<Refuted>,
    shown: Items<u32>,
) -> Stopped
    ensures fault { result.fault ≡ fault }
    ensures repairs { result.repairs ≡ list_with_fault fault repairs }
    ensures shown { result.shown ≡ list_with_fault fault shown }
{
    match fault {
        AskFault::Memory => out_of_memory(alloc),
        other => Stopped {
            fault: other,
            repairs,
            shown,
        },
    }
}

// A protection that stopped for want of memory.
pub(crate) fn out_of_memory(alloc: Global) -> Stopped
    ensures { result ≡ no_memory }
{
    Stopped {
        fault: AskFault::Memory,
        repairs: Items::empty(alloc),
        shown: Items::empty(alloc),
    }
}
