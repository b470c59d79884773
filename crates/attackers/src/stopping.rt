ghost use Rattle.std.specs.Prelude.{◌≡◌, []};
ghost use Rattle.repair.specs.WantOfMemory.{list_with_fault};
ghost use Rattle.attackers.specs.GuardStops.{row_with_fault};
ghost use Rattle.attackers.specs.WholeGuards.{IsWholeGuardStop};

use crate::extra::{Against, GuardStop};
use crate::serving::RowFault;
use certificate::ExtraNeed;
use interval_audit::AskFault;
use sdc_base::Items;
use std::alloc::Global;

// Guarding that stopped with these lists; under want of memory both are empty, and the row is 0.
pub(crate) fn stop_with(
    alloc: Global,
    row_fault: RowFault,
    extras: Items<ExtraNeed>,
    dropped: Items<u32>,
) -> GuardStop
    ensures fault { result.fault ≡ row_fault.fault }
    ensures row { result.against.row ≡ row_with_fault row_fault.fault row_fault.row }
    ensures extras { result.against.extras ≡ list_with_fault row_fault.fault extras }
    ensures dropped { result.against.dropped ≡ list_with_fault row_fault.fault dropped }
{
    let row = row_fault.row;
    match row_fault.fault {
        AskFault::Memory => out_of_memory(alloc),
        other => GuardStop {
            fault: other,
            against: Against {
                row,
                extras,
                dropped,
            },
        },
    }
}

// Guarding that stopped for want of memory.
pub(crate) fn out_of_memory(alloc: Global) -> GuardStop
    ensures fault { result.fault ≡ AskFault.Memory }
    ensures row { result.against.row ≡ 0 }
    ensures extras { result.against.extras ≡ [] }
    ensures dropped { result.against.dropped ≡ [] }
    ensures whole { IsWholeGuardStop result }
{
    GuardStop {
        fault: AskFault::Memory,
        against: Against {
            row: 0,
            extras: Items::empty(alloc),
            dropped: Items::empty(alloc),
        },
    }
}
