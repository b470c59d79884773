ghost use Rattle.std.specs.Prelude.{◌≡◌};

use crate::reader_fault::ReaderFault;
use interval_audit::AskFault;
use sdc_base::Memory;

/// Why a rounded release has no audit.
#[derive(Drop)]
pub enum AuditFault {
    /// The values aren't those of a rounded release; never want of memory.
    Reader(ReaderFault),
    /// The first question without an answer, and why it has none; never want of memory.
    Question(AskFault),
    /// Memory is wanted.
    Memory,
}

impl From<Memory> for AuditFault {
    ghost use Rattle.rounding_audit.specs.declared.audit_fault.AuditFault.TheVariants as audit_fault;

    ghost from_gives = { λ _ e. e ≡ audit_fault.Memory };

    fn from(_: Memory) -> Self {
        AuditFault::Memory
    }
}

impl From<ReaderFault> for AuditFault {
    ghost use Rattle.rounding_audit.specs.AuditFaults.{reader_stop};

    ghost from_gives = { λ why e. e ≡ reader_stop why };

    fn from(why: ReaderFault) -> Self {
        match why {
            ReaderFault::Memory => AuditFault::Memory,
            _ => AuditFault::Reader(why),
        }
    }
}

impl From<AskFault> for AuditFault {
    ghost use Rattle.rounding_audit.specs.AuditFaults.{question_stop};

    ghost from_gives = { λ why e. e ≡ question_stop why };

    fn from(why: AskFault) -> Self {
        match why {
            AskFault::Work(walk) => AuditFault::Question(AskFault::Work(walk)),
            AskFault::Wide(walk, place) => AuditFault::Question(AskFault::Wide(walk, place)),
            AskFault::Size { question, hidden } => {
                AuditFault::Question(AskFault::Size { question, hidden })
            }
            AskFault::Memory => AuditFault::Memory,
        }
    }
}
