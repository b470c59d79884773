ghost use Rattle.std.specs.Prelude.{◌≡◌};
ghost use Rattle.published_tables.specs.TableStops as spec;

use cert_check::CheckFault;
use interval_audit::AskFault;
use job_inputs::InputStop;
use rounding_audit::{AuditFault, ReaderFault};
use sdc_base::Memory;

/// Why no file is made of the tables of a job: of the intervals of the cells that they hide, or of their audit. Want of
/// memory is that of the inputs, wherever it came.
#[derive(Drop)]
pub enum TableStop {
    /// The inputs or the tables were not read to their end, or the file to be put would overwrite one of them.
    Inputs(InputStop),
    /// The first fault of the tables. For intervals they are not the texts of a hidden set without fixed cells: `Release`
    /// with the first bad line, or else `FixedHidden` with the first such cell. For an audit they are not those of a
    /// rounded release: `Release` with the first bad line, or else `Rounded` with the first cell that isn't rounded, or
    /// else `Relation` with the first relation that doesn't hold.
    NotAccepted(CheckFault),
    /// The first question without an answer, and why it has none; never want of memory.
    Undecided(AskFault),
}

impl From<InputStop> for TableStop {
    ghost use Rattle.std.specs.Prelude.{◌≡◌};
    ghost use Rattle.published_tables.specs.declared.table_stop.TableStop.TheVariants as stop;

    ghost from_gives = { λ why e. e ≡ stop.Inputs why };

    fn from(why: InputStop) -> Self {
        TableStop::Inputs(why)
    }
}

impl From<Memory> for TableStop {
    ghost use Rattle.std.specs.Prelude.{◌≡◌};
    ghost use Rattle.published_tables.specs.TableStops.{memory_stop};

    ghost from_gives = { λ _ e. e ≡ memory_stop };

    fn from(_: Memory) -> Self {
        TableStop::Inputs(InputStop::Memory)
    }
}

impl From<CheckFault> for TableStop {
    ghost use Rattle.std.specs.Prelude.{◌≡◌};
    ghost use Rattle.published_tables.specs.TableStops.{check_stop};

    ghost from_gives = { λ why e. e ≡ check_stop why };

    fn from(why: CheckFault) -> Self {
        match why {
            CheckFault::Memory => TableStop::Inputs(InputStop::Memory),
            _ => TableStop::NotAccepted(why),
        }
    }
}

impl From<AskFault> for TableStop {
    ghost use Rattle.std.specs.Prelude.{◌≡◌};
    ghost use Rattle.published_tables.specs.TableStops.{question_stop};

    ghost from_gives = { λ why e. e ≡ question_stop why };

    fn from(why: AskFault) -> Self {
        match why {
            AskFault::Work(walk) => TableStop::Undecided(AskFault::Work(walk)),
            AskFault::Wide(walk, place) => TableStop::Undecided(AskFault::Wide(walk, place)),
            AskFault::Size { question, hidden } => {
                TableStop::Undecided(AskFault::Size { question, hidden })
            }
            AskFault::Memory => TableStop::Inputs(InputStop::Memory),
        }
    }
}

impl From<AuditFault> for TableStop {
    ghost use Rattle.std.specs.Prelude.{◌≡◌};
    ghost use Rattle.published_tables.specs.TableStops.{audit_stop};

    ghost from_gives = { λ why e. e ≡ audit_stop why };

    fn from(why: AuditFault) -> Self {
        match why {
            AuditFault::Reader(fault) => reader_stop(fault),
            AuditFault::Question(fault) => TableStop::from(fault),
            AuditFault::Memory => TableStop::Inputs(InputStop::Memory),
        }
    }
}

// The stop for numbers that aren't those of a rounded release.
fn reader_stop(why: ReaderFault) -> TableStop
    ensures { result ≡ spec.reader_stop why }
{
    match why {
        ReaderFault::Rounded(cell) => TableStop::NotAccepted(CheckFault::Rounded(cell)),
        ReaderFault::Relation(number) => TableStop::NotAccepted(CheckFault::Relation(number)),
        ReaderFault::Memory => TableStop::Inputs(InputStop::Memory),
    }
}
