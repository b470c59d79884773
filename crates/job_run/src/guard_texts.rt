use crate::check_texts::{RefutationKind, WorldKind};
use attackers::ExtraFault;
use std::fmt;
use std::fmt::Display;

/// A fault of a contributors' file, as it is printed.
#[derive(Clone, Copy)]
pub(crate) struct GuardKind {
    pub why: ExtraFault,
}

impl Display for GuardKind {
    ghost use Rattle.std.specs.Prelude.{Some};
    ghost use Rattle.job_run.specs.GuardTexts.{guard_text};

    ghost output = { λ kind. Some (guard_text kind.why) };

    fn fmt<W: fmt::Write>(&self, f: &mut fmt::Formatter<W>) -> fmt::Result {
        match self.why {
            ExtraFault::Cell(k) => write!(f, "Cell {k}"),
            ExtraFault::NeedCell(k) => write!(f, "NeedCell {k}"),
            ExtraFault::Need(k, why) => {
                let kind = RefutationKind { why };
                write!(f, "Need {k} {kind}")
            }
            ExtraFault::GuardCell(k) => write!(f, "GuardCell {k}"),
            ExtraFault::Guard(k, why) => {
                let kind = WorldKind { why };
                write!(f, "Guard {k} {kind}")
            }
            ExtraFault::Open { row, cell, side } => {
                let number = u64::from(row) + 1;
                let word = side.word();
                write!(f, "Open {number} {cell} {word}")
            }
            ExtraFault::Memory => write!(f, "Memory"),
        }
    }
}
