use cert_check::CheckFault;
use std::fmt;
use std::fmt::Display;
use worlds::{RefutationFault, WorldFault};

/// A fault of a release that isn't accepted, as it is printed.
#[derive(Clone, Copy)]
pub(crate) struct CheckKind {
    pub why: CheckFault,
}

impl Display for CheckKind {
    ghost use Rattle.std.specs.Prelude.{Some};
    ghost use Rattle.job_run.specs.CheckTexts.{check_text};

    ghost output = { λ kind. Some (check_text kind.why) };

    fn fmt<W: fmt::Write>(&self, f: &mut fmt::Formatter<W>) -> fmt::Result {
        match self.why {
            CheckFault::Counts => write!(f, "Counts"),
            CheckFault::Method => write!(f, "Method"),
            CheckFault::PrimaryShown(cell) => write!(f, "PrimaryShown {cell}"),
            CheckFault::FixedHidden(cell) => write!(f, "FixedHidden {cell}"),
            CheckFault::Release { table, line } => {
                let number = u64::from(table) + 1;
                write!(f, "Release {number} {line}")
            }
            CheckFault::Step(k) => write!(f, "Step {k}"),
            CheckFault::RepairCell(k) => write!(f, "RepairCell {k}"),
            CheckFault::Repair(k, why) => {
                let kind = RefutationKind { why };
                write!(f, "Repair {k} {kind}")
            }
            CheckFault::Outside(cell) => write!(f, "Outside {cell}"),
            CheckFault::WorldCell(k) => write!(f, "WorldCell {k}"),
            CheckFault::World(k, why) => {
                let kind = WorldKind { why };
                write!(f, "World {k} {kind}")
            }
            CheckFault::NotReached(cell, side) => {
                let word = side.word();
                write!(f, "NotReached {cell} {word}")
            }
            CheckFault::NeedCell(k) => write!(f, "NeedCell {k}"),
            CheckFault::Need(k, why) => {
                let kind = RefutationKind { why };
                write!(f, "Need {k} {kind}")
            }
            CheckFault::Rounded(cell) => write!(f, "Rounded {cell}"),
            CheckFault::Relation(number) => write!(f, "Relation {number}"),
            CheckFault::Memory => write!(f, "Memory"),
        }
    }
}

/// Why a world is none, as it is printed.
#[derive(Clone, Copy)]
pub(crate) struct WorldKind {
    pub why: WorldFault,
}

impl Display for WorldKind {
    ghost use Rattle.std.specs.Prelude.{Some};
    ghost use Rattle.job_run.specs.CheckTexts.{world_text};

    ghost output = { λ kind. Some (world_text kind.why) };

    fn fmt<W: fmt::Write>(&self, f: &mut fmt::Formatter<W>) -> fmt::Result {
        match self.why {
            WorldFault::Den => write!(f, "Den"),
            WorldFault::Order(place) => write!(f, "Order {place}"),
            WorldFault::Shown(cell) => write!(f, "Shown {cell}"),
            WorldFault::Bound(cell) => write!(f, "Bound {cell}"),
            WorldFault::Relation(number) => write!(f, "Relation {number}"),
        }
    }
}

/// Why multipliers are no refutation, as it is printed.
#[derive(Clone, Copy)]
pub(crate) struct RefutationKind {
    pub why: RefutationFault,
}

impl Display for RefutationKind {
    ghost use Rattle.std.specs.Prelude.{Some};
    ghost use Rattle.job_run.specs.CheckTexts.{refutation_text};

    ghost output = { λ kind. Some (refutation_text kind.why) };

    fn fmt<W: fmt::Write>(&self, f: &mut fmt::Formatter<W>) -> fmt::Result {
        match self.why {
            RefutationFault::Den => write!(f, "Den"),
            RefutationFault::Order(place) => write!(f, "Order {place}"),
            RefutationFault::Wide(cell) => write!(f, "Wide {cell}"),
            RefutationFault::Unbounded(cell) => write!(f, "Unbounded {cell}"),
            RefutationFault::NotBelow => write!(f, "NotBelow"),
        }
    }
}
