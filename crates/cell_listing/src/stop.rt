use job_check::CheckStop;
use job_inputs::InputStop;
use office_io::FileFault;
use plain_text::Stop;
use sdc_base::Memory;

/// Why an interval file isn't taken.
#[derive(Clone, Copy, Debug, PartialEq, Eq)]
pub enum IntervalFault {
    /// No file has its name.
    Absent,
    /// It has more than `2^60` bytes.
    TooLong,
    /// The shelf failed at it.
    Failed,
    /// The first line that isn't as it must be, from 1.
    Line(u64),
    /// There was no memory past the check.
    Memory,
}

impl From<FileFault> for IntervalFault {
    ghost use Rattle.std.specs.Prelude.{◌≡◌};
    ghost use Rattle.cell_listing.specs.IntervalRuns.{file_fault};

    ghost from_gives = { λ fault e. e ≡ file_fault fault };

    fn from(fault: FileFault) -> Self {
        match fault {
            FileFault::Absent => IntervalFault::Absent,
            FileFault::TooLong => IntervalFault::TooLong,
            FileFault::Failed => IntervalFault::Failed,
            FileFault::Memory => IntervalFault::Memory,
        }
    }
}

impl From<Stop<u64>> for IntervalFault {
    ghost use Rattle.std.specs.Prelude.{◌≡◌};
    ghost use Rattle.cell_listing.specs.IntervalRuns.{line_fault};

    ghost from_gives = { λ stop e. e ≡ line_fault stop };

    fn from(stop: Stop<u64>) -> Self {
        match stop {
            Stop::Fault(line) => IntervalFault::Line(line),
            Stop::Memory => IntervalFault::Memory,
        }
    }
}

impl From<Memory> for IntervalFault {
    ghost use Rattle.std.specs.Prelude.{◌≡◌};
    ghost use Rattle.cell_listing.specs.declared.stop.IntervalFault.TheVariants as fault;

    ghost from_gives = { λ _ e. e ≡ fault.Memory };

    fn from(_: Memory) -> Self {
        IntervalFault::Memory
    }
}

/// Why there is no listing.
#[derive(Clone, Copy, Debug, PartialEq, Eq)]
pub enum ListingStop {
    /// The words ask for no listing.
    Usage,
    /// What is to be listed was not read to its end, or is no release that a check accepts, or there was no memory.
    Stopped(CheckStop),
    /// The interval file of a release that a check accepts isn't taken.
    Intervals(IntervalFault),
}

impl From<InputStop> for ListingStop {
    ghost use Rattle.std.specs.Prelude.{◌≡◌};
    ghost use Rattle.cell_listing.specs.Calls.{inputs_stop};

    ghost from_gives = { λ input e. e ≡ inputs_stop input };

    fn from(input: InputStop) -> Self {
        ListingStop::Stopped(CheckStop::Inputs(input))
    }
}

impl From<CheckStop> for ListingStop {
    ghost use Rattle.std.specs.Prelude.{◌≡◌};
    ghost use Rattle.cell_listing.specs.declared.stop.ListingStop.TheVariants as stop;

    ghost from_gives = { λ check e. e ≡ stop.Stopped check };

    fn from(check: CheckStop) -> Self {
        ListingStop::Stopped(check)
    }
}

impl From<IntervalFault> for ListingStop {
    ghost use Rattle.std.specs.Prelude.{◌≡◌};
    ghost use Rattle.cell_listing.specs.declared.stop.ListingStop.TheVariants as stop;

    ghost from_gives = { λ fault e. e ≡ stop.Intervals fault };

    fn from(fault: IntervalFault) -> Self {
        ListingStop::Intervals(fault)
    }
}
