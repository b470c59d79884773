use crate::faults::Fault;
use crate::file_ref::FileRef;
use plain_text::Stop;
use sdc_base::Memory;

/// Why the inputs of a job were not read to their end.
#[derive(Clone, Copy, Debug, PartialEq, Eq)]
pub enum InputStop {
    /// They have this fault.
    Refused(Fault),
    /// The shelf failed at this file.
    ReadFault(FileRef),
    /// There was no memory.
    Memory,
}

impl From<Stop<Fault>> for InputStop {
    ghost use Rattle.std.specs.Prelude.{◌≡◌};
    ghost use Rattle.job_inputs.specs.Reading.{stop_of};

    ghost from_gives = { λ refusal e. e ≡ stop_of refusal };

    fn from(refusal: Stop<Fault>) -> Self {
        match refusal {
            Stop::Fault(fault) => InputStop::Refused(fault),
            Stop::Memory => InputStop::Memory,
        }
    }
}

impl From<Fault> for InputStop {
    ghost use Rattle.std.specs.Prelude.{◌≡◌};
    ghost use Rattle.job_inputs.specs.declared.stop.InputStop.TheVariants as stop;

    ghost from_gives = { λ fault e. e ≡ stop.Refused fault };

    fn from(fault: Fault) -> Self {
        InputStop::Refused(fault)
    }
}

impl From<Memory> for InputStop {
    ghost use Rattle.std.specs.Prelude.{◌≡◌};
    ghost use Rattle.job_inputs.specs.declared.stop.InputStop.TheVariants as stop;

    ghost from_gives = { λ _ e. e ≡ stop.Memory };

    fn from(_: Memory) -> Self {
        InputStop::Memory
    }
}
