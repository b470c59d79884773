use attackers::ExtraFault;
use cert_check::CheckFault;
use job_inputs::InputStop;
use sdc_base::Memory;

/// Why the release of a job isn't accepted.
#[derive(Clone, Copy, Debug, PartialEq, Eq)]
pub enum CheckStop {
    /// The inputs, the certificate or the tables were not read to their end, or there was no memory.
    Inputs(InputStop),
    /// The release with its certificate has this fault, the first one; where the files are told, never want of memory.
    NotAccepted(CheckFault),
    /// The extra cells against contributors have this fault, the first one; where the files are told, never want of
    /// memory.
    NotGuarded(ExtraFault),
}

impl From<InputStop> for CheckStop {
    ghost use Rattle.std.specs.Prelude.{◌≡◌};
    ghost use Rattle.job_check.specs.declared.stop.CheckStop.TheVariants as stop;

    ghost from_gives = { λ input e. e ≡ stop.Inputs input };

    fn from(input: InputStop) -> Self {
        CheckStop::Inputs(input)
    }
}

impl From<Memory> for CheckStop {
    ghost use Rattle.std.specs.Prelude.{◌≡◌};
    ghost use Rattle.job_check.specs.declared.stop.CheckStop.TheVariants as stop;
    ghost use Rattle.job_inputs.specs.declared.stop.InputStop.TheVariants as input;

    ghost from_gives = { λ _ e. e ≡ stop.Inputs input.Memory };

    fn from(_: Memory) -> Self {
        CheckStop::Inputs(InputStop::Memory)
    }
}

impl From<CheckFault> for CheckStop {
    ghost use Rattle.std.specs.Prelude.{◌≡◌};
    ghost use Rattle.job_check.specs.Answers.{stop_for};

    ghost from_gives = { λ fault e. e ≡ stop_for fault };

    fn from(fault: CheckFault) -> Self {
        match fault {
            CheckFault::Memory => CheckStop::Inputs(InputStop::Memory),
            other => CheckStop::NotAccepted(other),
        }
    }
}

impl From<ExtraFault> for CheckStop {
    ghost use Rattle.std.specs.Prelude.{◌≡◌};
    ghost use Rattle.job_check.specs.Answers.{guard_stop_for};

    ghost from_gives = { λ fault e. e ≡ guard_stop_for fault };

    fn from(fault: ExtraFault) -> Self {
        match fault {
            ExtraFault::Memory => CheckStop::Inputs(InputStop::Memory),
            other => CheckStop::NotGuarded(other),
        }
    }
}
