use sdc_base::Memory;
use std::alloc::{AllocError, AllocFailed};

/// Why a reader or a writer stops: a fault of what it reads or writes, or want of memory. A fault is wrapped where it
/// is found, and want of memory is taken over by `?`.
#[derive(Clone, Copy, Debug, Drop, PartialEq, Eq)]
pub enum Stop<F> {
    /// This fault was found.
    Fault(F),
    /// There was no memory.
    Memory,
}

impl<F> From<Memory> for Stop<F> {
    ghost use Rattle.std.specs.Prelude.{◌≡◌};
    ghost use Rattle.plain_text.specs.declared.stop.Stop.TheVariants as stop;

    ghost from_gives = { λ _ e. e ≡ stop.Memory };

    fn from(_: Memory) -> Self {
        Stop::Memory
    }
}

impl<F> From<AllocError> for Stop<F> {
    ghost use Rattle.std.specs.Prelude.{◌≡◌};
    ghost use Rattle.plain_text.specs.declared.stop.Stop.TheVariants as stop;

    ghost from_gives = { λ _ e. e ≡ stop.Memory };

    fn from(_: AllocError) -> Self {
        Stop::Memory
    }
}

impl<F, T: Drop> From<AllocFailed<T>> for Stop<F> {
    ghost use Rattle.std.specs.Prelude.{◌≡◌};
    ghost use Rattle.plain_text.specs.declared.stop.Stop.TheVariants as stop;

    ghost from_gives = { λ _ e. e ≡ stop.Memory };

    fn from(_: AllocFailed<T>) -> Self {
        Stop::Memory
    }
}
