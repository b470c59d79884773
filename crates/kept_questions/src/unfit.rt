// That what a search found doesn't pass its check, or can't be checked.
use sdc_base::Memory;
use std::alloc::{AllocError, AllocFailed};

// It doesn't pass, a number leaves 128 bits, or memory is wanting.
#[derive(Clone, Copy, Debug, PartialEq, Eq)]
pub(crate) struct Unfit;

impl From<Memory> for Unfit {
    fn from(_: Memory) -> Self {
        Unfit
    }
}

impl From<AllocError> for Unfit {
    fn from(_: AllocError) -> Self {
        Unfit
    }
}

impl<T: Drop> From<AllocFailed<T>> for Unfit {
    fn from(_: AllocFailed<T>) -> Self {
        Unfit
    }
}
