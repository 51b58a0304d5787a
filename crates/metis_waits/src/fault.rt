//! Why a list of actions has no waits.
use metis_ids::NoMemory;
use std::alloc::{AllocError, AllocFailed};

/// Why a list of actions has no waits.
#[derive(Clone, Copy, PartialEq, Eq)]
pub enum WFault {
    /// The action of this number is the first that is not steadfast.
    Loose(u32),
    NoMemory,
}

impl From<AllocError> for WFault {
    ghost use Rattle.std.specs.Prelude.{◌≡◌};
    ghost use Rattle.metis_waits.specs.declared.fault.WFault.TheVariants as fault;

    ghost from_gives = { λ _ e. e ≡ fault.NoMemory };

    fn from(_: AllocError) -> Self {
        WFault::NoMemory
    }
}

impl<T: Drop> From<AllocFailed<T>> for WFault {
    ghost use Rattle.std.specs.Prelude.{◌≡◌};
    ghost use Rattle.metis_waits.specs.declared.fault.WFault.TheVariants as fault;

    ghost from_gives = { λ _ e. e ≡ fault.NoMemory };

    fn from(_: AllocFailed<T>) -> Self {
        WFault::NoMemory
    }
}

impl From<NoMemory> for WFault {
    ghost use Rattle.std.specs.Prelude.{◌≡◌};
    ghost use Rattle.metis_waits.specs.declared.fault.WFault.TheVariants as fault;

    ghost from_gives = { λ _ e. e ≡ fault.NoMemory };

    fn from(_: NoMemory) -> Self {
        WFault::NoMemory
    }
}
