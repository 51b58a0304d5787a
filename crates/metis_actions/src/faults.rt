//! Why an action is refused.
use metis_ids::{InstNo, NoMemory, PairIx, PortIx};

/// Why an action is refused.
#[derive(Clone, Copy, PartialEq, Eq)]
pub enum AFault {
    /// The instance to be made is there.
    InUse(InstNo),
    /// The instance is not there.
    NoInstance(InstNo),
    /// The instance to be moved is in this pair, and not in the one that it is to leave.
    NoState(InstNo, PairIx),
    /// The pair does not lead to the other.
    NoTransition,
    /// The requirer and the provider are one.
    SameInstance,
    /// The port is required in no state of the requirer's type, or provided in no state of the provider's.
    NoSuchPort,
    /// The binding is there.
    Bound,
    /// The binding is not there.
    NotBound,
    /// The first instance, and its first port, that would be required and not met.
    Unmet(InstNo, PortIx),
    NoMemory,
}

impl From<NoMemory> for AFault {
    ghost use Rattle.std.specs.Prelude.{◌≡◌};
    ghost use Rattle.metis_actions.specs.declared.faults.AFault.TheVariants as faults;

    ghost from_gives = { λ _ e. e ≡ faults.NoMemory };

    fn from(_: NoMemory) -> AFault {
        AFault::NoMemory
    }
}
