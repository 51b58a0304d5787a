//! Why rows are no universe.
use std::alloc::{AllocError, AllocFailed};

/// What is counted against a limit.
#[derive(Clone, Copy, PartialEq, Eq)]
pub enum LimitKind {
    /// The states of one type, at most 64.
    States,
    /// The providers that the states of one type demand, of all ports together, at most 128.
    Requires,
    /// The pairs of all types, at most 2,000.
    Pairs,
    /// The distinct ports, at most 4,000.
    Ports,
}

/// The first reason why rows are no universe. Places count from 0: of a type, of a state in its type, of an entry in its list.
#[derive(Clone, Copy)]
pub enum RowFault {
    /// The type's name is no name.
    TypeName(u32),
    /// The type has the name of an earlier one, which comes second.
    TypeTwice(u32, u32),
    /// The state's name is no name.
    StateName(u32, u32),
    /// The state has the name of an earlier one of its type, which comes last.
    StateTwice(u32, u32, u32),
    /// The type's initial state is none of its states.
    NoInitial(u32),
    /// The entry of the state's next states is no state of the type.
    UnknownNext(u32, u32, u32),
    /// The entry, counted through what the state provides and then through what it requires, is no name.
    PortName(u32, u32, u32),
    /// The count of the entry, counted through what the state requires, is not 1 to 16.
    Demand(u32, u32, u32),
    /// More are counted than the limit allows.
    Limit(LimitKind, u64),
    NoMemory,
}

impl From<AllocError> for RowFault {
    ghost use Rattle.std.specs.Prelude.{◌≡◌};
    ghost use Rattle.metis_universe.specs.declared.faults.RowFault.TheVariants.{NoMemory};

    ghost from_gives = { λ _ e. e ≡ NoMemory };

    fn from(_: AllocError) -> Self {
        RowFault::NoMemory
    }
}

impl<T: Drop> From<AllocFailed<T>> for RowFault {
    ghost use Rattle.std.specs.Prelude.{◌≡◌};
    ghost use Rattle.metis_universe.specs.declared.faults.RowFault.TheVariants.{NoMemory};

    ghost from_gives = { λ _ e. e ≡ NoMemory };

    fn from(_: AllocFailed<T>) -> Self {
        RowFault::NoMemory
    }
}
