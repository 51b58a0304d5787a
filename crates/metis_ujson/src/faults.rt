//! Why bytes are no universe document.
ghost use Rattle.std.specs.Prelude.{◌≡◌};
ghost use Rattle.metis_ujson.specs.Terms.{fault_of_row};

use metis_universe::{LimitKind, RowFault};
use std::alloc::{AllocError, AllocFailed};

/// Why bytes are no universe document. Places count from 0.
#[derive(Clone, Copy, PartialEq, Eq)]
pub enum UFault {
    /// They are no JSON.
    NotJson,
    /// The root is no object with `aeolus` 1 or 2 and a list `types`.
    NotUniverse,
    /// The type is no object with a text `name`, a text `initial` and a list `states`.
    TypeForm(u32),
    /// The type's name is no name.
    TypeName(u32),
    /// The type has the name of an earlier one, which comes second.
    TypeTwice(u32, u32),
    /// The state, the second place, is no object with a text `name` and lists of texts, whose list `require` may in version 2
    /// also have objects with a text `port` and a whole number `count`.
    StateForm(u32, u32),
    /// The state's name is no name.
    StateName(u32, u32),
    /// The state has the name of an earlier one of its type, which comes last.
    StateTwice(u32, u32, u32),
    /// The type's initial state is none of its states.
    NoInitial(u32),
    /// The entry of the state's next states is no state of the type.
    UnknownNext(u32, u32, u32),
    /// The entry, counted through what the state provides and then through what it requires, is no name.
    PortName(u32, u32, u32),
    /// The count of the entry, counted through what the state requires, is not 1 to 16.
    Demand(u32, u32, u32),
    /// More are counted than the limit allows.
    Limit(LimitKind, u64),
    NoMemory,
}

impl UFault {
    /// The fault of the rows, under its name here.
    pub(crate) fn of_row(fault: RowFault) -> UFault
        ensures { result ≡ fault_of_row fault }
    {
        match fault {
            RowFault::TypeName(t) => UFault::TypeName(t),
            RowFault::TypeTwice(t, first) => UFault::TypeTwice(t, first),
            RowFault::StateName(t, s) => UFault::StateName(t, s),
            RowFault::StateTwice(t, s, first) => UFault::StateTwice(t, s, first),
            RowFault::NoInitial(t) => UFault::NoInitial(t),
            RowFault::UnknownNext(t, s, k) => UFault::UnknownNext(t, s, k),
            RowFault::PortName(t, s, k) => UFault::PortName(t, s, k),
            RowFault::Demand(t, s, k) => UFault::Demand(t, s, k),
            RowFault::Limit(kind, count) => UFault::Limit(kind, count),
            RowFault::NoMemory => UFault::NoMemory,
        }
    }
}

impl From<AllocError> for UFault {
    ghost use Rattle.metis_ujson.specs.declared.faults.UFault.TheVariants.{NoMemory};

    ghost from_gives = { λ _ e. e ≡ NoMemory };

    fn from(_: AllocError) -> Self {
        UFault::NoMemory
    }
}

impl<T: Drop> From<AllocFailed<T>> for UFault {
    ghost use Rattle.metis_ujson.specs.declared.faults.UFault.TheVariants.{NoMemory};

    ghost from_gives = { λ _ e. e ≡ NoMemory };

    fn from(_: AllocFailed<T>) -> Self {
        UFault::NoMemory
    }
}
