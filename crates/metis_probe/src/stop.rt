//! Why probes stop.
use metis_ids::NoMemory;
use std::alloc::{AllocError, AllocFailed};
use std::io;

/// Why not all probes were made.
#[derive(Clone, Copy, Debug, Drop)]
pub enum Stop {
    /// A file was not read, or a line not printed.
    Files,
    /// The line that was printed last is no probe.
    NoProbe,
    /// Its document is no universe.
    NoUniverse,
    /// Its text is no plan of the universe, or not the kind of one that the call is for.
    NoPlan,
    /// Its text is no other text that the call is for.
    NoText,
    NoMemory,
}

impl From<io::Error> for Stop {
    fn from(_: io::Error) -> Self {
        Stop::Files
    }
}

impl From<AllocError> for Stop {
    fn from(_: AllocError) -> Self {
        Stop::NoMemory
    }
}

impl<T: Drop> From<AllocFailed<T>> for Stop {
    fn from(_: AllocFailed<T>) -> Self {
        Stop::NoMemory
    }
}

impl From<NoMemory> for Stop {
    fn from(_: NoMemory) -> Self {
        Stop::NoMemory
    }
}
