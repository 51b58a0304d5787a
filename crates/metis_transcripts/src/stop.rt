//! Why cases stop.
use metis_outside::{ReadAnswer, Trouble};
use std::alloc::AllocError;

/// Why not all cases were run.
#[derive(Clone, Copy, Debug, Drop)]
pub enum Stop {
    /// The file of the cases was not read.
    Unread(ReadAnswer),
    /// It is no text.
    NoText,
    /// The last line that was put has none of the forms of lines.
    NoCase,
    /// Input or a failing call stands behind the last case.
    NoCaseFollows,
    /// The last case put no whole answer, or its lines were not put.
    Unput,
    NoMemory,
}

impl From<AllocError> for Stop {
    fn from(_: AllocError) -> Self {
        Stop::NoMemory
    }
}

impl From<Trouble> for Stop {
    fn from(_: Trouble) -> Self {
        Stop::Unput
    }
}
